// Geometries.
ghost use Rattle.std.specs.Prelude.{◌≡◌, ◌↔◌, ◌++◌, ◌∷◌, [], IsTrue, OnErr, OnOk, length, option_map, slice_get};

use fixed_coord::Coord;
use std::alloc::{AllocError, Global};
use std::marker::Model;

/// A point.
#[derive(Clone, Copy, Debug, PartialEq, Eq)]
pub struct Pt {
    pub x: Coord,
    pub y: Coord,
}

/// A list of points.
#[derive(Debug, Drop)]
pub struct Path {
    points: Vec<Pt>,
}

impl Model for Path {
    ghost use Rattle.std.specs.Prelude.{List};
    ghost use Rattle.wkt_text.specs.declared.geometry.Pt.{Pt};

    ghost Value = { List Pt };

    ghost view = { λ path. path.points.items };
}

impl Path {
    /// No point. It takes no memory.
    pub fn new(alloc: Global) -> Path
        ensures { result ≡ [] }
    {
        Path {
            points: Vec::new(alloc),
        }
    }

    /// Adds a point at the end. A refusal leaves the list as it was.
    pub fn push(&mut self, point: Pt) -> Result<(), AllocError>
        ensures ok { OnOk result (self.new ≡ self.old ++ point ∷ []) }
        ensures err { OnErr result (self.new ≡ self.old) }
    {
        self.points.push(point)?;
        Ok(())
    }

    /// The number of points.
    pub fn len(&self) -> usize
        ensures { result ≡ length self.now }
    {
        self.points.len()
    }

    /// Whether there is no point.
    pub fn is_empty(&self) -> bool
        ensures { IsTrue result ↔ (self.now ≡ []) }
    {
        self.points.is_empty()
    }

    /// The point at a number, counted from 0; none exactly where there are not so many.
    pub fn get(&self, i: usize) -> Option<&Pt>
        ensures { option_map (λ point. point.now) result ≡ slice_get self.now i }
    {
        self.points.get(i)
    }

    /// The points in their order.
    pub fn as_slice(&self) -> &[Pt]
        ensures { result.now ≡ self.now }
    {
        self.points.as_slice()
    }
}

/// A list of paths, as the rings of a polygon.
#[derive(Debug, Drop)]
pub struct Rings {
    paths: Vec<Path>,
}

impl Model for Rings {
    ghost use Rattle.std.specs.Prelude.{List};
    ghost use Rattle.wkt_text.specs.declared.geometry.Pt.{Pt};

    ghost Value = { List (List Pt) };

    ghost view = { λ rings. rings.paths.items };
}

impl Rings {
    /// No path. It takes no memory.
    pub fn new(alloc: Global) -> Rings
        ensures { result ≡ [] }
    {
        Rings {
            paths: Vec::new(alloc),
        }
    }

    /// Adds a path at the end. A refusal leaves the list as it was.
    pub fn push(&mut self, path: Path) -> Result<(), AllocError>
        ensures ok { OnOk result (self.new ≡ self.old ++ path ∷ []) }
        ensures err { OnErr result (self.new ≡ self.old) }
    {
        self.paths.push(path)?;
        Ok(())
    }

    /// The number of paths.
    pub fn len(&self) -> usize
        ensures { result ≡ length self.now }
    {
        self.paths.len()
    }

    /// Whether there is no path.
    pub fn is_empty(&self) -> bool
        ensures { IsTrue result ↔ (self.now ≡ []) }
    {
        self.paths.is_empty()
    }

    /// The path at a number, counted from 0; none exactly where there are not so many.
    pub fn get(&self, i: usize) -> Option<&Path>
        ensures { option_map (λ path. path.now) result ≡ slice_get self.now i }
    {
        self.paths.get(i)
    }

    /// The paths in their order.
    pub fn as_slice(&self) -> &[Path]
        ensures { result.now ≡ self.now }
    {
        self.paths.as_slice()
    }
}

/// A list of polygons, each by its rings.
#[derive(Debug, Drop)]
pub struct Polygons {
    polygons: Vec<Rings>,
}

impl Model for Polygons {
    ghost use Rattle.std.specs.Prelude.{List};
    ghost use Rattle.wkt_text.specs.declared.geometry.Pt.{Pt};

    ghost Value = { List (List (List Pt)) };

    ghost view = { λ polygons. polygons.polygons.items };
}

impl Polygons {
    /// No polygon. It takes no memory.
    pub fn new(alloc: Global) -> Polygons
        ensures { result ≡ [] }
    {
        Polygons {
            polygons: Vec::new(alloc),
        }
    }

    /// Adds a polygon at the end. A refusal leaves the list as it was.
    pub fn push(&mut self, rings: Rings) -> Result<(), AllocError>
        ensures ok { OnOk result (self.new ≡ self.old ++ rings ∷ []) }
        ensures err { OnErr result (self.new ≡ self.old) }
    {
        self.polygons.push(rings)?;
        Ok(())
    }

    /// The number of polygons.
    pub fn len(&self) -> usize
        ensures { result ≡ length self.now }
    {
        self.polygons.len()
    }

    /// Whether there is no polygon.
    pub fn is_empty(&self) -> bool
        ensures { IsTrue result ↔ (self.now ≡ []) }
    {
        self.polygons.is_empty()
    }

    /// The polygon at a number, counted from 0; none exactly where there are not so many.
    pub fn get(&self, i: usize) -> Option<&Rings>
        ensures { option_map (λ rings. rings.now) result ≡ slice_get self.now i }
    {
        self.polygons.get(i)
    }

    /// The polygons in their order.
    pub fn as_slice(&self) -> &[Rings]
        ensures { result.now ≡ self.now }
    {
        self.polygons.as_slice()
    }
}

/// A geometry of one of six kinds. An empty list is the kind's EMPTY, and a point is a path of one point.
#[derive(Debug, Drop)]
pub enum Geometry {
    Point(Path),
    LineString(Path),
    Polygon(Rings),
    MultiPoint(Path),
    MultiLineString(Rings),
    MultiPolygon(Polygons),
}
