// The extent of a layer.
ghost use Rattle.std.specs.Prelude.{◌≡◌, ◌∷◌, [], option_map};
ghost use Rattle.std.specs.Int.{int_max, int_min};
ghost use Rattle.std.specs.List.{flat_map};
ghost use Rattle.tool_outcome.specs.LayerExtent.{layer_extent, points_if, points_in, points_of};
ghost use Rattle.tool_run.specs.Inner.Extent.{HoldsPoints};

use fixed_coord::Coord;
use geo_transform::Extent;
use ogr_csv::Feature;
use wkt_text::{Geometry, Path, Polygons, Pt, Rings};

fn lesser(a: Coord, b: Coord) -> Coord
    ensures { result ≡ int_min a b }
{
    if b.units() < a.units() { b } else { a }
}

fn greater(a: Coord, b: Coord) -> Coord
    ensures { result ≡ int_max a b }
{
    if a.units() < b.units() { b } else { a }
}

// The extent that holds a point besides.
fn with_point(extent: Option<Extent>, point: Pt) -> Option<Extent>
    ensures { HoldsPoints (point ∷ []) extent result }
{
    let Some(before) = extent else {
        return Some(Extent {
            xmin: point.x,
            ymin: point.y,
            xmax: point.x,
            ymax: point.y,
        });
    };
    Some(Extent {
        xmin: lesser(before.xmin, point.x),
        ymin: lesser(before.ymin, point.y),
        xmax: greater(before.xmax, point.x),
        ymax: greater(before.ymax, point.y),
    })
}

fn with_path(extent: Option<Extent>, path: &Path) -> Option<Extent>
    ensures { HoldsPoints path.now extent result }
{
    let mut round = extent;
    'points: for point in path.as_slice() {
        round = with_point(round, *point);
    }
    round
}

fn with_rings(extent: Option<Extent>, rings: &Rings) -> Option<Extent>
    ensures { HoldsPoints (points_in rings.now) extent result }
{
    let mut round = extent;
    'rings: for path in rings.as_slice() {
        round = with_path(round, path);
    }
    round
}

fn with_polygons(extent: Option<Extent>, polygons: &Polygons) -> Option<Extent>
    ensures { HoldsPoints (flat_map points_in polygons.now) extent result }
{
    let mut round = extent;
    'polygons: for rings in polygons.as_slice() {
        round = with_rings(round, rings);
    }
    round
}

// The extent that holds the points of a geometry besides.
fn with_geometry(extent: Option<Extent>, g: &Geometry) -> Option<Extent>
    ensures { HoldsPoints (points_of g.now) extent result }
{
    match g {
        Geometry::Point(path) => with_path(extent, path),
        Geometry::LineString(path) => with_path(extent, path),
        Geometry::Polygon(rings) => with_rings(extent, rings),
        Geometry::MultiPoint(path) => with_path(extent, path),
        Geometry::MultiLineString(paths) => with_rings(extent, paths),
        Geometry::MultiPolygon(polygons) => with_polygons(extent, polygons),
    }
}

// The extent that holds the points of a feature besides.
fn with_feature(extent: Option<Extent>, feature: &Feature) -> Option<Extent>
    ensures { HoldsPoints (points_if feature.now.geometry) extent result }
{
    match &feature.geometry {
        None => extent,
        Some(g) => with_geometry(extent, g),
    }
}

/// The least extent of all points of a layer's features, if there is a point.
pub(crate) fn extent_of(features: &[Feature]) -> Option<Extent>
    ensures { result ≡ layer_extent features.now }
{
    let mut round = None;
    'features: for feature in features {
        round = with_feature(round, feature);
    }
    round
}
