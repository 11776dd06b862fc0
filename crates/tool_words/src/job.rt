// What the words of each tool ask for.
ghost use Rattle.std.specs.Prelude.{◌≡◌, ◌∷◌, ◌++◌, [], OnErr, OnOk, length, option_map, slice_get};

use crate::words::Name;
use cell_base::{CellKind, Micro};
use fixed_coord::Coord;
use geo_transform::Extent;
use std::alloc::{AllocError, Global};
use std::marker::Model;

/// Which cells of a source are valid.
#[derive(Clone, Copy, Debug, PartialEq, Eq)]
pub enum MaskFrom {
    /// Those that don't have the grid's nodata value.
    Nodata,
}

/// A job of `gdal_sieve`.
#[derive(Drop)]
pub struct SieveJob {
    /// The name of the source.
    pub source: Name,
    /// The name of the destination.
    pub dest: Name,
    /// The number of cells from which on a component stays.
    pub st: u32,
    /// Whether cells that meet at a corner are neighbours.
    pub eight: bool,
    /// Which cells are valid.
    pub mask: MaskFrom,
}

/// A job of `gdal_polygonize`.
#[derive(Drop)]
pub struct PolygonizeJob {
    /// The name of the source.
    pub source: Name,
    /// The name of the destination.
    pub dest: Name,
    /// The name of the field that gets the values.
    pub field: Name,
    /// Whether cells that meet at a corner are neighbours.
    pub eight: bool,
    /// Which cells are valid.
    pub mask: MaskFrom,
}

/// Where the value that is burned comes from.
#[derive(Drop)]
pub enum ValueFrom {
    /// It is this number.
    Burn(i64),
    /// It is each feature's attribute of this name.
    Field(Name),
}

/// Where the size of a grid comes from.
#[derive(Clone, Copy, Debug, PartialEq, Eq)]
pub enum SizeFrom {
    /// From its number of columns and rows.
    Cells { ncols: u32, nrows: u32 },
    /// From the width and the height of its cells.
    Res { x: Coord, y: Coord },
}

/// A job of `gdal_rasterize`.
#[derive(Drop)]
pub struct RasterizeJob {
    /// The name of the source.
    pub source: Name,
    /// The name of the destination.
    pub dest: Name,
    /// The value that is burned.
    pub value: ValueFrom,
    /// Whether the outside is burned.
    pub invert: bool,
    /// Whether each cell that is touched is burned.
    pub touched: bool,
    /// Whether the value is added to the cell's own.
    pub add: bool,
    /// The value that each cell has at first.
    pub init: i64,
    /// The nodata value that is written, if one is.
    pub nodata: Option<i64>,
    /// The extent; none for that of the layer.
    pub extent: Option<Extent>,
    /// The size.
    pub size: SizeFrom,
    /// The type of the cells.
    pub kind: CellKind,
}

/// A list of numbers of six decimals. Contracts see their units.
#[derive(Drop)]
pub struct MicroList {
    items: Vec<Micro>,
}

impl Model for MicroList {
    ghost use Rattle.std.specs.Prelude.{List, ℤ};

    ghost Value = { List ℤ };

    ghost view = { λ list. list.items.items };
}

impl MicroList {
    /// No number. It takes no memory.
    pub fn new(alloc: Global) -> MicroList
        ensures { result ≡ [] }
    {
        MicroList {
            items: Vec::new(alloc),
        }
    }

    /// Adds a number at the end. The only error is want of memory, and it changes nothing.
    pub fn push(&mut self, item: Micro) -> Result<(), AllocError>
        ensures ok { OnOk result (self.new ≡ self.old ++ item ∷ []) }
        ensures err { OnErr result (self.new ≡ self.old) }
    {
        self.items.push(item)?;
        Ok(())
    }

    /// How many numbers there are.
    pub fn len(&self) -> usize
        ensures { result ≡ length self.now }
    {
        self.items.len()
    }

    /// The i-th number, counted from 0; none exactly where there are not so many.
    pub fn get(&self, i: usize) -> Option<&Micro>
        ensures { option_map (λ item. item.now) result ≡ slice_get self.now i }
    {
        self.items.get(i)
    }
}

/// A job of `gdal_contour`.
#[derive(Drop)]
pub struct ContourJob {
    /// The name of the source.
    pub source: Name,
    /// The name of the destination.
    pub dest: Name,
    /// The distance between two levels, if levels at a distance are drawn.
    pub interval: Option<Micro>,
    /// A level that the interval counts from.
    pub offset: Micro,
    /// Levels that are drawn besides.
    pub fixed: MicroList,
    /// The name of the field that gets the level, if one does.
    pub field: Option<Name>,
}

/// A job of `check`: a grid is made, polygonized and burned back.
#[derive(Clone, Copy, Debug, PartialEq, Eq)]
pub struct CheckJob {
    /// The number that the values of the grid are made from.
    pub seed: u32,
    /// The number of columns.
    pub width: u32,
    /// The number of rows.
    pub height: u32,
    /// How many values a cell may have.
    pub values: u32,
    /// The type of the cells.
    pub kind: CellKind,
}

/// What the words ask for.
#[derive(Drop)]
pub enum Job {
    Sieve(SieveJob),
    Polygonize(PolygonizeJob),
    Rasterize(RasterizeJob),
    Contour(ContourJob),
    Check(CheckJob),
}
