ghost use Rattle.std.specs.Prelude.{◌≡◌, ◌^◌, ◌<◌, ◌≤◌, IfOk, length};
ghost use Rattle.cell_base.specs.Raster.{most_cells};
ghost use Rattle.edge_trace.specs.Edge.{Corner as Point, Edge, is_level};
ghost use Rattle.edge_trace.specs.EdgeOrder.{AreInOrder};
ghost use Rattle.edge_trace.specs.EdgeTable.{IsCellAt, IsEdgeAt, IsEdgeTable, IsFollowedBy};
ghost use Rattle.edge_trace.specs.Inner.Table.{IsPower, IsTable, table_of};

use crate::links::links;
use crate::side_numbers::{Side, SideNumbers};
use crate::sides::Sides;
use region_label::Regions;
use std::alloc::{AllocError, Global};
use std::marker::Model;

/// A point of the lattice of cell corners: the cell (r, c) lies between the corners (r, c) and (r + 1, c + 1).
#[derive(Clone, Copy, Debug, Default, PartialEq, Eq)]
pub struct Corner {
    pub row: u32,
    pub col: u32,
}

/// The boundary edges of all components of a grid, and with each the one that follows it.
#[derive(Drop)]
pub struct EdgeTable {
    sides: SideNumbers,
    // by edge 4 times the number of its follower, and the side that the follower runs along: a walk reads nothing else
    ways: Vec<u32>,
}

impl Model for EdgeTable {
    ghost use Rattle.edge_trace.specs.EdgeTable.{EdgeTable as TableOfEdges};
    ghost use Rattle.edge_trace.specs.Inner.Table.{IsTable, table_of};

    ghost Value = { TableOfEdges };

    ghost view = { λ table. table_of table.sides.stride table.sides.numbers.items table.ways.items };

    ghost invariant = { λ table. IsTable table.sides.shift table.sides.stride table.sides.numbers.items table.ways.items };
}

// A power of two, and how many times two it is.
#[derive(Clone, Copy)]
pub(crate) struct Stride {
    pub(crate) shift: u32,
    pub(crate) stride: u32,
}

// The least power of two that leaves room beside so many columns.
fn stride_for(ncols: u32) -> Stride
    requires { ncols ≤ most_cells }
    ensures { IsPower ncols result }
{
    let mut stride = 1;
    let mut shift = 0;
    while stride < ncols + 2 {
        stride *= 2;
        shift += 1;
    }
    Stride { shift, stride }
}

impl EdgeTable {
    /// The boundary edges of all components, each once, by the cells on their left. The only error is want of memory.
    pub fn build(alloc: Global, regions: &Regions) -> Result<EdgeTable, AllocError>
        ensures table { IfOk result (IsEdgeTable regions.now) }
        ensures order { IfOk result AreInOrder }
    {
        let table = regions.table();
        let Stride { shift, stride } = stride_for(regions.ncols());
        let sides = Sides::find(alloc, regions, table, stride)?;
        let ways = links(alloc, &sides, stride, table.nrows())?;
        Ok(EdgeTable {
            sides: SideNumbers {
                shift,
                stride,
                numbers: sides.numbers,
            },
            ways,
        })
    }

    /// The number of edges.
    pub fn count(&self) -> u32
        ensures { result ≡ length self.now.edges }
    {
        self.sides.numbers.len() as u32
    }

    /// The corner where an edge begins.
    pub fn start(&self, e: u32) -> Corner
        requires { e < length self.now.edges }
        ensures { (end : Point) × IsEdgeAt self.now e ((result.row, result.col), end) }
    {
        self.sides.side_of(e).start()
    }

    /// The corner where an edge ends.
    pub fn end(&self, e: u32) -> Corner
        requires { e < length self.now.edges }
        ensures { (start : Point) × IsEdgeAt self.now e (start, (result.row, result.col)) }
    {
        self.sides.side_of(e).end()
    }

    /// Whether an edge runs along a row.
    pub fn is_level(&self, e: u32) -> bool
        requires { e < length self.now.edges }
        ensures { (edge : Edge) × IsEdgeAt self.now e edge × (result ≡ is_level edge) }
    {
        // along the lower side, 1, or the upper, 3
        self.sides.numbers[e as usize] % 2 == 1
    }

    /// The cell on the left of an edge.
    pub fn cell_of(&self, e: u32) -> (u32, u32)
        requires { e < length self.now.edges }
        ensures { IsCellAt self.now e result }
    {
        let Side { row, col, .. } = self.sides.side_of(e);
        (row, col)
    }

    /// The edge that follows an edge.
    pub fn next(&self, e: u32) -> u32
        requires { e < length self.now.edges }
        ensures { IsFollowedBy self.now e result }
    {
        self.ways[e as usize] / 4
    }

    // The sides that the edges run along, and by edge the way to its follower.
    pub(crate) fn into_parts(self) -> (SideNumbers, Vec<u32>)
        ensures table { self ≡ table_of result.0.stride result.0.numbers.items result.1.items }
        ensures kept { IsTable result.0.shift result.0.stride result.0.numbers.items result.1.items }
    {
        (self.sides, self.ways)
    }
}
