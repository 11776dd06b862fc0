ghost use Rattle.std.specs.Prelude.{◌≡◌, ◌<◌, ◌↔◌, false, true, IfSome, IsSome, Some, length, replicate, set, slice_get};
ghost use Rattle.cell_base.specs.Raster.{Place};
ghost use Rattle.edge_trace.specs.EdgeTable.{IsCellAt, IsFollowedBy};
ghost use Rattle.edge_trace.specs.Walk.{StandsIn};
ghost use Rattle.edge_trace.specs.Inner.Sides.{edge_at};
ghost use Rattle.edge_trace.specs.Inner.Table.{BeginsAt};

use crate::side_numbers::SideNumbers;
use crate::table::{Corner, EdgeTable};
use crate::walk_edge::WalkEdge;
use std::marker::Model;

// What a way has more when a walk passed its edge.
const PASSED: u32 = 1 << 31;

/// The edges of a table while walks pass them, each once.
#[derive(Drop)]
pub struct EdgeWalks {
    sides: SideNumbers,
    // by edge its way in the table, and `PASSED` more once a walk passed the edge: so a walk reads one word an edge
    ways: Vec<u32>,
}

impl Model for EdgeWalks {
    ghost use Rattle.edge_trace.specs.Walk.{EdgeWalks as WalkedTable};
    ghost use Rattle.edge_trace.specs.Inner.Table.{IsTable, unmarked, walks_of};

    ghost Value = { WalkedTable };

    ghost view = { λ walks. walks_of walks.sides.stride walks.sides.numbers.items walks.ways.items };

    ghost invariant = { λ walks.
        IsTable walks.sides.shift walks.sides.stride walks.sides.numbers.items (unmarked walks.ways.items) };
}

// The corner where a side ends that begins at a corner.
#[inline]
fn end_from(start: Corner, side: u32) -> Corner
    requires { BeginsAt side (start.row, start.col) }
    ensures { (cell : Place) → (edge_at cell side).0 ≡ (start.row, start.col)
        → (edge_at cell side).1 ≡ (result.row, result.col) }
{
    // whether it ends at the right of its cell, and whether above: sums, as in `Side::start`
    let right = (side + 1) / 2 % 2;
    let up = side / 2;
    Corner {
        row: start.row + 1 - right - up,
        col: start.col + right - up,
    }
}

impl EdgeWalks {
    /// A table of which no edge was passed yet. It takes no memory.
    pub fn of(table: EdgeTable) -> EdgeWalks
        ensures table { result.table ≡ table }
        ensures none { result.passed ≡ replicate (length table.edges) false }
    {
        let (sides, ways) = table.into_parts();
        EdgeWalks { sides, ways }
    }

    /// The number of edges.
    pub fn count(&self) -> u32
        ensures count { result ≡ length self.now.table.edges }
        ensures sized { length self.now.passed ≡ length self.now.table.edges }
        ensures linked { length self.now.table.next ≡ length self.now.table.edges }
    {
        self.sides.numbers.len() as u32
    }

    /// Whether a walk passed an edge.
    #[inline]
    pub fn is_passed(&self, e: u32) -> bool
        requires { e < length self.now.table.edges }
        ensures { slice_get self.now.passed e ≡ Some result }
    {
        self.ways[e as usize] >= PASSED
    }

    /// The cell on the left of an edge.
    pub fn cell_of(&self, e: u32) -> (u32, u32)
        requires { e < length self.now.table.edges }
        ensures { IsCellAt self.now.table e result }
    {
        let side = self.sides.side_of(e);
        (side.row, side.col)
    }

    /// An edge as a walk begins with it.
    pub fn edge(&self, e: u32) -> WalkEdge
        requires { e < length self.now.table.edges }
        ensures number { result.number ≡ e }
        ensures stands { StandsIn self.now.table result }
    {
        let side = self.sides.side_of(e);
        WalkEdge {
            number: e,
            start: side.start(),
            end: side.end(),
        }
    }

    /// Passes an edge: marks it and tells the one that follows it, or none where it was passed before. It reads one word of the
    /// table.
    #[inline]
    pub fn pass(&mut self, edge: WalkEdge) -> Option<WalkEdge>
        requires { StandsIn self.old.table edge }
        ensures table { self.new.table ≡ self.old.table }
        ensures variant { IsSome result ↔ (slice_get self.old.passed edge.number ≡ Some false) }
        ensures marks { self.new.passed ≡ set self.old.passed edge.number true }
        ensures follows { IfSome result (λ next. IsFollowedBy self.old.table edge.number next.number) }
        ensures stands { IfSome result (λ next. StandsIn self.old.table next) }
    {
        let way = self.ways[edge.number as usize];
        if way >= PASSED {
            return None;
        }
        self.ways[edge.number as usize] = way + PASSED;
        Some(WalkEdge {
            number: way / 4,
            start: edge.end,
            end: end_from(edge.end, way % 4),
        })
    }
}
