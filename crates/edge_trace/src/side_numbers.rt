// The sides of cells that edges run along, as numbers.
ghost use Rattle.std.specs.Prelude.{◌≡◌, ◌<◌, Some, length, map, slice_get};
ghost use Rattle.edge_trace.specs.Inner.Sides.{cell_of, edge_at, edge_of};
ghost use Rattle.edge_trace.specs.Inner.Table.{AreSideNumbers, IsLowSide};

use crate::table::Corner;

// By edge the side of a cell that it runs along, cell and side as one number: there can be 67 million edges.
#[derive(Drop)]
pub(crate) struct SideNumbers {
    // the stride of the numbers is 2 to this power, so that no call divides by it
    pub(crate) shift: u32,
    pub(crate) stride: u32,
    pub(crate) numbers: Vec<u32>,
}

// A side of a cell: 0 its left, 1 its lower, 2 its right and 3 its upper one.
#[derive(Clone, Copy)]
pub(crate) struct Side {
    pub(crate) row: u32,
    pub(crate) col: u32,
    pub(crate) side: u32,
}

impl SideNumbers {
    // The side that an edge runs along.
    pub(crate) fn side_of(&self, e: u32) -> Side
        requires numbers { AreSideNumbers self.now.shift self.now.stride self.now.numbers.items }
        requires e { e < length self.now.numbers.items }
        ensures cell { slice_get (map (cell_of self.now.stride) self.now.numbers.items) e ≡ Some (result.row, result.col) }
        ensures edge { slice_get (map (edge_of self.now.stride) self.now.numbers.items) e
            ≡ Some (edge_at (result.row, result.col) result.side) }
        ensures low { IsLowSide result }
    {
        let number = self.numbers[e as usize];
        let cell = number / 4;
        let row = cell >> self.shift;
        let col = cell - row * self.stride;
        Side {
            row: row - 1,
            col: col - 1,
            side: number % 4,
        }
    }
}

impl Side {
    // The corner where an edge along it begins.
    pub(crate) fn start(self) -> Corner
        requires { IsLowSide self }
        ensures { (edge_at (self.row, self.col) self.side).0 ≡ (result.row, result.col) }
    {
        // a sum costs less than a jump by the side
        Corner {
            row: self.row + (self.side + 1) / 2 % 2,
            col: self.col + self.side / 2,
        }
    }

    // The corner where an edge along it ends.
    pub(crate) fn end(self) -> Corner
        requires { IsLowSide self }
        ensures { (edge_at (self.row, self.col) self.side).1 ≡ (result.row, result.col) }
    {
        Corner {
            row: self.row + 1 - self.side / 2,
            col: self.col + (self.side + 1) / 2 % 2,
        }
    }
}
