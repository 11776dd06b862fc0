// Corners of a grid as numbers of four bytes, half of what a row and a column take.
ghost use Rattle.std.specs.Prelude.{◌≡◌, ◌*◌, ◌+◌, ◌^◌, ◌<◌, ◌≤◌};
ghost use Rattle.cell_base.specs.Raster.{most_cells};
ghost use Rattle.ring_faces.specs.Inner.Lattice.{HasNumber, IsWidth, corner_of};

use edge_trace::Corner;

// How many numbers stand for a row of corners: 2 to the power of the shift, so that no call divides by it.
#[derive(Clone, Copy)]
pub(crate) struct Lattice {
    pub(crate) shift: u32,
    pub(crate) width: u32,
    ghost power: { width ≡ 2 ^ shift },
    ghost short: { shift < 32 },
}

impl Lattice {
    // The numbers of the corners of so many columns.
    pub(crate) fn of(ncols: u32) -> Lattice
        requires some { 0 < ncols }
        requires few { ncols ≤ most_cells }
        ensures { IsWidth ncols result.width }
    {
        let shift = ncols.ilog2() + 1;
        Lattice {
            shift,
            width: 2u32.pow(shift),
        }
    }

    // The number of a corner.
    #[inline]
    pub(crate) fn number(&self, corner: Corner) -> u32
        requires { HasNumber self.now.width (corner.row, corner.col) }
        ensures { corner_of self.now.width result ≡ (corner.row, corner.col) }
    {
        corner.row * self.width + corner.col
    }

    // The corner of a number.
    #[inline]
    pub(crate) fn corner(&self, number: u32) -> Corner
        ensures { (result.row, result.col) ≡ corner_of self.now.width number }
    {
        let row = number >> self.shift;
        Corner {
            row,
            col: number - row * self.width,
        }
    }
}
