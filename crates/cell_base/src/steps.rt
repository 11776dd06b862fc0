ghost use Rattle.std.specs.Prelude.{◌≡◌, ◌<◌, ◌≤◌, IfSome, IfNone};
ghost use Rattle.cell_base.specs.Raster.{Place, most_cells};
ghost use Rattle.cell_base.specs.Steps.{IsNeighbour, step_count, step_reach};

/// The steps from a cell to its neighbours: the four that share a side with it, and with EIGHT
/// the four that share a corner alone besides.
pub struct Steps<const EIGHT: bool>;

impl<const EIGHT: bool> Steps<EIGHT> {
    /// The number of steps.
    pub fn count() -> u32
        ensures { result ≡ step_count EIGHT }
    {
        if EIGHT { 8 } else { 4 }
    }

    /// How many columns a step to another row may lead sideways: one with EIGHT, and else none.
    pub fn reach() -> u32
        ensures { result ≡ step_reach EIGHT }
    {
        if EIGHT { 1 } else { 0 }
    }

    /// The cell that a step leads to, in the order up, left, right, down, up-left, up-right,
    /// down-left, down-right. None exactly where it is outside the grid.
    pub fn at(row: u32, col: u32, ncols: u32, nrows: u32, k: u32) -> Option<(u32, u32)>
        requires row { row < nrows }
        requires col { col < ncols }
        requires cols { ncols ≤ most_cells }
        requires rows { nrows ≤ most_cells }
        requires k { k < step_count EIGHT }
        ensures inside { IfSome result (λ to. (to.0 < nrows) × (to.1 < ncols)) }
        ensures step { IfSome result (λ to. IsNeighbour k (row, col) to) }
        ensures none { IfNone result
            ((to : Place) → to.0 < nrows → to.1 < ncols → ¬ IsNeighbour k (row, col) to) }
    {
        let up = row > 0;
        let left = col > 0;
        let right = col + 1 < ncols;
        let down = row + 1 < nrows;
        match k {
            0 => if up { Some((row - 1, col)) } else { None },
            1 => if left { Some((row, col - 1)) } else { None },
            2 => if right { Some((row, col + 1)) } else { None },
            3 => if down { Some((row + 1, col)) } else { None },
            4 => if up && left {
                Some((row - 1, col - 1))
            } else {
                None
            },
            5 => if up && right {
                Some((row - 1, col + 1))
            } else {
                None
            },
            6 => if down && left {
                Some((row + 1, col - 1))
            } else {
                None
            },
            _ => if down && right {
                Some((row + 1, col + 1))
            } else {
                None
            },
        }
    }
}
