/// Why numbers make no frame. Of several the first in this order is the answer.
#[derive(Clone, Copy, Debug, PartialEq, Eq)]
pub enum FrameFault {
    /// There are no columns or no rows, or the extent has no width or no height.
    BadSize,
    /// There are more than 16,777,216 cells: so many.
    TooLarge(u128),
    /// The cells have no width or no height.
    BadCell,
    /// The cells aren't square.
    NotSquare,
    /// The cells' size or an edge is past 40,000,000 in size.
    OutOfRange,
}
