// The limits of numbers and grids, each named once.

/// The most cells that a grid may have.
pub const MOST_CELLS: u32 = 16_777_216;

/// No coordinate and no cell's size is more than this in size.
pub const MOST_COORDINATE: u32 = 40_000_000;

// How many decimals a coordinate has.
pub(crate) const COORD_PLACES: u32 = 10;

/// The greatest coordinate in units.
pub const FARTHEST: i64 = MOST_COORDINATE as i64 * 10_000_000_000;

// No number is read as more than this in size.
pub(crate) const LARGEST: u128 = 1_000_000_000_000_000_000_000_000_000_000;
