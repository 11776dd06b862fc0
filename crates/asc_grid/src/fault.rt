// Why a text has no grid.

/// What is wrong with a grid's text.
#[derive(Clone, Copy, Debug, PartialEq, Eq)]
pub enum GridKind {
    /// A token in a keyword's place isn't a keyword.
    UnknownKeyword,
    /// A keyword of the same group came before.
    RepeatedKeyword,
    /// A keyword that a frame needs didn't come.
    MissingKeyword,
    /// A value is missing, or isn't a number of its group.
    BadNumber,
    /// A coordinate, a cell's size or an edge is past 40,000,000 in size.
    OutOfRange,
    /// So many cells are more than 16,777,216.
    TooLarge(u64),
    /// A token isn't read as a cell.
    BadCell,
    /// The text ends before the last cell.
    TooFewCells,
    /// A token follows the last cell.
    TooManyCells,
}

/// Why a text was not read as a grid.
#[derive(Clone, Copy, Debug, PartialEq, Eq)]
pub enum GridFault {
    /// The text has an offence, on this line, counted from 1.
    At { kind: GridKind, line: u64 },
    /// Memory ran out.
    NoMemory,
}
