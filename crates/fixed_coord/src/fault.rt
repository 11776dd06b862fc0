/// Why a text isn't read as a number.
#[derive(Clone, Copy, Debug, PartialEq, Eq)]
pub enum NumberFault {
    /// It isn't a number text.
    NotNumber,
    /// Its value isn't whole.
    NotWhole,
    /// Its value is outside the range.
    OutOfRange,
}
