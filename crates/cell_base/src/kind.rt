/// A whole type of cells.
#[derive(Clone, Copy, Debug, PartialEq, Eq)]
pub enum CellKind {
    /// From 0 to 255.
    Byte,
    /// Signed, of 16 bits.
    Int16,
    /// Signed, of 32 bits.
    Int32,
    /// Signed, of 64 bits.
    Int64,
}
