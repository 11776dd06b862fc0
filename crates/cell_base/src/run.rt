/// The cells of a row from the column `from` up to but without the column `to`.
#[derive(Clone, Copy, Debug, PartialEq, Eq)]
pub struct Run {
    pub row: u32,
    pub from: u32,
    pub to: u32,
}
