// Columns of a frame, and edges that lead up.
ghost use Rattle.std.specs.Prelude.{◌<ℤ◌, ◌-ℤ◌, pos};

use wkt_text::Pt;

/// Columns from one on, up to another.
#[derive(Clone, Copy)]
pub(crate) struct Columns {
    pub(crate) from: u32,
    pub(crate) to: u32,
}

/// An edge that leads up, by its ends.
#[derive(Drop)]
pub(crate) struct RisingEdge {
    pub(crate) low: Pt,
    pub(crate) high: Pt,
    ghost up: { pos 0 <ℤ (high.y -ℤ low.y) },
}
