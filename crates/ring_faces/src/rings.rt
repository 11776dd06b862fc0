// The rings of cycles, kept in one list of corners.
ghost use Rattle.std.specs.Prelude.{◌≡◌, ◌+◌, ◌<◌, length};
ghost use Rattle.ring_faces.specs.Inner.Chains.{AreInRings, ring_at};

use crate::corners::CornerWalk;
use crate::lattice::Lattice;

// The numbers of the corners of one ring after those of the other, and where those of each begin; the last start is the end.
#[derive(Drop)]
pub(crate) struct RingCorners {
    pub(crate) lattice: Lattice,
    pub(crate) corners: Vec<u32>,
    pub(crate) starts: Vec<usize>,
}

impl RingCorners {
    // The corners of a cycle's ring.
    pub(crate) fn ring(&self, at: usize) -> CornerWalk<'_>
        requires rings { AreInRings self.now.corners.items self.now.starts.items }
        requires at { at + 1 < length self.now.starts.items }
        ensures { result ≡ ring_at self.now at }
    {
        let numbers = &self.corners[self.starts[at]..self.starts[at + 1]];
        CornerWalk::of(self.lattice, numbers)
    }
}
