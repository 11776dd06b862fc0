ghost use Rattle.std.specs.Prelude.{◌≡◌, length};
ghost use Rattle.ring_faces.specs.Inner.Lattice.{corners_of};

use crate::lattice::Lattice;
use edge_trace::Corner;
use std::marker::Model;

/// The corners of a ring one by one. Contracts see those that are left.
#[derive(Drop)]
pub struct CornerWalk<'a> {
    lattice: Lattice,
    numbers: &'a [u32],
}

impl<'a> Model for CornerWalk<'a> {
    ghost use Rattle.ring_faces.specs.Ring.{Ring};
    ghost use Rattle.ring_faces.specs.Inner.Lattice.{corners_of};

    ghost Value = { Ring };

    ghost view = { λ walk. corners_of walk.lattice.width walk.numbers.now };
}

impl<'a> CornerWalk<'a> {
    // The corners of these numbers.
    pub(crate) fn of(lattice: Lattice, numbers: &'a [u32]) -> CornerWalk<'a>
        ensures { result ≡ corners_of lattice.width numbers.now }
    {
        CornerWalk { lattice, numbers }
    }

    /// The number of corners that are left.
    pub fn len(&self) -> usize
        ensures { result ≡ length self.now }
    {
        self.numbers.len()
    }
}

impl<'a> Iterator for CornerWalk<'a> {
    type Item = Corner;

    ghost use Rattle.std.specs.Iterator.{YieldsFirstBy, item_count};

    ghost next_gives = { YieldsFirstBy (λ corner. (corner.row, corner.col)) (λ rest. rest) };

    ghost remaining = { item_count (λ rest. rest) };

    fn next(&mut self) -> Option<Corner> {
        let (number, rest) = self.numbers.split_first()?;
        self.numbers = rest;
        Some(self.lattice.corner(*number))
    }
}
