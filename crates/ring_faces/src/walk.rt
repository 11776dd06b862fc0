ghost use Rattle.std.specs.Prelude.{◌≡◌};
ghost use Rattle.ring_faces.specs.Inner.Chains.{AreLinkedRings, ring_at, rings_from};

use crate::corners::CornerWalk;
use crate::rings::RingCorners;
use std::marker::Model;

/// The rings of a polygon one by one, each by its corners. Contracts see those that are left.
#[derive(Drop)]
pub struct RingWalk<'a> {
    rings: &'a RingCorners,
    links: &'a [u32],
    // past the links where no ring is left
    next: u32,
}

impl<'a> Model for RingWalk<'a> {
    ghost use Rattle.std.specs.Prelude.{List};
    ghost use Rattle.ring_faces.specs.Ring.{Ring};
    ghost use Rattle.ring_faces.specs.Inner.Chains.{AreLinkedRings, ring_at, rings_from};

    ghost Value = { List Ring };

    ghost view = { λ walk. rings_from (ring_at walk.rings.now) walk.links.now walk.next };

    ghost invariant = { λ walk. AreLinkedRings walk.rings.now walk.links.now };
}

impl<'a> RingWalk<'a> {
    // The rings of the cycles that are linked from one on.
    pub(crate) fn from(rings: &'a RingCorners, links: &'a [u32], first: u32) -> RingWalk<'a>
        requires { AreLinkedRings rings.now links.now }
        ensures { result ≡ rings_from (ring_at rings.now) links.now first }
    {
        RingWalk {
            rings,
            links,
            next: first,
        }
    }
}

impl<'a> Iterator for RingWalk<'a> {
    type Item = CornerWalk<'a>;

    ghost use Rattle.std.specs.Iterator.{YieldsFirstBy, item_count};

    ghost next_gives = { YieldsFirstBy (λ corners. corners) (λ rest. rest) };

    ghost remaining = { item_count (λ rest. rest) };

    fn next(&mut self) -> Option<CornerWalk<'a>> {
        let at = self.next as usize;
        if at >= self.links.len() {
            return None;
        }
        self.next = self.links[at];
        Some(self.rings.ring(at))
    }
}
