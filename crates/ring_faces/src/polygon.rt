// Rings and polygons as lists of corners.
ghost use Rattle.std.specs.Prelude.{◌≡◌, ◌↔◌, ◌++◌, ◌∷◌, [], IfOk, IsTrue, OnErr, OnOk, length, map, option_map, slice_get};

use crate::corners::CornerWalk;
use crate::walk::RingWalk;
use edge_trace::Corner;
use smallvec::SmallVec;
use std::alloc::{AllocError, Global};
use std::marker::Model;

// A ring of so many corners, as most are, lies in its value; a longer one asks for memory.
const INLINE: usize = 4;

/// A ring by its corners in order, of which the first isn't repeated at the end.
#[derive(Debug, Drop)]
pub struct Ring {
    corners: SmallVec<Corner, INLINE>,
}

impl Model for Ring {
    ghost use Rattle.std.specs.Prelude.{map};
    ghost use Rattle.ring_faces.specs.Ring.{Ring as ListOfCorners};

    ghost Value = { ListOfCorners };

    ghost view = { λ ring. map (λ corner. (corner.row, corner.col)) ring.corners.items };
}

impl Ring {
    /// No corner. It takes no memory.
    pub fn new(alloc: Global) -> Ring
        ensures { result ≡ [] }
    {
        Ring {
            corners: SmallVec::new(alloc),
        }
    }

    // These corners.
    pub(crate) fn of(alloc: Global, corners: CornerWalk<'_>) -> Result<Ring, AllocError>
        ensures { IfOk result (λ ring. ring ≡ corners.entry) }
    {
        let mut ring = Ring {
            corners: SmallVec::with_capacity(alloc, corners.len())?,
        };
        'corners: for corner in corners {
            ring.push(corner)?;
        }
        Ok(ring)
    }

    /// Adds a corner at the end. A refusal leaves the list as it was.
    pub fn push(&mut self, corner: Corner) -> Result<(), AllocError>
        ensures ok { OnOk result (self.new ≡ self.old ++ (corner.row, corner.col) ∷ []) }
        ensures err { OnErr result (self.new ≡ self.old) }
    {
        self.corners.push(corner)?;
        Ok(())
    }

    /// The number of corners.
    pub fn len(&self) -> usize
        ensures { result ≡ length self.now }
    {
        self.corners.len()
    }

    /// Whether there is no corner.
    pub fn is_empty(&self) -> bool
        ensures { IsTrue result ↔ (self.now ≡ []) }
    {
        self.corners.is_empty()
    }

    /// The corner at a number, counted from 0; none exactly where there are not so many.
    pub fn get(&self, i: usize) -> Option<&Corner>
        ensures { option_map (λ corner. (corner.now.row, corner.now.col)) result ≡ slice_get self.now i }
    {
        self.corners.as_slice().get(i)
    }

    /// The corners in their order.
    pub fn as_slice(&self) -> &[Corner]
        ensures { map (λ corner. (corner.row, corner.col)) result.now ≡ self.now }
    {
        self.corners.as_slice()
    }
}

/// A list of rings, as the holes of a polygon.
#[derive(Debug, Drop)]
pub struct RingList {
    rings: Vec<Ring>,
}

impl Model for RingList {
    ghost use Rattle.std.specs.Prelude.{List};
    ghost use Rattle.ring_faces.specs.Ring.{Ring as ListOfCorners};

    ghost Value = { List ListOfCorners };

    ghost view = { λ list. list.rings.items };
}

impl RingList {
    /// No ring. It takes no memory.
    pub fn new(alloc: Global) -> RingList
        ensures { result ≡ [] }
    {
        RingList {
            rings: Vec::new(alloc),
        }
    }

    // These rings.
    pub(crate) fn of(alloc: Global, rings: RingWalk<'_>) -> Result<RingList, AllocError>
        ensures { IfOk result (λ list. list ≡ rings.entry) }
    {
        let mut list = RingList::new(alloc);
        for corners in rings {
            let ring = Ring::of(alloc, corners)?;
            list.push(ring)?;
        }
        Ok(list)
    }

    /// Adds a ring at the end. A refusal leaves the list as it was.
    pub fn push(&mut self, ring: Ring) -> Result<(), AllocError>
        ensures ok { OnOk result (self.new ≡ self.old ++ ring ∷ []) }
        ensures err { OnErr result (self.new ≡ self.old) }
    {
        self.rings.push(ring)?;
        Ok(())
    }

    /// The number of rings.
    pub fn len(&self) -> usize
        ensures { result ≡ length self.now }
    {
        self.rings.len()
    }

    /// Whether there is no ring.
    pub fn is_empty(&self) -> bool
        ensures { IsTrue result ↔ (self.now ≡ []) }
    {
        self.rings.is_empty()
    }

    /// The ring at a number, counted from 0; none exactly where there are not so many.
    pub fn get(&self, i: usize) -> Option<&Ring>
        ensures { option_map (λ ring. ring.now) result ≡ slice_get self.now i }
    {
        self.rings.get(i)
    }

    /// The rings in their order.
    pub fn as_slice(&self) -> &[Ring]
        ensures { result.now ≡ self.now }
    {
        self.rings.as_slice()
    }
}

/// A polygon: its shell, and its holes.
#[derive(Debug, Drop)]
pub struct LatticePolygon {
    pub shell: Ring,
    pub holes: RingList,
}
