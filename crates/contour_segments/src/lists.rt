ghost use Rattle.std.specs.Prelude.{◌≡◌, [], ◌∷◌, ◌++◌, OnErr, OnOk, length, option_map, slice_get};

use crate::segment::Segment;
use cell_base::Micro;
use std::alloc::{AllocError, Global};
use std::marker::Model;

/// A list of segments.
#[derive(Drop)]
pub struct SegmentList {
    items: Vec<Segment>,
}

impl Model for SegmentList {
    ghost use Rattle.std.specs.Prelude.{List};
    ghost use Rattle.contour_segments.specs.declared.segment.Segment.{Segment};

    ghost Value = { List Segment };

    ghost view = { λ list. list.items.items };
}

impl SegmentList {
    /// No segment. It takes no memory.
    pub fn new(alloc: Global) -> SegmentList
        ensures { result ≡ [] }
    {
        SegmentList {
            items: Vec::new(alloc),
        }
    }

    // The list of these segments. It takes no memory.
    pub(crate) fn of(items: Vec<Segment>) -> SegmentList
        ensures { result ≡ items.items }
    {
        SegmentList { items }
    }

    /// Adds a segment at the end. The only error is want of memory, and it changes nothing.
    pub fn push(&mut self, item: Segment) -> Result<(), AllocError>
        ensures ok { OnOk result (self.new ≡ self.old ++ item ∷ []) }
        ensures err { OnErr result (self.new ≡ self.old) }
    {
        self.items.push(item)?;
        Ok(())
    }

    /// How many segments there are.
    pub fn len(&self) -> usize
        ensures { result ≡ length self.now }
    {
        self.items.len()
    }

    /// The i-th segment, counted from 0; none exactly where there are not so many.
    pub fn get(&self, i: usize) -> Option<&Segment>
        ensures { option_map (λ item. item.now) result ≡ slice_get self.now i }
    {
        self.items.get(i)
    }

    /// All segments.
    pub fn as_slice(&self) -> &[Segment]
        ensures { result.now ≡ self.now }
    {
        self.items.as_slice()
    }
}

/// A list of levels. Contracts see their units of 10^-6.
#[derive(Drop)]
pub struct LevelList {
    items: Vec<Micro>,
}

impl Model for LevelList {
    ghost use Rattle.std.specs.Prelude.{List, ℤ};

    ghost Value = { List ℤ };

    ghost view = { λ list. list.items.items };
}

impl LevelList {
    /// No level. It takes no memory.
    pub fn new(alloc: Global) -> LevelList
        ensures { result ≡ [] }
    {
        LevelList {
            items: Vec::new(alloc),
        }
    }

    // The list of these levels. It takes no memory.
    pub(crate) fn of(items: Vec<Micro>) -> LevelList
        ensures { result ≡ items.items }
    {
        LevelList { items }
    }

    /// Adds a level at the end. The only error is want of memory, and it changes nothing.
    pub fn push(&mut self, item: Micro) -> Result<(), AllocError>
        ensures ok { OnOk result (self.new ≡ self.old ++ item ∷ []) }
        ensures err { OnErr result (self.new ≡ self.old) }
    {
        self.items.push(item)?;
        Ok(())
    }

    /// How many levels there are.
    pub fn len(&self) -> usize
        ensures { result ≡ length self.now }
    {
        self.items.len()
    }

    /// The i-th level, counted from 0; none exactly where there are not so many.
    pub fn get(&self, i: usize) -> Option<&Micro>
        ensures { option_map (λ item. item.now) result ≡ slice_get self.now i }
    {
        self.items.get(i)
    }

    /// All levels.
    pub fn as_slice(&self) -> &[Micro]
        ensures { result.now ≡ self.now }
    {
        self.items.as_slice()
    }
}
