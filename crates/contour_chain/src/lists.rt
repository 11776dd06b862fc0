ghost use Rattle.std.specs.Prelude.{◌≡◌, [], ◌∷◌, ◌++◌, OnErr, OnOk, length, option_map, slice_get};

use contour_segments::Segment;
use std::alloc::{AllocError, Global};
use std::marker::Model;

/// A contour line: a list of segments.
#[derive(Drop)]
pub struct Line {
    items: Vec<Segment>,
}

impl Model for Line {
    ghost use Rattle.std.specs.Prelude.{List};
    ghost use Rattle.contour_segments.specs.declared.segment.Segment.{Segment};

    ghost Value = { List Segment };

    ghost view = { λ line. line.items.items };
}

impl Line {
    /// No segment. It takes no memory.
    pub fn new(alloc: Global) -> Line
        ensures { result ≡ [] }
    {
        Line {
            items: Vec::new(alloc),
        }
    }

    /// Adds a segment at the end. The only error is want of memory, and it changes nothing.
    pub fn push(&mut self, item: Segment) -> Result<(), AllocError>
        ensures ok { OnOk result (self.new ≡ self.old ++ item ∷ []) }
        ensures err { OnErr result (self.new ≡ self.old) }
    {
        self.items.push(item)?;
        Ok(())
    }

    /// How many segments there are.
    pub fn len(&self) -> usize
        ensures { result ≡ length self.now }
    {
        self.items.len()
    }

    /// The i-th segment, counted from 0; none exactly where there are not so many.
    pub fn get(&self, i: usize) -> Option<&Segment>
        ensures { option_map (λ item. item.now) result ≡ slice_get self.now i }
    {
        self.items.get(i)
    }

    /// All segments.
    pub fn as_slice(&self) -> &[Segment]
        ensures { result.now ≡ self.now }
    {
        self.items.as_slice()
    }
}

/// A list of contour lines.
#[derive(Drop)]
pub struct Lines {
    items: Vec<Line>,
}

impl Model for Lines {
    ghost use Rattle.std.specs.Prelude.{List};
    ghost use Rattle.contour_segments.specs.declared.segment.Segment.{Segment};

    ghost Value = { List (List Segment) };

    ghost view = { λ lines. lines.items.items };
}

impl Lines {
    /// No line. It takes no memory.
    pub fn new(alloc: Global) -> Lines
        ensures { result ≡ [] }
    {
        Lines {
            items: Vec::new(alloc),
        }
    }

    /// Adds a line at the end. The only error is want of memory, and it changes nothing.
    pub fn push(&mut self, item: Line) -> Result<(), AllocError>
        ensures ok { OnOk result (self.new ≡ self.old ++ item ∷ []) }
        ensures err { OnErr result (self.new ≡ self.old) }
    {
        self.items.push(item)?;
        Ok(())
    }

    /// How many lines there are.
    pub fn len(&self) -> usize
        ensures { result ≡ length self.now }
    {
        self.items.len()
    }

    /// The i-th line, counted from 0; none exactly where there are not so many.
    pub fn get(&self, i: usize) -> Option<&Line>
        ensures { option_map (λ item. item.now) result ≡ slice_get self.now i }
    {
        self.items.get(i)
    }

    /// All lines.
    pub fn as_slice(&self) -> &[Line]
        ensures { result.now ≡ self.now }
    {
        self.items.as_slice()
    }
}
