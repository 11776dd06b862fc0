// The names among the words.
ghost use Rattle.std.specs.Prelude.{◌≡◌, ◌∷◌, ◌++◌, ◌<◌, [], IfOk, length, slice_get, unwrap_or};
ghost use Rattle.std.specs.Option.{option_copied};

use crate::words::Name;
use std::alloc::{AllocError, Global};
use std::marker::Model;

// The names that were read, in their order. Contracts see their texts.
#[derive(Drop)]
pub(crate) struct Names<'w> {
    names: [&'w str; 4],
    count: usize,
}

impl<'w> Model for Names<'w> {
    ghost use Rattle.std.specs.Prelude.{◌≤◌, List, map, take};
    ghost use Rattle.tool_words.specs.Words.{Text};

    ghost Value = { List Text };

    ghost view = { λ names. take names.count (map (λ name. name.now) names.names) };

    ghost invariant = { λ names. names.count ≤ 4 };
}

impl<'w> Names<'w> {
    // No name.
    pub(crate) fn new() -> Names<'w>
        ensures { result ≡ [] }
    {
        Names {
            names: [""; 4],
            count: 0,
        }
    }

    // Adds a name.
    pub(crate) fn push(&mut self, name: &'w str)
        requires { length self.old < 4 }
        ensures { self.new ≡ self.old ++ name.now ∷ [] }
    {
        self.names[self.count] = name;
        self.count += 1;
    }

    pub(crate) fn len(&self) -> usize
        ensures { result ≡ length self.now }
    {
        self.count
    }

    // The name of a number, which counts from 0.
    pub(crate) fn get(&self, i: usize) -> Option<&'w str>
        ensures { option_copied result ≡ slice_get self.now i }
    {
        if i < self.count {
            Some(self.names[i])
        } else {
            None
        }
    }

    // The text of the name of a number; an empty one where there are not so many.
    pub(crate) fn text(&self, i: usize) -> &'w str
        ensures { result.now ≡ unwrap_or (slice_get self.now i) [] }
    {
        self.get(i).unwrap_or("")
    }

    // The name of a number as a name of its own; an empty one where there are not so many.
    pub(crate) fn copied(&self, alloc: Global, i: usize) -> Result<Name, AllocError>
        ensures { IfOk result (λ name. name ≡ unwrap_or (slice_get self.now i) []) }
    {
        Name::of(alloc, self.text(i))
    }
}
