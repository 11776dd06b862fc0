// The words of the program, and names among them.
ghost use Rattle.std.specs.Prelude.{◌≡◌, ◌∷◌, ◌++◌, ◌<◌, ◌^◌, [], Some, IfOk, OnErr, OnOk, length, slice_get};
ghost use Rattle.std.specs.Option.{option_copied};

use std::alloc::{AllocError, Global};
use std::marker::Model;

/// The words after the program's name. Contracts see the list of their texts.
#[derive(Drop)]
pub struct Words {
    items: Vec<String>,
}

impl Model for Words {
    ghost use Rattle.std.specs.Prelude.{List, ℕ, map};
    ghost use Rattle.std.specs.String.{string_bytes};

    ghost Value = { List (List ℕ) };

    ghost view = { λ words. map string_bytes words.items.items };
}

impl Words {
    /// No words. It takes no memory.
    pub fn new(alloc: Global) -> Words
        ensures { result ≡ [] }
    {
        Words {
            items: Vec::new(alloc),
        }
    }

    /// Adds a word at the end. The only error is want of memory, and it changes nothing.
    pub fn push(&mut self, word: &str) -> Result<(), AllocError>
        ensures ok { OnOk result (self.new ≡ self.old ++ word.now ∷ []) }
        ensures err { OnErr result (self.new ≡ self.old) }
    {
        let word = String::from_str(*self.items.allocator(), word)?;
        self.items.push(word)?;
        Ok(())
    }

    /// The number of words.
    pub fn len(&self) -> usize
        ensures value { result ≡ length self.now }
        ensures few { result < 2 ^ 63 }
    {
        self.items.len()
    }

    // The word at an index, which there is.
    pub(crate) fn word(&self, i: usize) -> &str
        requires { i < length self.now }
        ensures { slice_get self.now i ≡ Some result.now }
    {
        self.items[i].as_str()
    }

    /// The i-th word, counted from 0; none exactly where there are not so many.
    pub fn get(&self, i: usize) -> Option<&str>
        ensures { option_copied result ≡ slice_get self.now i }
    {
        match self.items.get(i) {
            Some(word) => Some(word.as_str()),
            None => None,
        }
    }
}

/// The name of a file, as it was given. Contracts see its text.
#[derive(Drop)]
pub struct Name {
    text: String,
}

impl Model for Name {
    ghost use Rattle.std.specs.Prelude.{List, ℕ};
    ghost use Rattle.std.specs.String.{string_bytes};

    ghost Value = { List ℕ };

    ghost view = { λ name. string_bytes name.text };
}

impl Name {
    /// A name with this text. The only error is want of memory.
    pub fn of(alloc: Global, text: &str) -> Result<Name, AllocError>
        ensures { IfOk result (λ name. name ≡ text.now) }
    {
        Ok(Name {
            text: String::from_str(alloc, text)?,
        })
    }

    /// The text.
    pub fn as_str(&self) -> &str
        ensures { result.now ≡ self.now }
    {
        self.text.as_str()
    }
}
