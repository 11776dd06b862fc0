// A piece of the words: an option with its values, or a name.
ghost use Rattle.std.specs.Prelude.{◌≡◌, ◌<◌, Err, IfErr, IfOk, Ok, length};
ghost use Rattle.tool_words.specs.Value.{cell_kind, coordinate, count_from_one, count_of, decimal_of, field_name};
ghost use Rattle.tool_words.specs.Value.{positive_coordinate, positive_decimal, whole_value};
ghost use Rattle.tool_words.specs.Words.{is_option};
ghost use Rattle.tool_words.specs.Grammar.{value_at};
ghost use Rattle.tool_words.specs.Inner.Read.{bad_value, is_only, piece_in, read_at};

use crate::fault::{WordFault, WordKind};
use crate::value;
use crate::words::Words;
use cell_base::{CellKind, Micro};
use fixed_coord::Coord;
use std::marker::Model;

/// A minus and at least one byte more.
pub(crate) fn is_option(word: &str) -> bool
    ensures { result ≡ is_option word.now }
{
    let bytes = word.as_bytes();
    bytes.len() >= 2 && bytes[0] == b'-'
}

// A word, and so many words behind it as its values. Contracts see the piece.
#[derive(Drop)]
pub(crate) struct Piece<'w> {
    pub(crate) words: &'w Words,
    pub(crate) at: usize,
    pub(crate) count: usize,
}

impl<'w> Model for Piece<'w> {
    ghost use Rattle.tool_words.specs.Grammar.{Piece};
    ghost use Rattle.tool_words.specs.Inner.Read.{IsWithin, piece_in};

    ghost Value = { Piece };

    ghost view = { λ piece. piece_in piece.words.now piece.at piece.count };

    ghost invariant = { λ piece. IsWithin piece.words.now piece.at piece.count };
}

impl<'w> Piece<'w> {
    // The word itself.
    pub(crate) fn word(&self) -> &'w str
        ensures { result.now ≡ self.now.word }
    {
        self.words.word(self.at)
    }

    // How many values there are.
    pub(crate) fn len(&self) -> usize
        ensures { result ≡ length self.now.values }
    {
        self.count
    }

    // A value by its number, which counts from 0.
    pub(crate) fn value(&self, i: usize) -> &'w str
        requires { i < length self.now.values }
        ensures { result.now ≡ value_at self.now i }
    {
        self.words.word(self.at + 1 + i)
    }

    // The fault of the word itself.
    pub(crate) fn fault(&self, kind: WordKind) -> WordFault
        ensures { result ≡ WordFault.At kind self.now.place }
    {
        WordFault::At {
            kind,
            place: self.at as u64 + 1,
        }
    }

    // Says that a value isn't in its form.
    fn bad(&self, i: usize) -> WordFault
        requires { i < length self.now.values }
        ensures { result ≡ bad_value self.now i }
    {
        WordFault::At {
            kind: WordKind::BadValue,
            place: (self.at + i) as u64 + 2,
        }
    }

    pub(crate) fn count(&self, i: usize) -> Result<u32, WordFault>
        requires { i < length self.now.values }
        ensures { result ≡ read_at count_of self.now i }
    {
        value::count(self.value(i)).ok_or(self.bad(i))
    }

    pub(crate) fn size(&self, i: usize) -> Result<u32, WordFault>
        requires { i < length self.now.values }
        ensures { result ≡ read_at count_from_one self.now i }
    {
        value::size(self.value(i)).ok_or(self.bad(i))
    }

    pub(crate) fn coord(&self, i: usize) -> Result<Coord, WordFault>
        requires { i < length self.now.values }
        ensures { result ≡ read_at coordinate self.now i }
    {
        value::coord(self.value(i)).ok_or(self.bad(i))
    }

    pub(crate) fn resolution(&self, i: usize) -> Result<Coord, WordFault>
        requires { i < length self.now.values }
        ensures { result ≡ read_at positive_coordinate self.now i }
    {
        value::resolution(self.value(i)).ok_or(self.bad(i))
    }

    pub(crate) fn decimal(&self, i: usize) -> Result<Micro, WordFault>
        requires { i < length self.now.values }
        ensures { result ≡ read_at decimal_of self.now i }
    {
        value::decimal(self.value(i)).ok_or(self.bad(i))
    }

    pub(crate) fn interval(&self, i: usize) -> Result<Micro, WordFault>
        requires { i < length self.now.values }
        ensures { result ≡ read_at positive_decimal self.now i }
    {
        value::interval(self.value(i)).ok_or(self.bad(i))
    }

    pub(crate) fn number(&self, i: usize) -> Result<i64, WordFault>
        requires { i < length self.now.values }
        ensures { result ≡ read_at whole_value self.now i }
    {
        value::number(self.value(i)).ok_or(self.bad(i))
    }

    pub(crate) fn kind(&self, i: usize) -> Result<CellKind, WordFault>
        requires { i < length self.now.values }
        ensures { result ≡ read_at cell_kind self.now i }
    {
        value::kind(self.value(i)).ok_or(self.bad(i))
    }

    // A field's name, which isn't WKT.
    pub(crate) fn field(&self, i: usize) -> Result<&'w str, WordFault>
        requires { i < length self.now.values }
        ensures ok { IfOk result (λ name. read_at field_name self.now i ≡ Ok name.now) }
        ensures err { IfErr result (λ fault. read_at field_name self.now i ≡ Err fault) }
    {
        let name = self.value(i);
        if value::is_field(name) {
            Ok(name)
        } else {
            Err(self.bad(i))
        }
    }

    // One word alone, which changes nothing.
    pub(crate) fn only(&self, i: usize, expected: &str) -> Result<(), WordFault>
        requires { i < length self.now.values }
        ensures { result ≡ read_at (is_only expected.now) self.now i }
    {
        if self.value(i).eq_ignore_ascii_case(expected) {
            Ok(())
        } else {
            Err(self.bad(i))
        }
    }
}
