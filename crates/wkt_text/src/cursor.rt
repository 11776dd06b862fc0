// What is left of a text, token by token.
ghost use Rattle.std.specs.Prelude.{◌≡◌, ◌+◌, ◌<◌, ◌≤◌, ◌↔◌, IfNone, IfSome, IsTrue, [], drop, false, length, true};
ghost use Rattle.std.specs.Bool.{OnFalse, OnTrue};
ghost use Rattle.std.specs.Option.{is_some};
ghost use Rattle.fixed_coord.specs.Number.{parts_of};
ghost use Rattle.wkt_text.specs.Geometry.{is_closed};
ghost use Rattle.wkt_text.specs.Grammar.{coordinate, empty_word, kind, no_third, ring_end};
ghost use Rattle.wkt_text.specs.Inner.Cursor.{HasFirstWord, HasSameTokens, Lacks, NoWord};
ghost use Rattle.wkt_text.specs.Inner.Cursor.{Reads, StandsFirst, Takes, begins_with_blank};
ghost use Rattle.wkt_text.specs.Parser.{closing, opening};
ghost use Rattle.wkt_text.specs.Tokens.{begins_with_word, first_offset, is_blank, is_letter, is_mark, tokens_of};

use crate::fault::{Refusal, WktKind};
use crate::geometry::{Path, Pt};
use crate::kind::{Kind, is_dimension, kind_of};
use fixed_coord::{Coord, NumberFault, scaled};
use std::marker::Model;

/// What is left of a text. Contracts see the tokens, and the offset behind the text.
#[derive(Drop)]
pub(crate) struct Cursor<'a> {
    left: &'a [u8],
    end: u64,
}

impl<'a> Model for Cursor<'a> {
    ghost use Rattle.std.specs.Prelude.{◌<◌, length};
    ghost use Rattle.wkt_text.specs.Inner.Cursor.{Left, last_tokens};

    ghost Value = { Left };

    ghost view = { λ c. record { end = c.end; tokens = last_tokens c.end c.left.now } };

    ghost invariant = { λ c. length c.left.now < c.end };
}

/// Whether a byte may stand between tokens: one of the bytes 9 to 13, or a space.
pub fn is_blank(byte: u8) -> bool
    ensures { result ≡ is_blank byte }
{
    matches!(byte, 9..=13 | b' ')
}

fn is_letter(byte: u8) -> bool
    ensures { result ≡ is_letter byte }
{
    !is_blank(byte) && !matches!(byte, b'(' | b')' | b',')
}

fn is_number(word: &[u8]) -> bool
    ensures { result ≡ is_some (parts_of word.now) }
{
    scaled(word, 0).is_ok()
}

// Whether the last point equals the first.
fn is_closed(points: &[Pt]) -> bool
    ensures { result ≡ is_closed points.now }
{
    match points {
        [] => false,
        [_] => true,
        [first, .., last] => first == last,
    }
}

// How many blank bytes come first.
fn blanks(text: &[u8]) -> usize
    ensures within { result ≤ length text.now }
    ensures same { HasSameTokens text.now (drop result text.now) }
    ensures solid { begins_with_blank (drop result text.now) ≡ false }
{
    for (at, byte) in text.iter().enumerate() {
        if !is_blank(*byte) {
            return at;
        }
    }
    text.len()
}

// How long the word is that the text begins with.
fn word_len(text: &[u8]) -> usize
    ensures within { result ≤ length text.now }
    ensures none { result ≡ 0 → begins_with_word text.now ≡ false }
    ensures word { 0 < result → HasFirstWord text.now result }
{
    for (at, byte) in text.iter().enumerate() {
        if !is_letter(*byte) {
            return at;
        }
    }
    text.len()
}

// The text behind the blanks that it begins with.
fn behind_blanks(text: &[u8]) -> &[u8]
    ensures within { length result.now ≤ length text.now }
    ensures same { HasSameTokens text.now result.now }
    ensures solid { begins_with_blank result.now ≡ false }
{
    &text[blanks(text)..]
}

impl<'a> Cursor<'a> {
    /// All of a text.
    pub(crate) fn of(text: &'a [u8]) -> Cursor<'a>
        ensures end { result.end ≡ length text.now + 1 }
        ensures tokens { result.tokens ≡ tokens_of text.now }
    {
        Cursor {
            left: text,
            end: text.len() as u64 + 1,
        }
    }

    // The word that comes next, and the text behind it.
    fn next_word(&self) -> Option<(&'a [u8], &'a [u8])>
        ensures within { IfSome result (λ found. length found.1.now < self.now.end) }
        ensures word { IfSome result (λ found. StandsFirst self.now found.0.now found.1.now) }
        ensures none { IfNone result (NoWord self.now.tokens) }
    {
        let text = behind_blanks(self.left);
        let (word, rest) = text.split_at(word_len(text));
        if word.is_empty() {
            None
        } else {
            Some((word, rest))
        }
    }

    /// The number of the next token's first byte, counted from 1, or one more than the text's length where there
    /// is none.
    pub(crate) fn offset(&self) -> u64
        ensures { result ≡ first_offset self.now.end self.now.tokens }
    {
        self.end - behind_blanks(self.left).len() as u64
    }

    /// Takes a mark, if it comes next.
    pub(crate) fn take_mark(&mut self, mark: u8) -> bool
        requires { is_mark mark ≡ true }
        ensures same_end { self.new.end ≡ self.old.end }
        ensures taken { OnTrue result (Takes mark self.old.tokens self.new.tokens) }
        ensures other { OnFalse result (Lacks mark self.old.tokens) }
        ensures unmoved { OnFalse result (self.new.tokens ≡ self.old.tokens) }
    {
        match behind_blanks(self.left) {
            [first, rest @ ..] if *first == mark => {
                self.left = rest;
                true
            }
            _ => false,
        }
    }

    /// Takes an opening parenthesis.
    pub(crate) fn opening(&mut self) -> Result<(), Refusal>
        ensures { Reads opening self.old self.new result }
    {
        if self.take_mark(b'(') {
            Ok(())
        } else {
            Err(Refusal::Offence(WktKind::Syntax))
        }
    }

    /// Takes a closing parenthesis.
    pub(crate) fn closing(&mut self) -> Result<(), Refusal>
        ensures { Reads closing self.old self.new result }
    {
        if self.take_mark(b')') {
            Ok(())
        } else {
            Err(Refusal::Offence(WktKind::Syntax))
        }
    }

    /// Takes a ring's closing parenthesis, behind these points.
    pub(crate) fn ring_end(&mut self, points: Path) -> Result<Path, Refusal>
        ensures { Reads (ring_end points) self.old self.new result }
    {
        let before = self.left;
        self.closing()?;
        if points.len() < 4 {
            self.left = before;
            return Err(Refusal::Offence(WktKind::ShortRing));
        }
        if !is_closed(points.as_slice()) {
            self.left = before;
            return Err(Refusal::Offence(WktKind::OpenRing));
        }
        Ok(points)
    }

    /// Takes a coordinate.
    pub(crate) fn coordinate(&mut self) -> Result<Coord, Refusal>
        ensures { Reads coordinate self.old self.new result }
    {
        let Some((word, rest)) = self.next_word() else {
            return Err(Refusal::Offence(WktKind::Syntax));
        };
        match Coord::read(word) {
            Ok(coord) => {
                self.left = rest;
                Ok(coord)
            }
            Err(NumberFault::OutOfRange) => Err(Refusal::Offence(WktKind::OutOfRange)),
            Err(_) => Err(Refusal::Offence(WktKind::BadNumber)),
        }
    }

    /// Sees that no third number comes behind a point's two.
    pub(crate) fn no_third(&self, point: Pt) -> Result<Pt, Refusal>
        ensures { Reads (no_third point) self.now self.now result }
    {
        if let Some((word, _)) = self.next_word()
            && is_number(word)
        {
            return Err(Refusal::Offence(WktKind::Dimension));
        }
        Ok(point)
    }

    /// Takes the name of a kind.
    pub(crate) fn kind(&mut self) -> Result<Kind, Refusal>
        ensures { Reads kind self.old self.new result }
    {
        let unknown = Err(Refusal::Offence(WktKind::UnknownKind));
        let Some((word, rest)) = self.next_word() else {
            return unknown;
        };
        let Some(kind) = kind_of(word) else {
            return unknown;
        };
        self.left = rest;
        Ok(kind)
    }

    /// Takes EMPTY, if it comes next, and says whether it does. No other word may come.
    pub(crate) fn empty_word(&mut self) -> Result<bool, Refusal>
        ensures { Reads empty_word self.old self.new result }
    {
        let Some((word, rest)) = self.next_word() else {
            return Ok(false);
        };
        if is_dimension(word) {
            return Err(Refusal::Offence(WktKind::Dimension));
        }
        if !word.eq_ignore_ascii_case(b"EMPTY") {
            return Err(Refusal::Offence(WktKind::Syntax));
        }
        self.left = rest;
        Ok(true)
    }

    /// Whether no token is left.
    pub(crate) fn is_at_end(&self) -> bool
        ensures { IsTrue result ↔ (self.now.tokens ≡ []) }
    {
        behind_blanks(self.left).is_empty()
    }
}
