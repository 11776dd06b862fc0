// The tokens of a text.
ghost use Rattle.std.specs.Prelude.{◌≡◌, ◌∷◌, [], ◌<◌, ◌≤◌, ℕ, true, IfSome, count_by, IfNone, is_some, drop, length, take};
ghost use Rattle.asc_grid.specs.Tokens.{is_blank, is_line_end, begins_with_token, line_behind, tokens_from};
ghost use Rattle.asc_grid.specs.Header.{begins_number, end_line};
ghost use Rattle.asc_grid.specs.Inner.Cursor.{begins_keyword, end_of, further, tokens_at};

use std::marker::Model;

/// The tokens that are left of a text, and the line that the text has come to.
#[derive(Drop)]
pub struct Tokens<'a> {
    text: &'a [u8],
    at: usize,
}

impl<'a> Model for Tokens<'a> {
    ghost use Rattle.std.specs.Prelude.{◌≤◌, drop, length, take};
    ghost use Rattle.asc_grid.specs.Tokens.{line_behind};
    ghost use Rattle.asc_grid.specs.Inner.Cursor.{Cursor};

    ghost Value = { Cursor };

    ghost view = { λ tokens. record { line = line_behind 1 (take tokens.at tokens.text.now); left = drop tokens.at tokens.text.now } };

    ghost invariant = { λ tokens. tokens.at ≤ length tokens.text.now };
}

fn is_blank(byte: u8) -> bool
    ensures { result ≡ is_blank byte }
{
    matches!(byte, 9..=13 | b' ')
}

fn begins_number(text: &[u8]) -> bool
    ensures { result ≡ begins_number text.now }
{
    match text {
        [] => false,
        [byte, ..] => byte.is_ascii_digit() || matches!(*byte, b'+' | b'-' | b'.'),
    }
}

// How many blank bytes come first.
fn blanks(text: &[u8]) -> usize
    ensures within { result ≤ length text.now }
    ensures same { (line : ℕ) → tokens_from (line_behind line (take result text.now)) (drop result text.now) ≡ tokens_from line text.now }
    ensures token { result < length text.now → begins_with_token (drop result text.now) ≡ true }
{
    for (at, byte) in text.iter().enumerate() {
        if !is_blank(*byte) {
            return at;
        }
    }
    text.len()
}

// How long the token is that begins with the text.
fn token_len(text: &[u8]) -> usize
    requires { begins_with_token text.now ≡ true }
    ensures some { 0 < result }
    ensures within { result ≤ length text.now }
    ensures first { (line : ℕ) → tokens_from line text.now
        ≡ record { text = take result text.now; line = line } ∷ tokens_from line (drop result text.now) }
    ensures line { (line : ℕ) → line_behind line (take result text.now) ≡ line }
{
    for (at, byte) in text.iter().enumerate() {
        if is_blank(*byte) {
            return at;
        }
    }
    text.len()
}

// How many line ends a text has.
fn line_ends(text: &[u8]) -> u64
    ensures count { result ≡ count_by is_line_end text.now }
    ensures few { result ≤ length text.now }
{
    text.iter().filter(|byte| **byte == b'\n').count() as u64
}

impl<'a> Tokens<'a> {
    /// The tokens of a text.
    pub fn of(text: &'a [u8]) -> Tokens<'a>
        ensures { result ≡ record { line = 1; left = text.now } }
    {
        Tokens { text, at: 0 }
    }

    /// The number of bytes that are left.
    pub fn len(&self) -> usize
        ensures { result ≡ length self.now.left }
    {
        self.text.len() - self.at
    }

    /// The line that the text has come to: the last token's, or the text's last line behind the last token.
    pub fn line(&self) -> u64
        ensures { result ≡ self.now.line }
    {
        1 + line_ends(&self.text[..self.at])
    }

    fn left(&self) -> &'a [u8]
        ensures { result.now ≡ self.now.left }
    {
        &self.text[self.at..]
    }

    fn advance(&mut self, count: usize)
        requires { count ≤ length self.old.left }
        ensures { self.new ≡ further self.old count }
    {
        self.at += count;
    }

    // Goes on to the next token, or to the text's end.
    fn pass_blanks(&mut self)
        ensures same { tokens_at self.new ≡ tokens_at self.old }
        ensures same_end { end_of self.new ≡ end_of self.old }
        ensures token { 0 < length self.new.left → begins_with_token self.new.left ≡ true }
    {
        self.advance(blanks(self.left()));
    }

    /// The next token; none exactly where there is no further one.
    pub fn next(&mut self) -> Option<&'a [u8]>
        ensures token { IfSome result (λ token. tokens_at self.old ≡ record { text = token.now; line = self.new.line } ∷ tokens_at self.new) }
        ensures none { IfNone result (tokens_at self.old ≡ []) }
        ensures end { IfNone result (self.new.left ≡ []) }
        ensures same_end { end_of self.new ≡ end_of self.old }
    {
        self.pass_blanks();
        let left = self.left();
        if left.is_empty() {
            return None;
        }
        let len = token_len(left);
        self.advance(len);
        Some(&left[..len])
    }

    /// The next token, if it stands in a keyword's place: it doesn't begin a number. Else it is left, and the
    /// line is its own, or the text's last line where there is none.
    pub fn next_keyword(&mut self) -> Option<&'a [u8]>
        ensures token { IfSome result (λ token. tokens_at self.old ≡ record { text = token.now; line = self.new.line } ∷ tokens_at self.new) }
        ensures is { is_some result ≡ begins_keyword (tokens_at self.old) }
        ensures none { IfNone result (tokens_at self.new ≡ tokens_at self.old) }
        ensures line { IfNone result (self.new.line ≡ end_line (end_of self.old) (tokens_at self.old)) }
        ensures same_end { end_of self.new ≡ end_of self.old }
    {
        self.pass_blanks();
        if begins_number(self.left()) {
            return None;
        }
        self.next()
    }
}
