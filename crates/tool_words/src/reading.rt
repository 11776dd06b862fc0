// Reading the words behind a tool's name, once from left to right.
ghost use Rattle.std.specs.Prelude.{◌≡◌, ◌+◌, ◌-◌, ◌^◌, ◌<◌, ◌≤◌, min, IfErr, IfOk, OnOk, Some, None, Option, drop, length, true, false, slice_get};
ghost use Rattle.std.specs.List.{prefix_len};
ghost use Rattle.tool_words.specs.Grammar.{takes_of};
ghost use Rattle.tool_words.specs.Offence.{wrong_end, wrong_form, wrong_values};
ghost use Rattle.tool_words.specs.Value.{is_number};
ghost use Rattle.tool_words.specs.Words.{is_option};
ghost use Rattle.tool_words.specs.Inner.Read.{AddsName, CutsPiece, HasNoMore, HasValues, IsRead, ReadsPiece, RefusesPiece};
ghost use Rattle.tool_words.specs.Inner.Read.{counted, fault_in, least_of, missing_end, wanted_in};

use crate::fault::{WordFault, WordKind};
use crate::names::Names;
use crate::options::{Options, Wanted};
use crate::piece::{Piece, is_option};
use crate::value::is_number;
use crate::words::Words;

// How many words from an index on are number texts.
fn count_numbers(words: &Words, from: usize) -> usize
    requires { from ≤ length words.now }
    ensures { result ≡ prefix_len is_number (drop from words.now) }
{
    'numbers: for at in from..words.len() {
        if !is_number(words.word(at)) {
            return at - from;
        }
    }
    words.len() - from
}

// What an option takes; a name takes nothing.
fn wanted<'w, T: Options<'w>>(word: &str) -> Option<Wanted>
    ensures { result ≡ wanted_in T.grammar word.now }
{
    if is_option(word) {
        T::wanted(word)
    } else {
        None
    }
}

// How many of the words from an index on are values of an option before them.
fn count_values(words: &Words, from: usize, wanted: Option<Wanted>) -> usize
    requires { from ≤ length words.now }
    ensures { result ≡ min (counted wanted (drop from words.now)) (length words.now - from) }
{
    let Some(wanted) = wanted else {
        return 0;
    };
    match wanted {
        Wanted::Each(count) => count.min(words.len() - from),
        Wanted::Numbers => count_numbers(words, from),
    }
}

/// The piece at an index: an option with the words that it takes, as far as they are there, or a name.
pub(crate) fn piece_at<'w, T: Options<'w>>(words: &'w Words, at: usize, word: &str) -> Piece<'w>
    requires { slice_get words.now at ≡ Some word.now }
    ensures { CutsPiece T.grammar words.now at result }
{
    let left = words.len() - at;
    let count = count_values(words, at + 1, wanted::<T>(word));
    prove!(count < left);
    Piece { words, at, count }
}

// How many words an option takes at least.
fn least(wanted: Wanted) -> usize
    ensures { result ≡ least_of wanted }
{
    match wanted {
        Wanted::Each(count) => count,
        Wanted::Numbers => 1,
    }
}

// Sees that the tool has an option, and that the words that it takes are there.
fn check_option<'w, T: Options<'w>>(piece: &Piece<'w>) -> Result<(), WordFault>
    requires { HasNoMore T.grammar piece.now }
    ensures enough { OnOk result (HasValues T.grammar piece.now) }
    ensures wrong { IfErr result (λ fault. wrong_values piece.now (takes_of T.grammar piece.now.word) ≡ Some fault) }
{
    let Some(wanted) = T::wanted(piece.word()) else {
        return Err(piece.fault(WordKind::UnknownOption));
    };
    if piece.len() < least(wanted) {
        return Err(piece.fault(WordKind::MissingValue));
    }
    Ok(())
}

// Adds a name, which is in the form of the next name.
fn add_name<'w, T: Options<'w>>(names: &mut Names<'w>, name: &Piece<'w>) -> Result<(), WordFault>
    ensures { AddsName T.grammar name.now names.old names.new result }
{
    match T::is_name(names.len(), name.word()) {
        None => Err(name.fault(WordKind::ExtraWord)),
        Some(false) => Err(name.fault(WordKind::BadValue)),
        Some(true) => {
            names.push(name.word());
            Ok(())
        }
    }
}

// Reads the piece at an index, and says where the next one begins.
fn read_piece<'w, T: Options<'w>>(
    words: &'w Words,
    at: usize,
    word: &str,
    options: &mut T,
    names: &mut Names<'w>,
) -> Result<usize, WordFault>
    requires { slice_get words.now at ≡ Some word.now }
    ensures reads { IfOk result (λ next. ReadsPiece T.grammar T.chooses words.now at next
        options.old options.new names.old names.new) }
    ensures refuses { IfErr result (RefusesPiece T.grammar words.now at names.old) }
{
    let piece = piece_at::<T>(words, at, word);
    let next = at + 1 + piece.len();
    if !is_option(word) {
        add_name::<T>(names, &piece)?;
        return Ok(next);
    }
    check_option::<T>(&piece)?;
    options.choose(&piece)?;
    Ok(next)
}

// Sees that no name is missing and that the options go together.
fn check_end<'w, T: Options<'w>>(
    options: &T,
    names: &Names<'w>,
    end: usize,
) -> Result<(), WordFault>
    requires { end < 2 ^ 63 }
    ensures sound { OnOk result (missing_end T.grammar (T.clashes options.now) (end + 1) names.now ≡ None) }
    ensures wrong { IfErr result (λ fault. missing_end T.grammar (T.clashes options.now) (end + 1) names.now ≡ Some fault) }
{
    let place = end as u64 + 1;
    if names.len() < T::required() {
        return Err(WordFault::At {
            kind: WordKind::MissingName,
            place,
        });
    }
    if options.clash() {
        return Err(WordFault::At {
            kind: WordKind::Combination,
            place,
        });
    }
    Ok(())
}

/// The options and names of the words behind a tool's name, or their first fault. It takes no memory.
pub(crate) fn read<'w, T: Options<'w>>(words: &'w Words) -> Result<(T, Names<'w>), WordFault>
    requires { 0 < length words.now }
    ensures read { IfOk result (λ read. IsRead T.grammar T.chooses T.clashes T.default words.now read.0 read.1) }
    ensures fault { IfErr result (λ fault. fault_in T.grammar T.chooses T.clashes T.default words.now ≡ Some fault) }
{
    let mut options = T::new();
    let mut names = Names::new();
    let mut at = 1;
    'words: while at < words.len() {
        at = read_piece(words, at, words.word(at), &mut options, &mut names)?;
    }
    check_end(&options, &names, words.len())?;
    Ok((options, names))
}
