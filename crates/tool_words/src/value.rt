// Reading the values of options.
ghost use Rattle.std.specs.Prelude.{◌≡◌};
ghost use Rattle.tool_words.specs.Value.{cell_kind, coordinate, count_from_one, count_of, decimal_of, field_name, is_number};
ghost use Rattle.std.specs.Option.{is_some};
ghost use Rattle.tool_words.specs.Value.{positive_coordinate, positive_decimal, values_count, whole_value};

use cell_base::{Cell, CellKind, Micro};
use fixed_coord::{Coord, scaled};

// The greatest count.
const MOST_COUNT: u64 = 2_147_483_647;

// No count has more digits.
const MOST_DIGITS: usize = 10;

// The most values that cells may have.
const MOST_VALUES: u32 = 256;

// A count: digits and nothing else.
pub(crate) fn count(word: &str) -> Option<u32>
    ensures { result ≡ count_of word.now }
{
    let digits = word.as_bytes();
    if digits.is_empty() || digits.len() > MOST_DIGITS {
        return None;
    }
    let mut number = 0u64;
    for digit in digits {
        if !digit.is_ascii_digit() {
            return None;
        }
        number = number * 10 + u64::from(*digit - b'0');
    }
    if number > MOST_COUNT {
        return None;
    }
    Some(number as u32)
}

// A count from 1.
pub(crate) fn size(word: &str) -> Option<u32>
    ensures { result ≡ count_from_one word.now }
{
    let number = count(word)?;
    if number > 0 { Some(number) } else { None }
}

// How many values cells may have.
pub(crate) fn values(word: &str) -> Option<u32>
    ensures { result ≡ values_count word.now }
{
    let number = size(word)?;
    if number <= MOST_VALUES {
        Some(number)
    } else {
        None
    }
}

// A coordinate.
pub(crate) fn coord(word: &str) -> Option<Coord>
    ensures { result ≡ coordinate word.now }
{
    Coord::read(word.as_bytes()).ok()
}

// A coordinate above 0.
pub(crate) fn resolution(word: &str) -> Option<Coord>
    ensures { result ≡ positive_coordinate word.now }
{
    let number = coord(word)?;
    if number.units() > 0 {
        Some(number)
    } else {
        None
    }
}

// A number of six decimals.
pub(crate) fn decimal(word: &str) -> Option<Micro>
    ensures { result ≡ decimal_of word.now }
{
    <Micro as Cell>::read(word.as_bytes()).ok()
}

// A number of six decimals above 0.
pub(crate) fn interval(word: &str) -> Option<Micro>
    ensures { result ≡ positive_decimal word.now }
{
    let number = decimal(word)?;
    if number.units() > 0 {
        Some(number)
    } else {
        None
    }
}

// A whole number, rounded, or the nearer end of 64 bits.
pub(crate) fn number(word: &str) -> Option<i64>
    ensures { result ≡ whole_value word.now }
{
    let value = scaled(word.as_bytes(), 0).ok()?;
    Some(<i64 as Cell>::clamp_from(value))
}

// Whether a word is a number text.
pub(crate) fn is_number(word: &str) -> bool
    ensures { result ≡ is_number word.now }
{
    scaled(word.as_bytes(), 0).is_ok()
}

// Whether a word may be a field's name: any but WKT.
pub(crate) fn is_field(word: &str) -> bool
    ensures { result ≡ is_some (field_name word.now) }
{
    !word.eq_ignore_ascii_case("WKT")
}

// A type of cells.
pub(crate) fn kind(word: &str) -> Option<CellKind>
    ensures { result ≡ cell_kind word.now }
{
    if word.eq_ignore_ascii_case("Byte") {
        Some(CellKind::Byte)
    } else if word.eq_ignore_ascii_case("Int16") {
        Some(CellKind::Int16)
    } else if word.eq_ignore_ascii_case("Int32") {
        Some(CellKind::Int32)
    } else if word.eq_ignore_ascii_case("Int64") {
        Some(CellKind::Int64)
    } else {
        None
    }
}
