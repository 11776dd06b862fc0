// Reading number texts.
ghost use Rattle.std.specs.Prelude.{◌≡◌, ◌+◌, ◌/◌, ◌≤◌, ◌<◌, ◌^◌, ◌↔◌, IfSome, IsSome, Ok, length};
ghost use Rattle.std.specs.Str.Parse.{AllDigits, digits_value};
ghost use Rattle.fixed_coord.specs.Number.{behind_sign, fraction_of};
ghost use Rattle.fixed_coord.specs.Scaled.{capped, scaled_of};
ghost use Rattle.fixed_coord.specs.Inner.Cut.{cap};
ghost use Rattle.fixed_coord.specs.Inner.Spelled.{IsSpelled, parts_in, rounded_units};
ghost use Rattle.fixed_coord.specs.Whole.{IsShort, whole_of};

use crate::cut::cut_at_point;
use crate::fault::NumberFault;
use crate::limits::LARGEST;
use crate::parts::{Parts, sign, split};

// Each number of so many digits fits `i64`.
const SHORT: usize = 18;

// The number of this sign and size, its size capped at the largest.
fn signed(negative: bool, size: u128) -> i128
    ensures { result ≡ capped negative size }
{
    let size = size.min(LARGEST) as i128;
    if negative { -size } else { size }
}

// A tenth, rounded half up. Most numbers are small, and a narrow division is the faster one.
fn tenth(tenths: u128) -> u128
    requires { tenths ≤ cap }
    ensures { result ≡ (tenths + 5) / 10 }
{
    if tenths < 1_000_000_000_000_000_000 {
        u128::from((tenths as u64 + 5) / 10)
    } else {
        (tenths + 5) / 10
    }
}

// The number that at most ten digits spell.
fn few_digits(digits: &[u8]) -> u64
    requires digits { AllDigits 10 digits.now }
    requires few { length digits.now ≤ 10 }
    ensures { result ≡ digits_value 10 digits.now }
{
    let mut number = 0u64;
    for digit in digits {
        number = number * 10 + u64::from(*digit - b'0');
    }
    number
}

// The size of a number of few digits and without an exponent, in units of 10^-places: the commonest one, for which no
// wide number is needed.
fn short_units(number: Parts<'_>, places: u32) -> Option<u64>
    requires digits { IsSpelled (parts_in number) }
    requires places { places ≤ 10 }
    ensures { IfSome result (λ n. n ≡ rounded_units places (fraction_of (parts_in number.entry))) }
{
    let decimals = number.fraction.len();
    if !number.power.is_empty() || number.whole.len() > 8 || decimals > places as usize {
        return None;
    }
    let whole = few_digits(number.whole) * 10u64.pow(places);
    let behind = few_digits(number.fraction) * 10u64.pow(places - decimals as u32);
    Some(whole + behind)
}

/// The number of units of 10^-places that a number text stands for, rounded half away from zero, and capped at
/// 10^30 in size. The only fault is `NotNumber`, where the text isn't a number text.
pub fn scaled(text: &[u8], places: u32) -> Result<i128, NumberFault>
    requires { places ≤ 10 }
    ensures { result ≡ scaled_of places text.now }
{
    let Some(number) = split(text) else {
        return Err(NumberFault::NotNumber);
    };
    if let Some(size) = short_units(number, places) {
        return Ok(signed(number.negative, u128::from(size)));
    }
    let cut = cut_at_point(number, places + 1);
    Ok(signed(number.negative, tenth(cut.front)))
}

/// The whole number that a number text stands for, capped at 10^30 in size. `NotNumber` where the text isn't
/// a number text, then `NotWhole` where its value isn't whole.
pub fn whole(text: &[u8]) -> Result<i128, NumberFault>
    ensures { result ≡ whole_of text.now }
{
    if let Some(value) = short_whole(text) {
        return Ok(i128::from(value));
    }
    let Some(number) = split(text) else {
        return Err(NumberFault::NotNumber);
    };
    let cut = cut_at_point(number, 0);
    if cut.behind == 0 {
        Ok(signed(number.negative, cut.front))
    } else {
        Err(NumberFault::NotWhole)
    }
}

/// The whole number that a short text of digits, with a sign or none, stands for: what `whole` answers, by a faster
/// way. `None` where the text has anything but digits behind its sign, none of them, or more than eighteen.
pub fn short_whole(text: &[u8]) -> Option<i64>
    ensures value { IfSome result (λ n. whole_of text.now ≡ Ok n) }
    ensures short { IsSome result ↔ IsShort (behind_sign text.now) }
{
    let (negative, digits) = sign(text);
    let size = short_size(digits)? as i64;
    Some(if negative { -size } else { size })
}

// The number that one to eighteen digits spell.
fn short_size(digits: &[u8]) -> Option<u64>
    ensures value { IfSome result (λ n. n ≡ digits_value 10 digits.now) }
    ensures small { IfSome result (λ n. n < 10 ^ 18) }
    ensures short { IsSome result ↔ IsShort digits.now }
{
    if digits.is_empty() || digits.len() > SHORT {
        return None;
    }
    let mut size = 0u64;
    for digit in digits {
        if !digit.is_ascii_digit() {
            return None;
        }
        size = size * 10 + u64::from(*digit - b'0');
    }
    Some(size)
}
