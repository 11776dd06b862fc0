// A decimal fraction at some places, cut at its point, each side capped.
ghost use Rattle.std.specs.Prelude.{◌≡◌, ◌*◌, ◌^◌, ◌≤◌, ◌++◌, min};
ghost use Rattle.std.specs.Str.Parse.{AllDigits, digits_value_after};
ghost use Rattle.fixed_coord.specs.Number.{fraction_of};
ghost use Rattle.fixed_coord.specs.Inner.Cut.{CutsDigits, IsCut, cap};
ghost use Rattle.fixed_coord.specs.Inner.Spelled.{IsSpelled, parts_in};

use crate::parts::Parts;

// Past this a size decides nothing that this doesn't.
const CAP: u128 = 100_000_000_000_000_000_000_000_000_000_000;

// A number cut at its point.
#[derive(Clone, Copy)]
pub(crate) struct Cut {
    // The whole part, capped.
    pub(crate) front: u128,
    // Zero exactly where nothing is behind the point.
    pub(crate) behind: u128,
}

// The number that digits spell behind another, capped.
fn spelled(before: u128, digits: &[u8]) -> u128
    requires small { before ≤ cap }
    requires digits { AllDigits 10 digits.now }
    ensures { result ≡ min (digits_value_after 10 before digits.now) cap }
{
    let mut size = before;
    for digit in digits {
        size = (size * 10 + u128::from(*digit - b'0')).min(CAP);
    }
    size
}

// A number with zeros behind it, capped.
fn with_zeros(number: u128, count: u32) -> u128
    requires { number ≤ cap }
    ensures { result ≡ min (number * 10 ^ count) cap }
{
    let mut size = number;
    for _step in 0..count {
        size = (size * 10).min(CAP);
    }
    size
}

// Digits with a point behind the first `count` of them, and zeros where they end before it.
fn cut_digits(whole: &[u8], fraction: &[u8], count: u128) -> Cut
    requires whole { AllDigits 10 whole.now }
    requires fraction { AllDigits 10 fraction.now }
    ensures { CutsDigits (whole.now ++ fraction.now) count result.front result.behind }
{
    let wholes = whole.len() as u128;
    let fractions = fraction.len() as u128;
    let (front_whole, back_whole) = whole.split_at(count.min(wholes) as usize);
    let (front_fraction, back_fraction) = fraction.split_at(
        count.saturating_sub(wholes).min(fractions) as usize,
    );
    let zeros = count.saturating_sub(wholes + fractions).min(33) as u32;
    let front = spelled(spelled(0, front_whole), front_fraction);
    Cut {
        front: with_zeros(front, zeros),
        behind: spelled(spelled(0, back_whole), back_fraction),
    }
}

// The fraction of these parts, without its sign, times 10^places and cut at its point.
//
// The exponent is capped too: long before its bound it decides the answer together with the count of digits.
pub(crate) fn cut_at_point(number: Parts<'_>, places: u32) -> Cut
    requires digits { IsSpelled (parts_in number) }
    requires places { places ≤ 11 }
    ensures { IsCut (fraction_of (parts_in number.entry)) places result.front result.behind }
{
    let power = spelled(0, number.power);
    let digits = number.whole.len() as u128 + u128::from(places);
    let count = if number.down {
        digits.saturating_sub(power)
    } else {
        digits + power
    };
    cut_digits(number.whole, number.fraction, count)
}
