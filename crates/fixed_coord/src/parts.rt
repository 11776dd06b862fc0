// A number text in its parts.
ghost use Rattle.std.specs.Prelude.{◌≡◌, IfSome, MatchOption, None, Some};
ghost use Rattle.std.specs.List.{prefix_len};
ghost use Rattle.std.specs.Str.Parse.{AllDigits};
ghost use Rattle.std.specs.Char.{is_ascii_digit};
ghost use Rattle.fixed_coord.specs.Number.{behind_decimals, behind_digits, behind_sign, decimals_in_front};
ghost use Rattle.fixed_coord.specs.Number.{digits_in_front, exponent_of, has_minus, is_digits, parts_of};
ghost use Rattle.fixed_coord.specs.Inner.Spelled.{IsSpelled, parts_in};

// The parts of a number text, each a piece of it.
#[derive(Clone, Copy)]
pub(crate) struct Parts<'a> {
    pub(crate) negative: bool,
    pub(crate) whole: &'a [u8],
    pub(crate) fraction: &'a [u8],
    pub(crate) down: bool,
    pub(crate) power: &'a [u8],
}

// The sign of a text, true where it is a minus, and what follows it.
pub(crate) fn sign(text: &[u8]) -> (bool, &[u8])
    ensures minus { result.0 ≡ has_minus text.now }
    ensures rest { result.1.now ≡ behind_sign text.now }
{
    match text {
        [b'-', rest @ ..] => (true, rest),
        [b'+', rest @ ..] => (false, rest),
        _ => (false, text),
    }
}

// How many digits a text begins with.
fn digit_count(text: &[u8]) -> usize
    ensures { result ≡ prefix_len is_ascii_digit text.now }
{
    text.iter().take_while(|b| b.is_ascii_digit()).count()
}

// Whether a text is digits and nothing else, at least one.
fn is_numeral(text: &[u8]) -> bool
    ensures { result ≡ is_digits text.now }
{
    !text.is_empty() && digit_count(text) == text.len()
}

// The digits that a text begins with, and what follows them.
fn digits(text: &[u8]) -> (&[u8], &[u8])
    ensures front { result.0.now ≡ digits_in_front text.now }
    ensures rest { result.1.now ≡ behind_digits text.now }
    ensures digits { AllDigits 10 result.0.now }
{
    text.split_at(digit_count(text))
}

// The digits behind a point that a text begins with, and what follows them.
fn decimals(text: &[u8]) -> (&[u8], &[u8])
    ensures front { result.0.now ≡ decimals_in_front text.now }
    ensures rest { result.1.now ≡ behind_decimals text.now }
    ensures digits { AllDigits 10 result.0.now }
{
    match text {
        [b'.', rest @ ..] => digits(rest),
        _ => (&text[..0], text),
    }
}

// The exponent that a text is: whether it goes down, and its digits.
fn exponent(text: &[u8]) -> Option<(bool, &[u8])>
    ensures value { MatchOption result (exponent_of text.now ≡ None) (λ e. exponent_of text.now ≡ Some (e.0, e.1.now)) }
    ensures digits { IfSome result (λ e. AllDigits 10 e.1.now) }
{
    let [first, rest @ ..] = text else {
        return Some((false, text));
    };
    if *first != b'e' && *first != b'E' {
        return None;
    }
    let (down, power) = sign(rest);
    if is_numeral(power) {
        Some((down, power))
    } else {
        None
    }
}

// The parts of a text, if it is a number text.
pub(crate) fn split(text: &[u8]) -> Option<Parts<'_>>
    ensures value { MatchOption result (parts_of text.now ≡ None) (λ p. parts_of text.now ≡ Some (parts_in p)) }
    ensures digits { IfSome result (λ p. IsSpelled (parts_in p)) }
{
    let (negative, unsigned) = sign(text);
    let (whole, rest) = digits(unsigned);
    let (fraction, rest) = decimals(rest);
    if whole.is_empty() && fraction.is_empty() {
        return None;
    }
    let (down, power) = exponent(rest)?;
    Some(Parts {
        negative,
        whole,
        fraction,
        down,
        power,
    })
}
