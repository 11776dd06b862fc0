// Writing the shortest text of a number of units.
ghost use Rattle.std.specs.Prelude.{◌≡◌, ◌++◌, ◌/◌, ◌%◌, ◌^◌, ◌<◌, ◌≤◌, OnErr, OnOk, length, take, unsigned_abs};
ghost use Rattle.std.specs.Fmt.{decimal};
ghost use Rattle.fixed_coord.specs.Limits.{largest};
ghost use Rattle.fixed_coord.specs.Shortest.{decimals, shortest, shortest_size};

use itoa::Buffer;
use std::alloc::AllocError;

// These are inlined, so that for a constant number of places nothing is divided by a number that isn't known beforehand.

/// Appends the shortest decimal text of `value` units of 10^-places: a digit before the point, no exponent, no zeros
/// at the end of the decimals, no point without decimals, a minus only before a number below zero. A refusal leaves
/// `out` as it was.
#[inline(always)]
pub fn write_scaled(value: i128, places: u32, out: &mut Vec<u8>) -> Result<(), AllocError>
    requires places { places ≤ 10 }
    requires size { unsigned_abs value ≤ largest }
    ensures ok { OnOk result (out.new.items ≡ out.old.items ++ shortest value places) }
    ensures err { OnErr result (out.new.items ≡ out.old.items) }
{
    let start = out.len();
    let written = append_scaled(value, places, out);
    if written.is_err() {
        out.truncate(start);
    }
    written
}

// The same, but a refusal leaves a part of the text.
#[inline(always)]
fn append_scaled(value: i128, places: u32, out: &mut Vec<u8>) -> Result<(), AllocError>
    requires places { places ≤ 10 }
    requires size { unsigned_abs value ≤ largest }
    ensures ok { OnOk result (out.new.items ≡ out.old.items ++ shortest value places) }
    ensures err { OnErr result (take (length out.old.items) out.new.items ≡ out.old.items) }
{
    if value < 0 {
        out.push(b'-')?;
    }
    append_size(value.unsigned_abs(), places, out)
}

// Appends the text of a size.
#[inline(always)]
fn append_size(size: u128, places: u32, out: &mut Vec<u8>) -> Result<(), AllocError>
    requires places { places ≤ 10 }
    requires size { size ≤ largest }
    ensures ok { OnOk result (out.new.items ≡ out.old.items ++ shortest_size size places) }
    ensures err { OnErr result (take (length out.old.items) out.new.items ≡ out.old.items) }
{
    let scale = 10u64.pow(places);
    let (whole, rest) = split_size(size, scale);
    append_whole(whole, out)?;
    if rest > 0 {
        out.push(b'.')?;
        append_decimals(rest, places, out)?;
    }
    Ok(())
}

// The whole part of `size` units of `1 / scale`, and the units that are left. Most sizes are small, and a narrow
// division is the faster one.
#[inline(always)]
fn split_size(size: u128, scale: u64) -> (u128, u64)
    requires { 0 < scale }
    ensures whole { result.0 ≡ size / scale }
    ensures rest { result.1 ≡ size % scale }
{
    if size < 1_000_000_000_000_000_000 {
        let size = size as u64;
        (u128::from(size / scale), size % scale)
    } else {
        let scale = u128::from(scale);
        (size / scale, (size % scale) as u64)
    }
}

// Appends the digits of a whole part. Nearly all fit 64 bits, and those take the narrow way.
#[inline(always)]
fn append_whole(whole: u128, out: &mut Vec<u8>) -> Result<(), AllocError>
    ensures ok { OnOk result (out.new.items ≡ out.old.items ++ decimal whole) }
    ensures err { OnErr result (out.new.items ≡ out.old.items) }
{
    let mut buffer = Buffer::new();
    if whole < 1_000_000_000_000_000_000 {
        out.extend_from_slice(buffer.format(whole as u64).as_bytes())?;
        return Ok(());
    }
    out.extend_from_slice(buffer.format(whole).as_bytes())?;
    Ok(())
}

// Appends the decimals of `rest` units of 10^-places.
fn append_decimals(rest: u64, places: u32, out: &mut Vec<u8>) -> Result<(), AllocError>
    requires places { places ≤ 10 }
    requires rest { rest < 10 ^ places }
    ensures ok { OnOk result (out.new.items ≡ out.old.items ++ decimals places rest) }
    ensures err { OnErr result (take (length out.old.items) out.new.items ≡ out.old.items) }
{
    let mut rest = rest;
    let mut left = places;
    let mut scale = 10u64.pow(places);
    'digits: while rest > 0 {
        left -= 1;
        scale /= 10;
        out.push(b'0' + (rest / scale) as u8)?;
        rest %= scale;
    }
    Ok(())
}
