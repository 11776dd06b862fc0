// The four whole types of cells.
ghost use Rattle.std.specs.Prelude.{◌≡◌, ◌++◌, ◌<◌, ◌≤ℤ◌, OnErr, OnOk, Ok, neg_ℤ, pos, refl, unsigned_abs};
ghost use Rattle.fixed_coord.specs.Shortest.{shortest};
ghost use Rattle.cell_base.specs.Clamped.{clamped};
ghost use Rattle.cell_base.specs.WholeCells.{between, whole_between};
ghost use Rattle.cell_base.specs.WholeCells.{least_byte, least_int16, least_int32, least_int64};
ghost use Rattle.cell_base.specs.WholeCells.{most_byte, most_int16, most_int32, most_int64};
ghost use Rattle.cell_base.specs.Inner.Laws.{byte_eq, byte_order, byte_reads, byte_same, whole_eq, whole_order, whole_reads};

use crate::cell::Cell;
use crate::fault::CellFault;
use fixed_coord::{short_whole, whole};
use itoa::Buffer;
use std::alloc::AllocError;

// The whole number of a text. A short text of digits, by far the commonest cell, takes the narrow way.
fn read_whole(text: &[u8]) -> Result<i64, CellFault>
    ensures { result ≡ whole_between (λ n. n) least_int64 most_int64 text.now }
{
    if let Some(n) = short_whole(text) {
        return Ok(n);
    }
    let n = whole(text)?;
    num_traits::cast(n).ok_or(CellFault::OutOfRange)
}

// Appends the decimal text of a number below 100.
#[inline(always)]
fn write_short(n: u8, out: &mut Vec<u8>) -> Result<(), AllocError>
    requires { n < 100 }
    ensures ok { OnOk result (out.new.items ≡ out.old.items ++ shortest (pos n) 0) }
    ensures err { OnErr result (out.new.items ≡ out.old.items) }
{
    if n < 10 {
        out.push(b'0' + n)?;
        return Ok(());
    }
    out.extend_from_slice(&[b'0' + n / 10, b'0' + n % 10])?;
    Ok(())
}

// Appends the decimal text of a whole number. One or two digits, the commonest cell by far, need no buffer of their own.
fn write_whole(n: i64, out: &mut Vec<u8>) -> Result<(), AllocError>
    ensures ok { OnOk result (out.new.items ≡ out.old.items ++ shortest n 0) }
    ensures err { OnErr result (out.new.items ≡ out.old.items) }
{
    if n >= 0 && n < 100 {
        write_short(n as u8, out)?;
        return Ok(());
    }
    let mut buffer = Buffer::new();
    out.extend_from_slice(buffer.format(n).as_bytes())?;
    Ok(())
}

// A number, or the nearer of two ends.
fn clamp_whole(v: i128, low: i64, high: i64) -> i64
    requires { low ≤ℤ high }
    ensures { result ≡ clamped low high v }
{
    num_traits::clamp(v, i128::from(low), i128::from(high)) as i64
}

impl Cell for i64 {
    const PLACES: u32 = 0;

    ghost PLACES = { 0 };

    ghost units_of = { λ v. v };

    ghost least = { least_int64 };

    ghost greatest = { most_int64 };

    ghost read_of = { whole_between (λ n. n) least_int64 most_int64 };

    ghost same_units = { λ a b same. same };

    ghost eq_units = { whole_eq };

    ghost order_units = { whole_order };

    ghost reads_written = { whole_reads least_int64 most_int64 refl refl };

    fn lowest() -> i64 {
        i64::MIN
    }

    fn highest() -> i64 {
        i64::MAX
    }

    fn units(self) -> i64 {
        self
    }

    fn clamp_from(v: i128) -> i64 {
        clamp_whole(v, i64::MIN, i64::MAX)
    }

    fn read(text: &[u8]) -> Result<i64, CellFault> {
        read_whole(text)
    }

    fn write(self, out: &mut Vec<u8>) -> Result<(), AllocError> {
        write_whole(self, out)
    }
}

impl Cell for i32 {
    const PLACES: u32 = 0;

    ghost PLACES = { 0 };

    ghost units_of = { λ v. v };

    ghost least = { least_int32 };

    ghost greatest = { most_int32 };

    ghost read_of = { whole_between (λ n. n) least_int32 most_int32 };

    ghost same_units = { λ a b same. same };

    ghost eq_units = { whole_eq };

    ghost order_units = { whole_order };

    ghost reads_written = { whole_reads least_int32 most_int32 refl refl };

    fn lowest() -> i64 {
        i64::from(i32::MIN)
    }

    fn highest() -> i64 {
        i64::from(i32::MAX)
    }

    fn units(self) -> i64 {
        i64::from(self)
    }

    fn clamp_from(v: i128) -> i32 {
        clamp_whole(v, i64::from(i32::MIN), i64::from(i32::MAX)) as i32
    }

    fn read(text: &[u8]) -> Result<i32, CellFault> {
        narrow_i32(read_whole(text)?)
    }

    fn write(self, out: &mut Vec<u8>) -> Result<(), AllocError> {
        write_whole(i64::from(self), out)
    }
}

// A whole number as an `i32`, if the type has it.
fn narrow_i32(n: i64) -> Result<i32, CellFault>
    ensures { result ≡ between (λ n. n) least_int32 most_int32 (Ok n) }
{
    num_traits::cast(n).ok_or(CellFault::OutOfRange)
}

impl Cell for i16 {
    const PLACES: u32 = 0;

    ghost PLACES = { 0 };

    ghost units_of = { λ v. v };

    ghost least = { least_int16 };

    ghost greatest = { most_int16 };

    ghost read_of = { whole_between (λ n. n) least_int16 most_int16 };

    ghost same_units = { λ a b same. same };

    ghost eq_units = { whole_eq };

    ghost order_units = { whole_order };

    ghost reads_written = { whole_reads least_int16 most_int16 refl refl };

    fn lowest() -> i64 {
        i64::from(i16::MIN)
    }

    fn highest() -> i64 {
        i64::from(i16::MAX)
    }

    fn units(self) -> i64 {
        i64::from(self)
    }

    fn clamp_from(v: i128) -> i16 {
        clamp_whole(v, i64::from(i16::MIN), i64::from(i16::MAX)) as i16
    }

    fn read(text: &[u8]) -> Result<i16, CellFault> {
        narrow_i16(read_whole(text)?)
    }

    fn write(self, out: &mut Vec<u8>) -> Result<(), AllocError> {
        write_whole(i64::from(self), out)
    }
}

// A whole number as an `i16`, if the type has it.
fn narrow_i16(n: i64) -> Result<i16, CellFault>
    ensures { result ≡ between (λ n. n) least_int16 most_int16 (Ok n) }
{
    num_traits::cast(n).ok_or(CellFault::OutOfRange)
}

impl Cell for u8 {
    const PLACES: u32 = 0;

    ghost PLACES = { 0 };

    ghost units_of = { λ v. pos v };

    ghost least = { least_byte };

    ghost greatest = { most_byte };

    ghost read_of = { whole_between unsigned_abs least_byte most_byte };

    ghost same_units = { byte_same };

    ghost eq_units = { byte_eq };

    ghost order_units = { byte_order };

    ghost reads_written = { byte_reads };

    fn lowest() -> i64 {
        i64::from(u8::MIN)
    }

    fn highest() -> i64 {
        i64::from(u8::MAX)
    }

    fn units(self) -> i64 {
        i64::from(self)
    }

    fn clamp_from(v: i128) -> u8 {
        clamp_whole(v, i64::from(u8::MIN), i64::from(u8::MAX)) as u8
    }

    fn read(text: &[u8]) -> Result<u8, CellFault> {
        narrow_u8(read_whole(text)?)
    }

    fn write(self, out: &mut Vec<u8>) -> Result<(), AllocError> {
        write_whole(i64::from(self), out)
    }
}

// A whole number as a `u8`, if the type has it.
fn narrow_u8(n: i64) -> Result<u8, CellFault>
    ensures { result ≡ between unsigned_abs least_byte most_byte (Ok n) }
{
    num_traits::cast(n).ok_or(CellFault::OutOfRange)
}
