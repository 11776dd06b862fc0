// One step each with a file or a writer of the system, and what its refusals are to the program.
ghost use Rattle.std.specs.Prelude.{◌≡◌, ◌≤◌, IfOk, length};
ghost use Rattle.std.specs.IoError.{error_kind};
ghost use Rattle.std.specs.Io.KnownBytes.{ReadConsumes, WriteAppends};
ghost use Rattle.std.specs.Io.Seek.{MovesTo};
ghost use Rattle.rv_outside.specs.Inner.Host.{refusal_of, trouble_of, read_answer, write_answer, create_answer};

use crate::{Taken, Trouble};
use std::io;
use std::io::{Read, Seek, SeekFrom, Write};

// What a refusal of the system is to the program.
#[derive(Clone, Copy, PartialEq, Eq)]
pub enum Refusal {
    NotFound,
    NoMemory,
    Other,
}

pub fn refusal_of(error: io::Error) -> Refusal
    ensures { result ≡ refusal_of (error_kind error) }
{
    match error.kind() {
        io::ErrorKind::NotFound => Refusal::NotFound,
        io::ErrorKind::OutOfMemory => Refusal::NoMemory,
        _ => Refusal::Other,
    }
}

fn trouble_of(refusal: Refusal) -> Trouble
    ensures { result ≡ trouble_of refusal }
{
    match refusal {
        Refusal::NoMemory => Trouble::NoMemory,
        Refusal::NotFound | Refusal::Other => Trouble::Failed,
    }
}

// A read of nothing is the file's end.
pub fn read_answer(answer: Result<usize, Refusal>) -> Result<Taken, Trouble>
    ensures { result ≡ read_answer answer }
{
    match answer {
        Ok(0) => Ok(Taken::End),
        Ok(count) => Ok(Taken::Bytes(count)),
        Err(Refusal::NotFound) => Ok(Taken::Missing),
        Err(refusal) => Err(trouble_of(refusal)),
    }
}

// A writer that takes nothing would be asked for ever.
pub fn write_answer(answer: Result<usize, Refusal>) -> Result<usize, Trouble>
    ensures { result ≡ write_answer answer }
{
    match answer {
        Ok(0) => Err(Trouble::Failed),
        Ok(count) => Ok(count),
        Err(refusal) => Err(trouble_of(refusal)),
    }
}

pub fn create_answer(answer: Result<(), Refusal>) -> Result<(), Trouble>
    ensures { result ≡ create_answer answer }
{
    answer.map_err(trouble_of)
}

pub fn move_to<S: Seek>(file: &mut S, offset: u64) -> Result<(), Refusal>
    ensures { MovesTo (S.stream_position file.old) (S.stream_position file.new) offset result }
{
    match file.seek(SeekFrom::Start(offset)) {
        Ok(_) => Ok(()),
        Err(error) => Err(refusal_of(error)),
    }
}

pub fn read_once<R: Read>(file: &mut R, into: &mut [u8]) -> Result<usize, Refusal>
    ensures within { IfOk result (λ n. n ≤ length into.new) }
    ensures bytes { ReadConsumes (R.remaining file.old) (R.remaining file.new) result into.new }
{
    match file.read(into) {
        Ok(count) => Ok(count),
        Err(error) => Err(refusal_of(error)),
    }
}

pub fn write_once<W: Write>(writer: &mut W, piece: &[u8]) -> Result<usize, Refusal>
    ensures within { IfOk result (λ n. n ≤ length piece.now) }
    ensures bytes { WriteAppends (W.contents writer.old) (W.contents writer.new) result piece.now }
{
    match writer.write(piece) {
        Ok(count) => Ok(count),
        Err(error) => Err(refusal_of(error)),
    }
}
