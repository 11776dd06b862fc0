// Files and texts from their first byte to their last.
ghost use Rattle.std.specs.Prelude.{◌≡◌, ◌<◌, ◌≤◌, ℕ, Some, None, IfOk, IfSome, IsErrOf, IsSome, OnOk, OnErr, take, length};
ghost use Rattle.rv_outside.specs.Files.{with_appended, Becomes};
ghost use Rattle.rv_outside.specs.Folder.{OnlyReads, OnlyWrites};
ghost use Rattle.rv_outside.specs.Sink.{Says};

use crate::{Folder, Sink, Taken, Trouble};
use std::alloc::{AllocError, Global};

/// Why a file could not be read from its first byte to its last.
#[derive(Clone, Copy, Debug, PartialEq, Eq)]
pub enum FetchFault {
    /// Nothing has the name.
    Missing,
    /// A read failed.
    Fault,
    /// Memory ran out.
    NoMemory,
}

impl From<AllocError> for FetchFault {
    ghost use Rattle.rv_outside.specs.declared.transfer.FetchFault.TheVariants.{NoMemory};

    ghost from_gives = { λ _ fault. fault ≡ NoMemory };

    fn from(_: AllocError) -> FetchFault {
        FetchFault::NoMemory
    }
}

// How many bytes are asked for at once: few calls, and little to hold.
const BLOCK: usize = 262_144;

fn empty_block(alloc: Global) -> Result<Vec<u8>, AllocError>
    ensures { IfOk result (λ block. 0 < length block.items) }
{
    vec![in alloc; 0u8; BLOCK]
}

/// The bytes of a file, all of them. The first read that fails or finds no file ends it, with that answer.
/// The files stay as they are.
pub fn read_whole<F: Folder>(
    alloc: Global,
    folder: &mut F,
    name: &str,
) -> Result<Vec<u8>, FetchFault>
    ensures bytes { IfOk result (λ v. IfSome (F.state folder.old).files (λ files. files name.now ≡ Some v.items)) }
    ensures missing { IsErrOf result FetchFault.Missing → IfSome (F.state folder.old).files (λ files. files name.now ≡ None) }
    ensures leaves { OnlyReads (IsErrOf result FetchFault.Fault) (IsErrOf result FetchFault.Missing)
        (F.state folder.old) (F.state folder.new) }
{
    let mut block = empty_block(alloc)?;
    let mut all = Vec::new(alloc);
    'reading: loop {
        match folder.read_at(name, all.len() as u64, &mut block) {
            Ok(Taken::Bytes(count)) => all.extend_from_slice(&block[..count])?,
            Ok(Taken::End) => return Ok(all),
            Ok(Taken::Missing) => return Err(FetchFault::Missing),
            Err(Trouble::Failed) => return Err(FetchFault::Fault),
            Err(Trouble::NoMemory) => return Err(FetchFault::NoMemory),
        }
    }
}

/// Adds all of a piece at the end of a file. After an error a first part of it was added. The first append
/// that fails ends it, with that answer.
pub fn append_all<F: Folder>(folder: &mut F, name: &str, piece: &[u8]) -> Result<(), Trouble>
    requires { IfSome (F.state folder.old).files (λ files. IsSome (files name.now)) }
    ensures added { OnOk result (Becomes (F.state folder.old).files (F.state folder.new).files (with_appended name.now piece.now)) }
    ensures part { OnErr result ((n : ℕ) × (n ≤ length piece.now)
        × Becomes (F.state folder.old).files (F.state folder.new).files (with_appended name.now (take n piece.now))) }
    ensures leaves { OnlyWrites (IsErrOf result Trouble.Failed) (F.state folder.old) (F.state folder.new) }
{
    let mut done = 0usize;
    while done < piece.len() {
        let added = folder.append(name, &piece[done..])?;
        done += added;
    }
    Ok(())
}

/// Hands a text to a sink, all of it. After an error the sink took a first part of it. The first put that
/// fails ends it, with that answer.
pub fn say<S: Sink>(sink: &mut S, text: &[u8]) -> Result<(), Trouble>
    ensures { Says text.now result (S.state sink.old) (S.state sink.new) }
{
    let mut done = 0usize;
    while done < text.len() {
        let taken = sink.put(&text[done..])?;
        done += taken;
    }
    Ok(())
}
