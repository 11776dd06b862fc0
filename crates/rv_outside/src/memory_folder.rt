// A folder in memory.
ghost use Rattle.std.specs.Prelude.{◌≡◌, ◌∷◌, ◌++◌, [], ◌<◌, ◌↔◌, Some, None, Contains, IfNone, IfSome, IsErrOf, IsSome, IsTrue, OnErr, OnOk, length};
ghost use Rattle.rv_outside.specs.Files.{with_file};
ghost use Rattle.rv_outside.specs.Folder.{ReadsAt, Creates, AppendsTo};

use crate::causes::raise;
use crate::file_map::FileMap;
use crate::{Folder, Taken, Trouble};
use std::alloc::{AllocError, Global};

/// A kind of call that can be made to fail.
#[derive(Clone, Copy, Debug, PartialEq, Eq)]
pub enum Call {
    Read,
    Create,
    Append,
}

/// A folder that keeps its files in memory and tells them. Its calls can be made to fail.
#[derive(Drop)]
pub struct MemoryFolder {
    files: FileMap,
    // which calls of which kind are to fail, counted from 1
    failing: Vec<(Call, u64)>,
    reads: u64,
    creates: u64,
    appends: u64,
    read_faults: u64,
    write_faults: u64,
    missing: u64,
}

impl MemoryFolder {
    ghost use Rattle.rv_outside.specs.MemoryFolder.{memory_files, failing_calls, calls_of};

    /// A folder without files. It takes no memory.
    pub fn new(alloc: Global) -> MemoryFolder
        ensures empty { (name : _) → memory_files result name ≡ None }
        ensures sound { failing_calls result ≡ [] }
        ensures fresh { (call : _) → calls_of result call ≡ 0 }
    {
        MemoryFolder {
            files: FileMap::new(alloc),
            failing: Vec::new(alloc),
            reads: 0,
            creates: 0,
            appends: 0,
            read_faults: 0,
            write_faults: 0,
            missing: 0,
        }
    }

    /// Puts a file into the folder, in the place of one of that name. The only error is want of memory, and
    /// it changes nothing.
    pub fn put_file(&mut self, name: &str, bytes: &[u8]) -> Result<(), AllocError>
        ensures put { OnOk result (memory_files self.new ≡ with_file name.now bytes.now (memory_files self.old)) }
        ensures err { OnErr result (memory_files self.new ≡ memory_files self.old) }
        ensures same { failing_calls self.new ≡ failing_calls self.old }
        ensures calls { (call : _) → calls_of self.new call ≡ calls_of self.old call }
    {
        self.files.put(name, bytes)
    }

    /// The bytes of a file; none exactly where no file has the name.
    pub fn file(&self, name: &str) -> Option<&[u8]>
        ensures found { IfSome result (λ bytes. memory_files self.now name.now ≡ Some bytes.now) }
        ensures none { IfNone result (memory_files self.now name.now ≡ None) }
    {
        self.files.get(name)
    }

    /// Lets the n-th call of a kind fail, counted from 1 since the folder was made. The only error is want
    /// of memory, and it changes nothing.
    pub fn fail(&mut self, call: Call, n: u64) -> Result<(), AllocError>
        ensures fails { OnOk result (failing_calls self.new ≡ failing_calls self.old ++ (call, n) ∷ []) }
        ensures same { memory_files self.new ≡ memory_files self.old }
        ensures calls { (other : _) → calls_of self.new other ≡ calls_of self.old other }
        ensures err { OnErr result (failing_calls self.new ≡ failing_calls self.old) }
    {
        self.failing.push((call, n))?;
        Ok(())
    }
}

fn is_to_fail(failing: &[(Call, u64)], call: Call, count: u64) -> bool
    ensures { IsTrue result ↔ Contains failing.now (call, count) }
{
    failing.contains(&(call, count))
}

impl Folder for MemoryFolder {
    ghost use Rattle.rv_outside.specs.MemoryFolder.{memory_files, memory_state, KeepsWord};

    ghost state = { memory_state };

    fn read_at(&mut self, name: &str, offset: u64, into: &mut [u8]) -> Result<Taken, Trouble>
        requires { 0 < length into.old }
        ensures reads { ReadsAt name.now offset into.new result (memory_state self.old) (memory_state self.new) }
        ensures word { KeepsWord Call.Read (IsErrOf result Trouble.Failed) self.old self.new }
    {
        raise(&mut self.reads);
        if is_to_fail(&self.failing, Call::Read, self.reads) {
            raise(&mut self.read_faults);
            return Err(Trouble::Failed);
        }
        let taken = self.files.read_at(name, offset, into);
        if taken == Taken::Missing {
            raise(&mut self.missing);
        }
        Ok(taken)
    }

    fn create(&mut self, name: &str) -> Result<(), Trouble>
        ensures creates { Creates name.now result (memory_state self.old) (memory_state self.new) }
        ensures word { KeepsWord Call.Create (IsErrOf result Trouble.Failed) self.old self.new }
    {
        raise(&mut self.creates);
        if is_to_fail(&self.failing, Call::Create, self.creates) {
            raise(&mut self.write_faults);
            return Err(Trouble::Failed);
        }
        match self.files.put(name, &[]) {
            Ok(()) => Ok(()),
            Err(_) => Err(Trouble::NoMemory),
        }
    }

    fn append(&mut self, name: &str, piece: &[u8]) -> Result<usize, Trouble>
        requires some { 0 < length piece.now }
        requires there { IsSome (memory_files self.old name.now) }
        ensures appends { AppendsTo name.now piece.now result (memory_state self.old) (memory_state self.new) }
        ensures word { KeepsWord Call.Append (IsErrOf result Trouble.Failed) self.old self.new }
    {
        raise(&mut self.appends);
        if is_to_fail(&self.failing, Call::Append, self.appends) {
            raise(&mut self.write_faults);
            return Err(Trouble::Failed);
        }
        match self.files.grow(name, piece) {
            Ok(()) => Ok(piece.len()),
            Err(_) => Err(Trouble::NoMemory),
        }
    }
}
