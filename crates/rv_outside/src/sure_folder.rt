// A folder in memory whose calls never fail.
ghost use Rattle.std.specs.Prelude.{◌≡◌, Some, None, IfNone, IfSome, OnErr, OnOk};
ghost use Rattle.rv_outside.specs.Files.{with_file};

use crate::causes::raise;
use crate::file_map::FileMap;
use crate::{Folder, Taken, Trouble};
use std::alloc::{AllocError, Global};

/// A folder that keeps its files in memory and tells them. No call of it fails, so that want of memory is its only
/// trouble.
#[derive(Drop)]
pub struct SureFolder {
    files: FileMap,
    missing: u64,
}

impl SureFolder {
    ghost use Rattle.rv_outside.specs.SureFolder.{sure_files, sure_state};

    /// A folder without files. It takes no memory.
    pub fn new(alloc: Global) -> SureFolder
        ensures empty { (name : _) → sure_files result name ≡ None }
        ensures fresh { (sure_state result).missing ≡ 0 }
    {
        SureFolder {
            files: FileMap::new(alloc),
            missing: 0,
        }
    }

    /// Puts a file into the folder, in the place of one of that name. The only error is want of memory, and
    /// it changes nothing.
    pub fn put_file(&mut self, name: &str, bytes: &[u8]) -> Result<(), AllocError>
        ensures put { OnOk result (sure_files self.new ≡ with_file name.now bytes.now (sure_files self.old)) }
        ensures err { OnErr result (sure_files self.new ≡ sure_files self.old) }
        ensures same { (sure_state self.new).missing ≡ (sure_state self.old).missing }
    {
        self.files.put(name, bytes)
    }

    /// The bytes of a file; none exactly where no file has the name.
    pub fn file(&self, name: &str) -> Option<&[u8]>
        ensures found { IfSome result (λ bytes. sure_files self.now name.now ≡ Some bytes.now) }
        ensures none { IfNone result (sure_files self.now name.now ≡ None) }
    {
        self.files.get(name)
    }
}

impl Folder for SureFolder {
    ghost use Rattle.rv_outside.specs.SureFolder.{sure_state};

    ghost state = { sure_state };

    fn read_at(&mut self, name: &str, offset: u64, into: &mut [u8]) -> Result<Taken, Trouble> {
        let taken = self.files.read_at(name, offset, into);
        if taken == Taken::Missing {
            raise(&mut self.missing);
        }
        Ok(taken)
    }

    fn create(&mut self, name: &str) -> Result<(), Trouble> {
        match self.files.put(name, &[]) {
            Ok(()) => Ok(()),
            Err(_) => Err(Trouble::NoMemory),
        }
    }

    fn append(&mut self, name: &str, piece: &[u8]) -> Result<usize, Trouble> {
        match self.files.grow(name, piece) {
            Ok(()) => Ok(piece.len()),
            Err(_) => Err(Trouble::NoMemory),
        }
    }
}
