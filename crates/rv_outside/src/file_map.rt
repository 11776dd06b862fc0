// Files by name, in memory.
ghost use Rattle.std.specs.Prelude.{◌≡◌, ◌≤◌, ◌<◌, ◌+◌, Some, None, IfNone, IfSome, IsSome, OnErr, OnOk, drop, length, take};
ghost use Rattle.rv_outside.specs.Files.{with_file, with_appended};
ghost use Rattle.rv_outside.specs.Folder.{IsWithin, Reads};
ghost use Rattle.rv_outside.specs.FileMap.{files_in};

use crate::Taken;
use std::alloc::{AllocError, Global};
use std::collections::BTreeMap;

// What the folders in memory keep.
#[derive(Drop)]
pub struct FileMap {
    alloc: Global,
    files: BTreeMap<String, Vec<u8>>,
}

impl FileMap {
    pub fn new(alloc: Global) -> FileMap
        ensures { (name : _) → files_in result name ≡ None }
    {
        FileMap {
            alloc,
            files: BTreeMap::new(alloc),
        }
    }

    // Puts a file in the place of one of that name.
    pub fn put(&mut self, name: &str, bytes: &[u8]) -> Result<(), AllocError>
        ensures put { OnOk result (files_in self.new ≡ with_file name.now bytes.now (files_in self.old)) }
        ensures err { OnErr result (files_in self.new ≡ files_in self.old) }
    {
        let name = String::from_str(self.alloc, name)?;
        let bytes = bytes.to_vec(self.alloc)?;
        self.files.insert(name, bytes)?;
        Ok(())
    }

    pub fn get(&self, name: &str) -> Option<&[u8]>
        ensures found { IfSome result (λ bytes. files_in self.now name.now ≡ Some bytes.now) }
        ensures none { IfNone result (files_in self.now name.now ≡ None) }
    {
        match self.files.get(name) {
            Some(bytes) => Some(bytes.as_slice()),
            None => None,
        }
    }

    // Adds a piece at the end of a file.
    pub fn grow(&mut self, name: &str, piece: &[u8]) -> Result<(), AllocError>
        requires { IsSome (files_in self.old name.now) }
        ensures grown { OnOk result (files_in self.new ≡ with_appended name.now piece.now (files_in self.old)) }
        ensures err { OnErr result (files_in self.new ≡ files_in self.old) }
    {
        let bytes = self.files.get_mut(name).unwrap();
        bytes.extend_from_slice(piece)?;
        Ok(())
    }

    // Reads bytes of a file from an offset on.
    pub fn read_at(&self, name: &str, offset: u64, into: &mut [u8]) -> Taken
        requires { 0 < length into.old }
        ensures within { IsWithin result (length into.new) }
        ensures content { Reads (files_in self.now name.now) offset into.new result }
    {
        match self.files.get(name) {
            None => Taken::Missing,
            Some(bytes) => {
                let offset = offset as usize;
                if offset >= bytes.len() {
                    Taken::End
                } else {
                    Taken::Bytes(copy_piece(bytes, offset, into))
                }
            }
        }
    }
}

// Copies what a file has from an offset on, as far as the buffer goes.
fn copy_piece(bytes: &[u8], offset: usize, into: &mut [u8]) -> usize
    requires some { 0 < length into.old }
    requires there { offset < length bytes.now }
    ensures within { (0 < result) × (result ≤ length into.new) × (offset + result ≤ length bytes.now) }
    ensures copied { take result into.new ≡ take result (drop offset bytes.now) }
{
    let count = into.len().min(bytes.len() - offset);
    into[..count].copy_from_slice(&bytes[offset..offset + count]);
    count
}
