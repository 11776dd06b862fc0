// Real files. What they hold is not told.
ghost use Rattle.std.specs.Prelude.{◌≡◌, ◌↔◌, ◌≤◌, None, IfOk, IsTrue, length};
ghost use Rattle.std.specs.String.{string_bytes};

use crate::causes::raise;
use crate::host::{
    Refusal, create_answer, move_to, read_answer, read_once, refusal_of, write_answer, write_once,
};
use crate::{Folder, Taken, Trouble};
use std::alloc::Global;
use std::fs::{File, OpenOptions};
use std::rt::Files;

#[derive(Clone, Copy, PartialEq, Eq)]
enum Way {
    Reading,
    Appending,
}

// A file that is open, and where it stands.
#[derive(Drop)]
struct OpenFile<F> {
    name: String,
    way: Way,
    offset: u64,
    file: F,
}

impl<F> OpenFile<F> {
    // Whether it was opened under this name and in this way.
    fn serves(&self, name: &str, way: Way) -> bool
        ensures { IsTrue result ↔ ((string_bytes self.now.name ≡ name.now) × (self.now.way ≡ way)) }
    {
        self.way == way && self.name.as_str() == name
    }
}

// The system's files, of which the one used last stays open. A refusal closes it, and the next call opens it
// again.
#[derive(Drop)]
struct HostFiles<R: Files> {
    rt: R,
    alloc: Global,
    last: Option<OpenFile<R::File>>,
}

impl<R: Files> HostFiles<R> {
    // The file of this name, open in this way: the one used last, where it is that, and else opened anew.
    fn opened(&mut self, name: &str, way: Way) -> Result<OpenFile<R::File>, Refusal>
        ensures named { IfOk result (λ file. string_bytes file.name ≡ name.now) }
        ensures way { IfOk result (λ file. file.way ≡ way) }
    {
        if let Some(open) = self.last.take() {
            if open.serves(name, way) {
                return Ok(open);
            }
        }
        let file = match way {
            Way::Reading => File::open(&self.rt, name),
            Way::Appending => OpenOptions::new().append(true).open(&self.rt, name),
        };
        let file = file.map_err(refusal_of)?;
        self.named(name, way, file)
    }

    fn named(&self, name: &str, way: Way, file: R::File) -> Result<OpenFile<R::File>, Refusal>
        ensures named { IfOk result (λ file. string_bytes file.name ≡ name.now) }
        ensures way { IfOk result (λ file. file.way ≡ way) }
        ensures file { IfOk result (λ it. it.file ≡ file) }
    {
        let name = String::from_str(self.alloc, name).map_err(|_| Refusal::NoMemory)?;
        Ok(OpenFile {
            name,
            way,
            offset: 0,
            file,
        })
    }

    // Moves only where the file stands elsewhere, so that a pipe can be read from its start on.
    fn read_at(&mut self, name: &str, offset: u64, into: &mut [u8]) -> Result<usize, Refusal>
        ensures { IfOk result (λ n. n ≤ length into.new) }
    {
        let mut open = self.opened(name, Way::Reading)?;
        if open.offset != offset {
            move_to(&mut open.file, offset)?;
        }
        let count = read_once(&mut open.file, into)?;
        open.offset = offset.saturating_add(count as u64);
        self.last = Some(open);
        Ok(count)
    }

    fn create(&mut self, name: &str) -> Result<(), Refusal> {
        self.last = None;
        let file = File::create(&self.rt, name).map_err(refusal_of)?;
        self.last = Some(self.named(name, Way::Appending, file)?);
        Ok(())
    }

    fn append(&mut self, name: &str, piece: &[u8]) -> Result<usize, Refusal>
        ensures { IfOk result (λ n. n ≤ length piece.now) }
    {
        let mut open = self.opened(name, Way::Appending)?;
        let count = write_once(&mut open.file, piece)?;
        self.last = Some(open);
        Ok(count)
    }
}

/// The system's files, by the names that the program is given. The file used last stays open.
#[derive(Drop)]
pub struct HostFolder<R: Files> {
    files: HostFiles<R>,
    read_faults: u64,
    write_faults: u64,
    missing: u64,
}

impl<R: Files> HostFolder<R> {
    /// A folder over the files of this runtime, whose counts are 0. It takes no memory.
    pub fn new(rt: R, alloc: Global) -> HostFolder<R>
        ensures readable { (⟦<HostFolder<R> as Folder>⟧.state result).read_faults ≡ 0 }
        ensures writable { (⟦<HostFolder<R> as Folder>⟧.state result).write_faults ≡ 0 }
        ensures found { (⟦<HostFolder<R> as Folder>⟧.state result).missing ≡ 0 }
    {
        HostFolder {
            files: HostFiles {
                rt,
                alloc,
                last: None,
            },
            read_faults: 0,
            write_faults: 0,
            missing: 0,
        }
    }
}

impl<R: Files> Folder for HostFolder<R> {
    ghost state = { λ s. record {
      files = None;
      read_faults = s.read_faults;
      write_faults = s.write_faults;
      missing = s.missing;
    } };

    fn read_at(&mut self, name: &str, offset: u64, into: &mut [u8]) -> Result<Taken, Trouble> {
        let answer = read_answer(self.files.read_at(name, offset, into));
        match answer {
            Err(Trouble::Failed) => raise(&mut self.read_faults),
            Ok(Taken::Missing) => raise(&mut self.missing),
            _ => (),
        }
        answer
    }

    fn create(&mut self, name: &str) -> Result<(), Trouble> {
        let answer = create_answer(self.files.create(name));
        if answer == Err(Trouble::Failed) {
            raise(&mut self.write_faults);
        }
        answer
    }

    fn append(&mut self, name: &str, piece: &[u8]) -> Result<usize, Trouble> {
        let answer = write_answer(self.files.append(name, piece));
        if answer == Err(Trouble::Failed) {
            raise(&mut self.write_faults);
        }
        answer
    }
}
