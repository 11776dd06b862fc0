// A run of the whole program over words and files in memory, and what it gave.
use rv_outside::{MemoryFolder, MemorySink};
use std::alloc::{AllocError, Global};
use tool_run::{Status, Words, run};

pub const GRID: &[u8] = b"ncols 3\nnrows 2\nxllcorner 0\nyllcorner 0\ncellsize 1\n1 1 2\n1 2 2\n";

// A land cover grid as GDAL writes it.
pub const LAND_COVER: &[u8] =
    b"ncols        6\nnrows        3\nxllcorner    500000.000000000000\nyllcorner    5400000.000000000000\ncellsize     30.000000000000\nNODATA_value  -9999\n 11 11 41 41 41 -9999\n 11 11 41 82 41 -9999\n 11 21 21 21 21 21\n";

// What a run gave.
#[derive(Drop)]
pub struct Ran {
    pub status: Status,
    folder: MemoryFolder,
    out: MemorySink,
    err: MemorySink,
}

impl Ran {
    pub fn has(&self, name: &str, bytes: Option<&[u8]>) -> bool {
        self.folder.file(name) == bytes
    }

    pub fn into_folder(self) -> MemoryFolder {
        self.folder
    }

    pub fn said(&self, line: &[u8]) -> bool {
        self.err.bytes() == line && self.out.bytes().is_empty()
    }

    pub fn printed(&self, text: &[u8]) -> bool {
        self.out.bytes() == text && self.err.bytes().is_empty()
    }
}

pub fn words_of(alloc: Global, given: &[&str], more: &[&str]) -> Result<Words, AllocError> {
    let mut words = Words::new(alloc);
    for word in given {
        words.push(word)?;
    }
    for word in more {
        words.push(word)?;
    }
    Ok(words)
}

// A run over these words, and more behind them.
pub fn run_with(
    alloc: Global,
    given: &[&str],
    more: &[&str],
    folder: MemoryFolder,
    err: MemorySink,
) -> Result<Ran, AllocError> {
    let words = words_of(alloc, given, more)?;
    run_into(alloc, &words, folder, MemorySink::new(alloc), err)
}

// A run that prints to `out`.
pub fn run_into(
    alloc: Global,
    words: &Words,
    mut folder: MemoryFolder,
    mut out: MemorySink,
    mut err: MemorySink,
) -> Result<Ran, AllocError> {
    let status = run(alloc, words, &mut folder, &mut out, &mut err);
    Ok(Ran {
        status,
        folder,
        out,
        err,
    })
}

pub fn run_over(alloc: Global, given: &[&str], folder: MemoryFolder) -> Result<Ran, AllocError> {
    run_with(alloc, given, &[], folder, MemorySink::new(alloc))
}

pub fn folder_with(alloc: Global, source: &[u8]) -> Result<MemoryFolder, AllocError> {
    let mut folder = MemoryFolder::new(alloc);
    folder.put_file("src.asc", source)?;
    Ok(folder)
}
