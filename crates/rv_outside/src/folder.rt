// A folder of files.
ghost use Rattle.std.specs.Prelude.{◌<◌, length, IfSome, IsSome};
ghost use Rattle.rv_outside.specs.Folder.{FolderState, ReadsAt, Creates, AppendsTo};

/// Why a call did not do what it was asked to.
#[derive(Clone, Copy, Debug, PartialEq, Eq)]
pub enum Trouble {
    /// The outside refused.
    Failed,
    /// Memory ran out.
    NoMemory,
}

/// What a read took.
#[derive(Clone, Copy, Debug, PartialEq, Eq)]
pub enum Taken {
    /// So many bytes, at least one.
    Bytes(usize),
    /// None, since the file ends at or before the offset.
    End,
    /// None, since nothing has the name.
    Missing,
}

/// A folder of files by name.
///
/// `state` has the files, where the folder tells them, and three counts. A folder that tells its files before
/// a call tells them after it. `read_faults` rises by one exactly where a read answers `Failed`,
/// `write_faults` where another call does, and `missing` where a read answers `Missing`; each stands still at
/// the last value of a `u64`.
pub trait Folder {
    ghost state: { Self → FolderState };

    /// Reads bytes of the file from an offset on. `Missing` comes only where nothing has the name, `End`
    /// only where the file ends at or before the offset. The files stay as they are.
    fn read_at(&mut self, name: &str, offset: u64, into: &mut [u8]) -> Result<Taken, Trouble>
        requires { 0 < length into.old }
        ensures { ReadsAt name.now offset into.new result (state self.old) (state self.new) };

    /// Makes the file, or empties the one that is there. After an error it is empty or as before.
    fn create(&mut self, name: &str) -> Result<(), Trouble>
        ensures { Creates name.now result (state self.old) (state self.new) };

    /// Adds the first bytes of a piece at the end of the file, at least one, and says how many. After an
    /// error nothing was added.
    fn append(&mut self, name: &str, piece: &[u8]) -> Result<usize, Trouble>
        requires some { 0 < length piece.now }
        requires there { IfSome (state self.old).files (λ files. IsSome (files name.now)) }
        ensures { AppendsTo name.now piece.now result (state self.old) (state self.new) };
}
