// How a run ends.
ghost use Rattle.std.specs.Prelude.{◌≡◌};
ghost use Rattle.tool_outcome.specs.Status.{number_of};

/// How a run of the program ended.
#[derive(Clone, Copy, Debug, PartialEq, Eq)]
pub enum Status {
    /// The job was done.
    Done,
    /// The words were refused.
    Usage,
    /// A source's bytes were refused.
    BadInput,
    /// No file has the source's name.
    Missing,
    /// A read failed.
    ReadFault,
    /// The destination could not be made, or a write to it or to standard output failed.
    WriteFault,
    /// Memory ran out.
    NoMemory,
    /// A frame has too many cells.
    TooLarge,
}

impl Status {
    /// The number that the program ends with, from 0 for `Done` on.
    pub fn number(self) -> u8
        ensures { result ≡ number_of self }
    {
        match self {
            Status::Done => 0,
            Status::Usage => 1,
            Status::BadInput => 2,
            Status::Missing => 3,
            Status::ReadFault => 4,
            Status::WriteFault => 5,
            Status::NoMemory => 6,
            Status::TooLarge => 7,
        }
    }
}
