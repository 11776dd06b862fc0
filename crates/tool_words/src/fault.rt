// Why words have no job.
use std::alloc::AllocError;
use thiserror::Error;

/// What is wrong with a word.
#[derive(Clone, Copy, Debug, PartialEq, Eq)]
pub enum WordKind {
    /// There is no word.
    NoTool,
    /// The first word isn't a tool's name.
    UnknownTool,
    /// The tool has no such option.
    UnknownOption,
    /// Fewer words follow an option than it takes.
    MissingValue,
    /// A value or a name isn't in its form.
    BadValue,
    /// A name that must be there isn't.
    MissingName,
    /// A name behind all of the tool's names.
    ExtraWord,
    /// Options that don't go together.
    Combination,
}

/// Why words have no job.
#[derive(Clone, Copy, Debug, Error)]
pub enum WordFault {
    /// The first fault, and the place of its word, counted from 1; one past the last word where none is at fault.
    #[error("no job")]
    At { kind: WordKind, place: u64 },
    /// Memory ran out.
    #[error("out of memory")]
    NoMemory,
}

impl From<AllocError> for WordFault {
    ghost use Rattle.std.specs.Prelude.{◌≡◌};
    ghost use Rattle.tool_words.specs.declared.fault.WordFault.TheVariants.{NoMemory};

    ghost from_gives = { λ _ fault. fault ≡ NoMemory };

    fn from(_: AllocError) -> WordFault {
        WordFault::NoMemory
    }
}
