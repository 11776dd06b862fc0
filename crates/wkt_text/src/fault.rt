// Why a text is refused.
use std::alloc::AllocError;
use thiserror::Error;

/// What is wrong where a text stops being a geometry.
#[derive(Clone, Copy, Debug, PartialEq, Eq)]
pub enum WktKind {
    /// The first token isn't one of the six kinds.
    UnknownKind,
    /// A third number in a point, or a mark of more than two dimensions.
    Dimension,
    /// The grammar doesn't allow this token, or the end, here.
    Syntax,
    /// It isn't a number text.
    BadNumber,
    /// No coordinate is so far from zero.
    OutOfRange,
    /// A ring of fewer than four points.
    ShortRing,
    /// A ring whose last point isn't its first.
    OpenRing,
}

/// Why no geometry is read of a text.
#[derive(Clone, Copy, Debug, Error)]
pub enum WktFault {
    /// The first offence, and the number of its first byte, counted from 1.
    #[error("no geometry")]
    At { kind: WktKind, byte: u64 },
    /// Memory ran out.
    #[error("out of memory")]
    NoMemory,
}

// Why reading stops: at an offence, where the cursor is left, or for want of memory.
#[derive(Clone, Copy)]
pub(crate) enum Refusal {
    Offence(WktKind),
    NoMemory,
}

impl From<AllocError> for Refusal {
    ghost use Rattle.std.specs.Prelude.{◌≡◌};
    ghost use Rattle.wkt_text.specs.declared.fault.Refusal.TheVariants.{NoMemory};

    ghost from_gives = { λ _ refusal. refusal ≡ NoMemory };

    fn from(_: AllocError) -> Refusal {
        Refusal::NoMemory
    }
}
