// Why a tool did not do its job.
use asc_grid::GridFault;
use contour_segments::LevelFault;
use geo_transform::FrameFault;
use ogr_csv::LayerFault;
use rv_outside::{FetchFault, Trouble};
use std::alloc::AllocError;
use thiserror::Error;

/// What a file is to a tool.
#[derive(Clone, Copy, Debug, PartialEq, Eq)]
pub enum Role {
    Source,
    Mask,
}

/// Why a tool did not do its job. Want of memory of any call is `NoMemory`.
#[derive(Clone, Copy, Debug, Error)]
pub enum Fault {
    /// No file has the name.
    #[error("no such file")]
    Missing(Role),
    /// A read failed.
    #[error("read failed")]
    ReadFault(Role),
    /// The text has no grid.
    #[error("no grid")]
    Grid(Role, GridFault),
    /// More levels are asked for than are drawn: so many.
    #[error("too many levels")]
    TooManyLevels(u64),
    /// The text or one of its records is refused as a layer.
    #[error("no layer")]
    Layer(LayerFault),
    /// The record of this number is of points or lines.
    #[error("not a polygon")]
    NotPolygon(u64),
    /// No extent was asked for, and the layer has no point.
    #[error("no extent")]
    NoExtent,
    /// The extent and the size make no frame.
    #[error("no frame")]
    Frame(FrameFault),
    /// The destination could not be made, or a write to it or to standard output failed.
    #[error("write failed")]
    WriteFault,
    /// Memory ran out.
    #[error("out of memory")]
    NoMemory,
}

impl From<AllocError> for Fault {
    ghost use Rattle.std.specs.Prelude.{◌≡◌};
    ghost use Rattle.tool_outcome.specs.declared.fault.Fault.TheVariants.{NoMemory};

    ghost from_gives = { λ _ fault. fault ≡ NoMemory };

    fn from(_: AllocError) -> Fault {
        Fault::NoMemory
    }
}

// The only file that is read whole so far is the source.
impl From<FetchFault> for Fault {
    ghost use Rattle.std.specs.Prelude.{◌≡◌};
    ghost use Rattle.tool_outcome.specs.Fault.{of_fetch};

    ghost from_gives = { λ fetch fault. fault ≡ of_fetch fetch };

    fn from(fetch: FetchFault) -> Fault {
        match fetch {
            FetchFault::Missing => Fault::Missing(Role::Source),
            FetchFault::Fault => Fault::ReadFault(Role::Source),
            FetchFault::NoMemory => Fault::NoMemory,
        }
    }
}

// And the only text that is read as a grid.
impl From<GridFault> for Fault {
    ghost use Rattle.std.specs.Prelude.{◌≡◌};
    ghost use Rattle.tool_outcome.specs.Fault.{of_grid};

    ghost from_gives = { λ grid fault. fault ≡ of_grid grid };

    fn from(grid: GridFault) -> Fault {
        match grid {
            GridFault::At { .. } => Fault::Grid(Role::Source, grid),
            GridFault::NoMemory => Fault::NoMemory,
        }
    }
}

// And the only text that is read as a layer.
impl From<LayerFault> for Fault {
    ghost use Rattle.std.specs.Prelude.{◌≡◌};
    ghost use Rattle.tool_outcome.specs.Fault.{of_layer};

    ghost from_gives = { λ layer fault. fault ≡ of_layer layer };

    fn from(layer: LayerFault) -> Fault {
        match layer {
            LayerFault::NoMemory => Fault::NoMemory,
            _ => Fault::Layer(layer),
        }
    }
}

// Trouble comes here from the destination, and from what check prints to.
impl From<Trouble> for Fault {
    ghost use Rattle.std.specs.Prelude.{◌≡◌};
    ghost use Rattle.tool_outcome.specs.Fault.{of_write};

    ghost from_gives = { λ trouble fault. fault ≡ of_write trouble };

    fn from(trouble: Trouble) -> Fault {
        match trouble {
            Trouble::Failed => Fault::WriteFault,
            Trouble::NoMemory => Fault::NoMemory,
        }
    }
}

impl From<LevelFault> for Fault {
    ghost use Rattle.std.specs.Prelude.{◌≡◌};
    ghost use Rattle.tool_outcome.specs.Fault.{of_levels};

    ghost from_gives = { λ levels fault. fault ≡ of_levels levels };

    fn from(levels: LevelFault) -> Fault {
        match levels {
            LevelFault::TooMany(count) => Fault::TooManyLevels(count),
            LevelFault::NoMemory => Fault::NoMemory,
        }
    }
}
