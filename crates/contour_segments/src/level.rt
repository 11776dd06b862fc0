ghost use Rattle.std.specs.Prelude.{◌≡◌, ◌<◌, ◌≤◌, ◌++◌, ℕ, ℤ, IfOk, List, OnOk, length, map};
ghost use Rattle.std.specs.List.{range_with_len};
ghost use Rattle.contour_segments.specs.Levels.{AreLevels, HasPositiveInterval, IsRange, most_levels};
ghost use Rattle.contour_segments.specs.declared.level.LevelFault.TheVariants.{TooMany};
ghost use Rattle.contour_segments.specs.Inner.Series.{AreOthers, AreSpaced, IsSeries, level_at};

use crate::lists::LevelList;
use crate::series::{NO_LEVELS, Series};
use cell_base::Micro;
use std::alloc::{AllocError, Global};
use thiserror::Error;

// More levels than these are refused.
const MOST: u64 = 65_536;

/// Which levels are asked for.
#[derive(Drop)]
pub struct LevelSpec {
    /// The distance between two levels, if levels at a distance are asked for.
    pub interval: Option<Micro>,
    /// A number that the interval counts from.
    pub offset: Micro,
    /// Levels that are asked for besides.
    pub fixed: LevelList,
}

/// Why there is no list of levels.
#[derive(Clone, Copy, Debug, Error)]
pub enum LevelFault {
    /// There are more than 65,536 levels: so many.
    #[error("too many levels")]
    TooMany(u64),
    /// Memory ran out.
    #[error("out of memory")]
    NoMemory,
}

impl From<AllocError> for LevelFault {
    ghost use Rattle.std.specs.Prelude.{◌≡◌};
    ghost use Rattle.contour_segments.specs.declared.level.LevelFault.TheVariants.{NoMemory};

    ghost from_gives = { λ _ fault. fault ≡ NoMemory };

    fn from(_: AllocError) -> LevelFault {
        LevelFault::NoMemory
    }
}

// The levels at the interval.
fn spaced(spec: &LevelSpec, range: Option<(Micro, Micro)>) -> Series
    requires interval { HasPositiveInterval spec.now }
    ensures series { IsSeries result }
    ensures levels { AreSpaced spec.now range result }
{
    match (spec.interval, range) {
        (Some(interval), Some((low, high))) => Series::between(interval, spec.offset, low, high),
        _ => NO_LEVELS,
    }
}

// The fixed levels that aren't at the interval, each once. The only error is want of memory.
fn others(alloc: Global, fixed: &[Micro], series: Series) -> Result<Vec<Micro>, AllocError>
    requires { IsSeries series }
    ensures { IfOk result (λ others. AreOthers fixed.now series others.items) }
{
    let mut others = Vec::new(alloc);
    for level in fixed {
        if !series.contains(*level) {
            others.push(*level)?;
        }
    }
    others.sort()?;
    others.dedup();
    Ok(others)
}

// Adds the levels of a series. The only error is want of memory.
fn push_all(series: Series, levels: &mut Vec<Micro>) -> Result<(), AllocError>
    requires { IsSeries series }
    ensures { OnOk result (levels.new.items ≡ levels.old.items ++ map (level_at series) (range_with_len 0 series.count)) }
{
    for k in 0..series.count {
        levels.push(series.at(k))?;
    }
    Ok(())
}

/// The levels that are asked for, of a grid whose valid values lie between these two, in ascending order. `TooMany`
/// with their number exactly where they are more than 65,536; else the only error is want of memory.
pub fn levels(
    alloc: Global,
    spec: &LevelSpec,
    range: Option<(Micro, Micro)>,
) -> Result<LevelList, LevelFault>
    requires interval { HasPositiveInterval spec.now }
    requires range { IsRange range }
    ensures levels { IfOk result (λ levels. AreLevels spec.now range levels) }
    ensures few { IfOk result (λ levels. length levels ≤ most_levels) }
    ensures many { (count : ℕ) → result ≡ Err (TooMany count) → (most_levels < count) × ((asked : List ℤ) × AreLevels spec.now range asked × (length asked ≡ count)) }
{
    let series = spaced(spec, range);
    let mut levels = others(alloc, spec.fixed.as_slice(), series)?;
    let count = series.count + levels.len() as u64;
    if count > MOST {
        return Err(LevelFault::TooMany(count));
    }
    push_all(series, &mut levels)?;
    levels.sort()?;
    Ok(LevelList::of(levels))
}
