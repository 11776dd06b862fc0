// The tool gdal_contour.
ghost use Rattle.std.specs.Prelude.{◌≡◌, ◌≤◌, ◌++◌, IfErr, IfOk, IfSome, IsErrOf, OnErr, OnOk, length, slice_get};
ghost use Rattle.std.specs.Option.{option_to_list};
ghost use Rattle.rv_outside.specs.Files.{Becomes, with_file};
ghost use Rattle.rv_outside.specs.Folder.{OnlyWrites};
ghost use Rattle.contour_segments.specs.Levels.{HasPositiveInterval, most_levels};
ghost use Rattle.cell_base.specs.Raster.{AreAligned};
ghost use Rattle.tool_outcome.specs.Contour.{AreLevelsOf, IsRangeOf, IsValueOf, spec_of};
ghost use Rattle.tool_outcome.specs.Outcome.{CanBeDone, Does, LeavesPart};
ghost use Rattle.tool_outcome.specs.Sieve.{IsMaskOf};
ghost use Rattle.tool_outcome.specs.Status.{IsDecided, status_of};
ghost use Rattle.tool_run.specs.Causes.{HasCauses};
ghost use Rattle.tool_run.specs.Inner.Contours.{contour_text};
ghost use Rattle.tool_run.specs.Inner.Ranges.{IsLevelFault, Passes, widened};
ghost use Rattle.tool_run.specs.Inner.Steps.{IsOverFrame, IsPartWritten, IsWriteFault};

use crate::drawing::{ContourText, Drawing};
use crate::grid_file::read_source;
use crate::pieces::write_text;
use asc_grid::Asc;
use cell_base::{Grid, Mask, Micro};
use contour_segments::{LevelList, LevelSpec, SegmentTable, levels};
use rv_outside::Folder;
use std::alloc::{AllocError, Global};
use tool_outcome::{Fault, Status};
use tool_words::{ContourJob, Job, MicroList};

// The range of some values and one more.
fn widened(range: Option<(Micro, Micro)>, value: Micro) -> Option<(Micro, Micro)>
    ensures { result ≡ widened range value }
{
    match range {
        None => Some((value, value)),
        Some((low, high)) => Some((
            if low <= value { low } else { value },
            if value <= high { high } else { value },
        )),
    }
}

// The range of some values and that of a cell, if the cell is valid.
fn with_cell(
    range: Option<(Micro, Micro)>,
    nodata: &Option<Micro>,
    value: Micro,
) -> Option<(Micro, Micro)>
    ensures { Passes nodata.now value range result }
{
    match nodata {
        Some(nodata) if *nodata == value => range,
        _ => widened(range, value),
    }
}

// The lowest and the highest value of the valid cells, if there are any.
fn range_of(cells: &Grid<Micro>, nodata: &Option<Micro>) -> Option<(Micro, Micro)>
    ensures { IsRangeOf (IsValueOf cells.now nodata.now) result }
{
    let mut range = None;
    'rows: for row in 0..cells.nrows() {
        'cols: for col in 0..cells.ncols() {
            range = with_cell(range, nodata, cells.get(row, col));
        }
    }
    range
}

// Adds the fixed level at an index. The only error is want of memory.
fn add_level(fixed: &MicroList, i: usize, levels: &mut LevelList) -> Result<(), AllocError>
    ensures { OnOk result (levels.new ≡ levels.old ++ option_to_list (slice_get fixed.now i)) }
{
    let Some(level) = fixed.get(i) else {
        return Ok(());
    };
    levels.push(*level)?;
    Ok(())
}

// Which levels a job asks for.
fn spec_of(alloc: Global, job: &ContourJob) -> Result<LevelSpec, AllocError>
    ensures { IfOk result (λ spec. spec ≡ spec_of job.now) }
{
    let mut fixed = LevelList::new(alloc);
    'levels: for i in 0..job.fixed.len() {
        add_level(&job.fixed, i, &mut fixed)?;
    }
    Ok(LevelSpec {
        interval: job.interval,
        offset: job.offset,
        fixed,
    })
}

// The levels of a grid, unless they are too many.
fn levels_of(alloc: Global, job: &ContourJob, asc: &Asc<Micro>) -> Result<LevelList, Fault>
    requires interval { HasPositiveInterval (spec_of job.now) }
    ensures levels { IfOk result (AreLevelsOf job.now asc.now) }
    ensures few { IfOk result (λ levels. length levels ≤ most_levels) }
    ensures fault { IfErr result (IsLevelFault job.now asc.now) }
{
    let spec = spec_of(alloc, job)?;
    let range = range_of(&asc.cells, &asc.nodata);
    let levels = levels(alloc, &spec, range)?;
    Ok(levels)
}

// The valid cells of a grid.
fn valid_of(alloc: Global, asc: &Asc<Micro>) -> Result<Mask, AllocError>
    ensures { IfOk result (IsMaskOf asc.now) }
{
    let valid = Mask::valid_of(alloc, &asc.cells, asc.nodata)?;
    // A proof learns the shapes from these calls.
    let _sizes = (asc.cells.ncols(), valid.ncols());
    Ok(valid)
}

// Makes the destination and writes the contour lines of these levels to it.
fn write_lines<F: Folder>(
    alloc: Global,
    folder: &mut F,
    job: &ContourJob,
    asc: &Asc<Micro>,
    valid: &Mask,
    levels: &LevelList,
) -> Result<(), Fault>
    requires over { IsOverFrame asc.now }
    requires aligned { AreAligned asc.now.cells valid.now }
    requires few { length levels.now ≤ most_levels }
    ensures ok { OnOk result (Becomes (F.state folder.old).files (F.state folder.new).files (with_file job.now.dest (contour_text job.now asc.now valid.now levels.now))) }
    ensures part { OnErr result (IsPartWritten (F.state folder.old).files (F.state folder.new).files job.now.dest (contour_text job.now asc.now valid.now levels.now)) }
    ensures kind { IfErr result IsWriteFault }
    ensures leaves { OnlyWrites (IsErrOf result Fault.WriteFault) (F.state folder.old) (F.state folder.new) }
{
    let table = SegmentTable::build(alloc, &asc.cells, valid)?;
    let drawing = Drawing {
        job,
        asc,
        levels,
        table,
    };
    let mut text = ContourText::of(alloc, &drawing);
    write_text(alloc, folder, job.dest.as_str(), &mut text)
}

/// Writes the contour lines of the source to a layer.
///
/// A fault leaves the files as they were, or, where the job would have been done, a first part of the
/// destination's bytes.
pub fn contour<F: Folder>(alloc: Global, job: &ContourJob, folder: &mut F) -> Result<(), Fault>
    requires interval { HasPositiveInterval (spec_of job.now) }
    ensures outcome { IsDecided (status_of result) → IfSome (F.state folder.old).files
        (λ files. Does (Job.Contour job.now) files result (F.state folder.new).files) }
    ensures part { OnErr result (IfSome (F.state folder.old).files
        (λ files. LeavesPart (Job.Contour job.now) files (F.state folder.new).files)) }

    // Each fault of the folder has its cause, and no call that failed is passed over.
    ensures causes { HasCauses (status_of result) (F.state folder.old) (F.state folder.new) }
    ensures read_same { status_of result ≡ Status.ReadFault → (F.state folder.new).files ≡ (F.state folder.old).files }
    ensures write_done { status_of result ≡ Status.WriteFault → IfSome (F.state folder.old).files (CanBeDone (Job.Contour job.now)) }
{
    let asc = read_source::<F, Micro>(alloc, folder, job.source.as_str())?;
    let levels = levels_of(alloc, job, &asc)?;
    let valid = valid_of(alloc, &asc)?;
    write_lines(alloc, folder, job, &asc, &valid, &levels)?;
    Ok(())
}
