// The tool check.
ghost use Rattle.std.specs.Prelude.{◌≡◌, ◌*◌, ◌<◌, ◌≤◌, ◌^◌, [], Err, IfErr, IfOk, IfSome, IsErrOf, OnErr, OnOk, length, map, unwrap_or};
ghost use Rattle.std.specs.List.{range_with_len};
ghost use Rattle.rv_outside.specs.Files.{Becomes};
ghost use Rattle.rv_outside.specs.Folder.{OnlyWrites};
ghost use Rattle.rv_outside.specs.Sink.{Says};
ghost use Rattle.rv_outside.specs.SureFolder.{sure_files};
ghost use Rattle.cell_base.specs.Raster.{most_cells};
ghost use Rattle.geo_transform.specs.Frame.{IsFrame};
ghost use Rattle.geo_transform.specs.declared.fault.FrameFault.TheVariants.{TooLarge};
ghost use Rattle.tool_words.specs.Check.{FitsCheck};
ghost use Rattle.tool_outcome.specs.Check.{check_lines, checked_frame, checked_grid, drawn_value, layer_job, next_number};
ghost use Rattle.tool_outcome.specs.Source.{text_of};
ghost use Rattle.tool_outcome.specs.Status.{status_of};
ghost use Rattle.tool_outcome.specs.declared.fault.Fault.TheVariants.{Frame as FrameOf};
ghost use Rattle.round_trip.specs.BackWords.{extent_of};
ghost use Rattle.round_trip.specs.Check.{burn_job};
ghost use Rattle.tool_run.specs.Causes.{HasCauses};
ghost use Rattle.tool_run.specs.Check.{CountsComponents, EndsCheck, HasChecked, IsCheckFault, LeavesChecked, with_back, with_grid};
ghost use Rattle.tool_run.specs.Inner.Checked.{HasBackPart, HasLayer, HasLayerPart, IsCutOff, OverGrid, OverLayer};
ghost use Rattle.tool_run.specs.Inner.Steps.{IsPartWritten, IsWriteFault};

use crate::burning::rasterize;
use crate::grid_file::write_dest;
use crate::message::say_counted;
use crate::polygons::polygonize;
use asc_grid::Asc;
use cell_base::{Grid, Mask};
use fixed_coord::Coord;
use geo_transform::{Extent, Frame, FrameFault};
use region_label::label;
use rv_outside::{Folder, Sink, SureFolder, Trouble, say};
use std::alloc::{AllocError, Global};
use tool_outcome::Fault;
use tool_words::{CheckJob, MaskFrom, Name, PolygonizeJob, RasterizeJob, SizeFrom, ValueFrom};

const GRID: &str = "grid.asc";

const LAYER: &str = "layer.csv";

const BACK: &str = "back.asc";

const FIELD: &str = "DN";

// The size of a cell, in units of 10^-10.
const ONE: i64 = 10_000_000_000;

// The number that the generator draws behind one: a linear congruence modulo 2^31.
fn next_number(number: u32) -> u32
    ensures value { result ≡ next_number number }
    ensures range { result < 2 ^ 31 }
{
    ((1_103_515_245 * u64::from(number) + 12_345) % 2_147_483_648) as u32
}

// The values of so many cells, in row order. The low 16 bits of a number are the poor ones.
fn draw_cells(alloc: Global, job: &CheckJob, count: usize) -> Result<Vec<i64>, AllocError>
    requires fits { FitsCheck job.now }
    requires few { count ≤ most_cells }
    ensures { IfOk result (λ cells. cells.items ≡ map (drawn_value job.now) (range_with_len 0 count)) }
{
    let mut cells = Vec::with_capacity(alloc, count)?;
    let mut number = job.seed;
    'cells: for _ in 0..count {
        number = next_number(number);
        cells.push(i64::from(number / 65_536 % job.values))?;
    }
    Ok(cells)
}

// The frame of the grid, unless it has too many cells.
fn frame_of(job: &CheckJob) -> Result<Frame, FrameFault>
    requires { FitsCheck job.now }
    ensures frame { IfOk result (λ frame. frame ≡ checked_frame job.now) }
    ensures few { OnOk result (job.now.width * job.now.height ≤ most_cells) }
    ensures many { IfErr result (λ fault. (most_cells < job.now.width * job.now.height)
        × (fault ≡ TooLarge (job.now.width * job.now.height))) }
{
    let corner = Coord::of_units(0);
    Frame::make(job.width, job.height, corner, corner, Coord::of_units(ONE))
}

// The grid.
fn make_grid(alloc: Global, job: &CheckJob, frame: Frame) -> Result<Asc<i64>, AllocError>
    requires fits { FitsCheck job.now }
    requires few { job.now.width * job.now.height ≤ most_cells }
    requires frame { frame ≡ checked_frame job.now }
    ensures { IfOk result (λ asc. asc ≡ checked_grid job.now) }
{
    let cells = draw_cells(alloc, job, job.width as usize * job.height as usize)?;
    Ok(Asc {
        frame,
        nodata: None,
        cells: Grid::from_cells(job.width, job.height, cells),
    })
}

// The number of a grid's components under side steps.
fn count_components(alloc: Global, asc: &Asc<i64>) -> Result<u32, AllocError>
    ensures { IfOk result (CountsComponents asc.now) }
{
    let valid = Mask::valid_of(alloc, &asc.cells, asc.nodata)?;
    let regions = label::<i64, false>(alloc, &asc.cells, &valid)?;
    Ok(regions.count())
}

// Makes the grid, writes its text, and says how many components it has.
fn write_grid<F: Folder>(
    alloc: Global,
    job: &CheckJob,
    frame: Frame,
    work: &mut F,
) -> Result<u32, Fault>
    requires fits { FitsCheck job.now }
    requires few { job.now.width * job.now.height ≤ most_cells }
    requires frame { frame ≡ checked_frame job.now }
    ensures count { IfOk result (CountsComponents (checked_grid job.now)) }
    ensures ok { OnOk result (Becomes (F.state work.old).files (F.state work.new).files (with_grid (text_of (checked_grid job.now)))) }
    ensures part { OnErr result (IsPartWritten (F.state work.old).files (F.state work.new).files layer_job.source
        (text_of (checked_grid job.now))) }
    ensures kind { IfErr result IsWriteFault }
    ensures leaves { OnlyWrites (IsErrOf result Fault.WriteFault) (F.state work.old) (F.state work.new) }
{
    let asc = make_grid(alloc, job, frame)?;
    let count = count_components(alloc, &asc)?;
    write_dest(alloc, work, GRID, &asc)?;
    Ok(count)
}

// The job of the grid's layer.
fn layer_job(alloc: Global) -> Result<PolygonizeJob, AllocError>
    ensures { IfOk result (λ job. job ≡ layer_job) }
{
    Ok(PolygonizeJob {
        source: Name::of(alloc, GRID)?,
        dest: Name::of(alloc, LAYER)?,
        field: Name::of(alloc, FIELD)?,
        eight: false,
        mask: MaskFrom::Nodata,
    })
}

// Polygonizes the grid.
fn write_layer<F: Folder>(alloc: Global, job: &CheckJob, work: &mut F) -> Result<(), Fault>
    requires fits { FitsCheck job.now }
    requires few { job.now.width * job.now.height ≤ most_cells }
    ensures ok { OnOk result (OverGrid job.now (F.state work.old).files (λ files. HasLayer job.now files (F.state work.new).files)) }
    ensures part { OnErr result (OverGrid job.now (F.state work.old).files (λ files. HasLayerPart job.now files (F.state work.new).files)) }
    ensures kind { IfErr result (λ fault. OverGrid job.now (F.state work.old).files (λ _. IsCutOff fault)) }
    ensures causes { HasCauses (status_of result) (F.state work.old) (F.state work.new) }
{
    let layer = layer_job(alloc)?;
    polygonize(alloc, &layer, work)
}

// The extent of a frame.
fn extent_of(frame: &Frame) -> Extent
    requires { IsFrame frame.now }
    ensures { result ≡ extent_of frame.now }
{
    let (xmin, ymin) = frame.corner(frame.nrows, 0);
    let (xmax, ymax) = frame.corner(0, frame.ncols);
    Extent {
        xmin,
        ymin,
        xmax,
        ymax,
    }
}

// The job that burns the layer back.
fn burn_job(alloc: Global, job: &CheckJob, frame: &Frame) -> Result<RasterizeJob, AllocError>
    requires fits { FitsCheck job.now }
    requires few { job.now.width * job.now.height ≤ most_cells }
    requires frame { frame.now ≡ checked_frame job.now }
    ensures { IfOk result (λ burn. burn ≡ burn_job job.now) }
{
    Ok(RasterizeJob {
        source: Name::of(alloc, LAYER)?,
        dest: Name::of(alloc, BACK)?,
        value: ValueFrom::Field(Name::of(alloc, FIELD)?),
        invert: false,
        touched: false,
        add: false,
        init: 0,
        nodata: None,
        extent: Some(extent_of(frame)),
        size: SizeFrom::Cells {
            ncols: job.width,
            nrows: job.height,
        },
        kind: job.kind,
    })
}

// Burns the layer back.
fn write_back<F: Folder>(
    alloc: Global,
    job: &CheckJob,
    frame: &Frame,
    work: &mut F,
) -> Result<(), Fault>
    requires fits { FitsCheck job.now }
    requires few { job.now.width * job.now.height ≤ most_cells }
    requires frame { frame.now ≡ checked_frame job.now }
    ensures ok { OnOk result (OverLayer job.now (F.state work.old).files
        (λ files. (F.state work.new).files ≡ Some (with_back job.now (text_of (checked_grid job.now)) files))) }
    ensures part { OnErr result (OverLayer job.now (F.state work.old).files (λ files. HasBackPart job.now files (F.state work.new).files)) }
    ensures kind { IfErr result (λ fault. OverLayer job.now (F.state work.old).files (λ _. IsCutOff fault)) }
    ensures causes { HasCauses (status_of result) (F.state work.old) (F.state work.new) }
{
    let burn = burn_job(alloc, job, frame)?;
    rasterize(alloc, &burn, work)
}

/// Makes the grid of a job and writes its text to `grid.asc` in the folder, polygonizes that file to `layer.csv` under side
/// steps, and burns that layer to `back.asc`, which has the bytes of `grid.asc` then. It answers the number of the grid's
/// components.
///
/// A grid of too many cells is refused before any call of the folder. Over a folder that tells its files the other faults are
/// those of the folder's calls and want of memory; they leave the files as they were, or one of the three with a first part of
/// its bytes, and those before it whole.
pub fn check_runs<F: Folder>(alloc: Global, job: &CheckJob, work: &mut F) -> Result<u32, Fault>
    requires { FitsCheck job.now }
    ensures count { IfOk result (CountsComponents (checked_grid job.now)) }
    ensures files { OnOk result (IfSome (F.state work.old).files (λ files. HasChecked job.now files (F.state work.new).files)) }
    ensures part { OnErr result (IfSome (F.state work.old).files (λ files. LeavesChecked job.now files (F.state work.new).files)) }
    ensures kind { IfErr result (λ fault. IfSome (F.state work.old).files (λ _. IsCheckFault job.now fault)) }
    ensures few { OnOk result (job.now.width * job.now.height ≤ most_cells) }
    ensures many { most_cells < job.now.width * job.now.height
        → (result ≡ Err (FrameOf (TooLarge (job.now.width * job.now.height)))) × (work.new ≡ work.old) }

    // Each fault of the folder has its cause, and no call that failed is passed over.
    ensures causes { HasCauses (status_of result) (F.state work.old) (F.state work.new) }
{
    let frame = match frame_of(job) {
        Ok(frame) => frame,
        Err(fault) => return Err(Fault::Frame(fault)),
    };
    let count = write_grid(alloc, job, frame, work)?;
    write_layer(alloc, job, work)?;
    write_back(alloc, job, &frame, work)?;
    Ok(count)
}

// Hands the lines of check to standard output, piece by piece, so that they take no memory.
fn say_lines<O: Sink>(out: &mut O, cells: u64, polygons: u64, bytes: u64) -> Result<(), Trouble>
    ensures { Says (check_lines cells polygons bytes) result (O.state out.old) (O.state out.new) }
{
    say_counted(out, "cells ", cells)?;
    say_counted(out, "polygons ", polygons)?;
    say_counted(out, "layer ", bytes)?;
    say(out, b"same\n")
}

// The length of a file in bytes, and 0 where there is none.
fn length_of(folder: &SureFolder, name: &str) -> u64
    ensures { result ≡ length (unwrap_or (sure_files folder.now name.now) []) }
{
    match folder.file(name) {
        Some(bytes) => bytes.len() as u64,
        None => 0,
    }
}

/// Does the runs of check in a folder in memory of its own, and prints what came of them.
pub(crate) fn check<O: Sink>(alloc: Global, job: &CheckJob, out: &mut O) -> Result<(), Fault>
    requires { FitsCheck job.now }
    ensures { EndsCheck job.now result (O.state out.old) (O.state out.new) }
{
    let mut work = SureFolder::new(alloc);
    let polygons = check_runs(alloc, job, &mut work)?;
    let cells = u64::from(job.width) * u64::from(job.height);
    let bytes = length_of(&work, LAYER);
    say_lines(out, cells, u64::from(polygons), bytes)?;
    Ok(())
}
