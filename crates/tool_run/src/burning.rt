// The tool gdal_rasterize.
ghost use Rattle.std.specs.Prelude.{◌≡◌, ◌&&◌, true, int_lt, pos, IfErr, IfOk, IfSome, IsErrOf, OnErr, OnOk, option_map};
ghost use Rattle.std.specs.Option.{option_or};
ghost use Rattle.cell_base.specs.Clamped.{clamped};
ghost use Rattle.geo_transform.specs.Frame.{IsFrame};
ghost use Rattle.rv_outside.specs.Files.{Becomes, with_file};
ghost use Rattle.rv_outside.specs.Folder.{OnlyWrites};
ghost use Rattle.tool_outcome.specs.Features.{field_of, first_other, has_points_or_lines};
ghost use Rattle.tool_outcome.specs.LayerExtent.{layer_extent};
ghost use Rattle.tool_outcome.specs.Outcome.{CanBeDone, Does, LeavesPart};
ghost use Rattle.tool_outcome.specs.Rasterize.{frame_in, rasterize_text};
ghost use Rattle.tool_outcome.specs.Status.{IsDecided, status_of};
ghost use Rattle.tool_run.specs.Causes.{HasCauses, IsToolFault};
ghost use Rattle.tool_run.specs.Inner.Steps.{IsPartWritten, IsWriteFault};
ghost use Rattle.tool_run.specs.Inner.Strokes.{IsFrameFault, IsKind, IsOver};

use crate::burned_cells::{burned_cells, cell_of};
use crate::layer_extent::extent_of;
use crate::layer_file::read_layer;
use crate::pieces::write_text;
use asc_grid::{Asc, GridText};
use cell_base::{Cell, CellKind};
use fixed_coord::Coord;
use geo_transform::{Extent, Frame, FrameFault};
use ogr_csv::Feature;
use rv_outside::Folder;
use std::alloc::Global;
use tool_outcome::{Fault, Status};
use tool_words::{Job, RasterizeJob, SizeFrom, ValueFrom};
use wkt_text::Geometry;

// The name of the attribute that is asked for, if one is.
fn field_of(value: &ValueFrom) -> Option<&str>
    ensures { option_map (λ name. name.now) result ≡ field_of value.now }
{
    match value {
        ValueFrom::Burn(_) => None,
        ValueFrom::Field(name) => Some(name.as_str()),
    }
}

// Whether a geometry is points or lines, and not EMPTY.
fn has_points_or_lines(g: &Option<Geometry>) -> bool
    ensures { result ≡ has_points_or_lines g.now }
{
    match g {
        None => false,
        Some(Geometry::Point(path)) => !path.is_empty(),
        Some(Geometry::LineString(path)) => !path.is_empty(),
        Some(Geometry::Polygon(_)) => false,
        Some(Geometry::MultiPoint(path)) => !path.is_empty(),
        Some(Geometry::MultiLineString(paths)) => !paths.is_empty(),
        Some(Geometry::MultiPolygon(_)) => false,
    }
}

// The number of the first record that isn't a polygon, if there is one.
fn first_other(features: &[Feature]) -> Option<u64>
    ensures { result ≡ first_other features.now }
{
    'features: for at in 0..features.len() {
        if has_points_or_lines(&features[at].geometry) {
            return Some(at as u64 + 1);
        }
    }
    None
}

fn are_positive(x: Coord, y: Coord) -> bool
    ensures { result ≡ (int_lt (pos 0) x && int_lt (pos 0) y) }
{
    x.units() > 0 && y.units() > 0
}

// The frame of an extent. The sizes of cells that the words ask for are above zero.
fn frame_in(size: SizeFrom, extent: &Extent) -> Result<Frame, FrameFault>
    ensures answer { result ≡ frame_in size extent.now }
    ensures frame { IfOk result IsFrame }
{
    match size {
        SizeFrom::Cells { ncols, nrows } => Frame::from_extent_size(extent, ncols, nrows),
        SizeFrom::Res { x, y } => {
            if !are_positive(x, y) {
                return Err(FrameFault::BadCell);
            }
            Frame::from_extent_cell(extent, x, y)
        }
    }
}

// The extent that is asked for, or else that of the layer, if it has one.
fn extent_for(job: &RasterizeJob, features: &[Feature]) -> Option<Extent>
    ensures { result ≡ option_or job.now.extent (layer_extent features.now) }
{
    match job.extent {
        Some(extent) => Some(extent),
        None => extent_of(features),
    }
}

// The frame that features are burned over.
fn frame_of(job: &RasterizeJob, features: &[Feature]) -> Result<Frame, Fault>
    ensures answer { IsOver job.now features.now result }
    ensures frame { IfOk result IsFrame }
    ensures kind { IfErr result IsFrameFault }
{
    if let Some(record) = first_other(features) {
        return Err(Fault::NotPolygon(record));
    }
    let Some(extent) = extent_for(job, features) else {
        return Err(Fault::NoExtent);
    };
    match frame_in(job.size, &extent) {
        Ok(frame) => Ok(frame),
        Err(fault) => Err(Fault::Frame(fault)),
    }
}

// The nodata value that is asked for, if one is.
fn nodata_of<T: Cell>(job: &RasterizeJob) -> Option<T>
    ensures { option_map T.units_of result ≡ option_map (clamped T.least T.greatest) job.now.nodata }
{
    match job.nodata {
        Some(value) => Some(cell_of::<T>(value)),
        None => None,
    }
}

// Burns features, and writes the cells to the destination.
fn burn_to<F: Folder, T: Cell>(
    alloc: Global,
    folder: &mut F,
    job: &RasterizeJob,
    frame: Frame,
    features: &[Feature],
) -> Result<(), Fault>
    requires cells { IsKind T.least T.greatest T.PLACES job.now.kind }
    requires frame { IsFrame frame }
    ensures ok { OnOk result (Becomes (F.state folder.old).files (F.state folder.new).files
        (with_file job.now.dest (rasterize_text job.now frame features.now))) }
    ensures part { OnErr result (IsPartWritten (F.state folder.old).files (F.state folder.new).files job.now.dest
        (rasterize_text job.now frame features.now)) }
    ensures kind { IfErr result IsWriteFault }
    ensures leaves { OnlyWrites (IsErrOf result Fault.WriteFault) (F.state folder.old) (F.state folder.new) }
{
    let cells = burned_cells::<T>(alloc, job, &frame, features)?;
    let asc = Asc {
        frame,
        nodata: nodata_of::<T>(job),
        cells,
    };
    write_text(
        alloc,
        folder,
        job.dest.as_str(),
        &mut GridText::of(alloc, &asc),
    )
}

// Burns features into cells of the type that is asked for, and writes these to the destination.
fn write_burned<F: Folder>(
    alloc: Global,
    folder: &mut F,
    job: &RasterizeJob,
    frame: Frame,
    features: &[Feature],
) -> Result<(), Fault>
    requires { IsFrame frame }
    ensures ok { OnOk result (Becomes (F.state folder.old).files (F.state folder.new).files
        (with_file job.now.dest (rasterize_text job.now frame features.now))) }
    ensures part { OnErr result (IsPartWritten (F.state folder.old).files (F.state folder.new).files job.now.dest
        (rasterize_text job.now frame features.now)) }
    ensures kind { IfErr result IsWriteFault }
    ensures leaves { OnlyWrites (IsErrOf result Fault.WriteFault) (F.state folder.old) (F.state folder.new) }
{
    match job.kind {
        CellKind::Byte => burn_to::<F, u8>(alloc, folder, job, frame, features),
        CellKind::Int16 => burn_to::<F, i16>(alloc, folder, job, frame, features),
        CellKind::Int32 => burn_to::<F, i32>(alloc, folder, job, frame, features),
        CellKind::Int64 => burn_to::<F, i64>(alloc, folder, job, frame, features),
    }
}

/// Burns the polygons of the source's features into a grid: on the cells that they cover by their centres, or with `-at` on all
/// cells that they touch.
///
/// A fault leaves the files as they were, or, where the job would have been done, a first part of the
/// destination's bytes.
pub fn rasterize<F: Folder>(alloc: Global, job: &RasterizeJob, folder: &mut F) -> Result<(), Fault>
    ensures outcome { IsDecided (status_of result) → IfSome (F.state folder.old).files
        (λ files. Does (Job.Rasterize job.now) files result (F.state folder.new).files) }
    ensures part { OnErr result (IfSome (F.state folder.old).files
        (λ files. LeavesPart (Job.Rasterize job.now) files (F.state folder.new).files)) }

    // Each fault of the folder has its cause, and no call that failed is passed over.
    ensures causes { HasCauses (status_of result) (F.state folder.old) (F.state folder.new) }
    ensures read_same { status_of result ≡ Status.ReadFault → (F.state folder.new).files ≡ (F.state folder.old).files }
    ensures kind { IfErr result IsToolFault }
    ensures write_done { status_of result ≡ Status.WriteFault → IfSome (F.state folder.old).files
        (CanBeDone (Job.Rasterize job.now)) }
{
    let features = read_layer(alloc, folder, job.source.as_str(), field_of(&job.value))?;
    let frame = frame_of(job, &features)?;
    write_burned(alloc, folder, job, frame, &features)?;
    Ok(())
}
