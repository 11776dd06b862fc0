// The cells that a layer's features burn.
ghost use Rattle.std.specs.Prelude.{◌≡◌, IfOk, OnOk, option_map};
ghost use Rattle.cell_base.specs.Clamped.{clamped};
ghost use Rattle.geo_transform.specs.Frame.{IsFrame};
ghost use Rattle.burn_scanline.specs.Burned.{HoldsValues};
ghost use Rattle.burn_scanline.specs.Runs.{AreWithin};
ghost use Rattle.tool_outcome.specs.Features.{burned_features, value_for};
ghost use Rattle.tool_outcome.specs.Rasterize.{burned_value, first_value, held, how_of, outside_of};
ghost use Rattle.tool_run.specs.Inner.Strokes.{AddsFeature, AreStrokesOf, IsCover, IsKind, IsShapeOf, outside_start};

use all_touched::{TouchScan, touched_runs};
use burn_scanline::{CentreScan, How, RunList, burn_runs, burned_on, centre_runs};
use cell_base::{Cell, Grid};
use geo_transform::Frame;
use ogr_csv::Feature;
use std::alloc::{AllocError, Global};
use tool_words::{RasterizeJob, ValueFrom};
use wkt_text::Geometry;

// How the features of a layer are burned: what each cell holds at first, and what each feature burns on the cells that it
// covers: one value, or where there is none its own.
#[derive(Clone, Copy)]
pub(crate) struct Strokes<T> {
    pub(crate) initial: T,
    pub(crate) one: Option<T>,
    pub(crate) how: How,
    pub(crate) touched: bool,
}

// What is kept from feature to feature while their covered or touched cells are found.
#[derive(Drop)]
struct Scan {
    centre: CentreScan,
    touch: TouchScan,
    runs: RunList,
}

/// The cell that holds a value, or the nearer end of the type.
pub(crate) fn cell_of<T: Cell>(value: i64) -> T
    ensures { T.units_of result ≡ clamped T.least T.greatest value }
{
    T::clamp_from(i128::from(value))
}

fn how_of(add: bool) -> How
    ensures { result ≡ how_of add }
{
    if add { How::Add } else { How::Set }
}

// What a feature is burned with, if it has a value.
fn value_for(value: &ValueFrom, feature: &Feature) -> Option<i64>
    ensures { result ≡ value_for value.now feature.now }
{
    match value {
        ValueFrom::Burn(value) => Some(*value),
        ValueFrom::Field(_) => feature.value,
    }
}

// The geometry and the value of a feature, unless it is skipped.
fn shape_of<'a>(value: &ValueFrom, feature: &'a Feature) -> Option<(&'a Geometry, i64)>
    ensures { IsShapeOf value.now feature.now (option_map (λ shape. (shape.0.now, shape.1)) result) }
{
    let Some(g) = &feature.geometry else {
        return None;
    };
    let Some(value) = value_for(value, feature) else {
        return None;
    };
    Some((g, value))
}

// The cell of the first feature that isn't skipped, if there is one.
fn first_cell<T: Cell>(value: &ValueFrom, features: &[Feature]) -> Option<T>
    ensures { option_map T.units_of result ≡ first_value
        (burned_features (clamped T.least T.greatest) value.now features.now) }
{
    'features: for feature in features {
        if let Some((_, value)) = shape_of(value, feature) {
            return Some(cell_of::<T>(value));
        }
    }
    None
}

// What is burned outside, if anything is.
fn outside_of<T: Cell>(value: &ValueFrom, features: &[Feature]) -> Option<T>
    ensures { option_map T.units_of result ≡ outside_of (clamped T.least T.greatest) value.now
        (burned_features (clamped T.least T.greatest) value.now features.now) }
{
    match value {
        ValueFrom::Burn(value) => Some(cell_of::<T>(*value)),
        ValueFrom::Field(_) => first_cell::<T>(value, features),
    }
}

// What burning outside makes of a cell.
fn outside_cell<T: Cell>(initial: T, how: How, value: &ValueFrom, features: &[Feature]) -> T
    ensures { T.units_of result ≡ outside_start T.least T.greatest how (T.units_of initial)
        (outside_of (clamped T.least T.greatest) value.now (burned_features (clamped T.least T.greatest) value.now features.now)) }
{
    match outside_of::<T>(value, features) {
        Some(cell) => burned_on(initial, cell, how),
        None => initial,
    }
}

// How a job burns these features. Burned outside, each cell holds at first what burning makes of it, and each feature puts
// the initial value back.
fn strokes_of<T: Cell>(job: &RasterizeJob, features: &[Feature]) -> Strokes<T>
    requires { IsKind T.least T.greatest T.PLACES job.now.kind }
    ensures { AreStrokesOf T.units_of T.least T.greatest job.now features.now result }
{
    let initial = cell_of::<T>(job.init);
    let how = how_of(job.add);
    if !job.invert {
        return Strokes {
            initial,
            one: None,
            how,
            touched: job.touched,
        };
    }
    Strokes {
        initial: outside_cell(initial, how, &job.value, features),
        one: Some(initial),
        how: How::Set,
        touched: job.touched,
    }
}

impl Scan {
    fn new(alloc: Global) -> Scan {
        Scan {
            centre: CentreScan::new(alloc),
            touch: TouchScan::new(alloc),
            runs: RunList::new(alloc),
        }
    }

    // Finds the cells that a geometry covers by their centres, or all that it touches.
    fn find(
        &mut self,
        alloc: Global,
        frame: &Frame,
        g: &Geometry,
        touched: bool,
    ) -> Result<(), AllocError>
        requires { IsFrame frame.now }
        ensures cells { OnOk result (IsCover touched frame.now g.now self.new.runs) }
        ensures inside { OnOk result (AreWithin frame.now.nrows frame.now.ncols self.new.runs) }
    {
        if touched {
            touched_runs(alloc, frame, g, &mut self.touch, &mut self.runs)?;
            return Ok(());
        }
        centre_runs(frame, g, &mut self.centre, &mut self.runs)?;
        Ok(())
    }
}

// Burns a feature, unless it is skipped.
fn burn_feature<T: Cell>(
    alloc: Global,
    cells: &mut Grid<T>,
    frame: &Frame,
    value: &ValueFrom,
    strokes: &Strokes<T>,
    feature: &Feature,
    scan: &mut Scan,
) -> Result<(), AllocError>
    requires frame { IsFrame frame.now }
    requires cols { cells.old.ncols ≡ frame.now.ncols }
    requires rows { cells.old.nrows ≡ frame.now.nrows }
    ensures { OnOk result (AddsFeature T.units_of T.least T.greatest frame.now value.now strokes.now feature.now
        cells.old cells.new) }
{
    let Some((g, value)) = shape_of(value, feature) else {
        return Ok(());
    };
    scan.find(alloc, frame, g, strokes.touched)?;
    let cell = strokes.one.unwrap_or(cell_of::<T>(value));
    burn_runs(cells, &scan.runs, cell, strokes.how);
    Ok(())
}

/// The cells of a job over its frame, with the features burned.
pub(crate) fn burned_cells<T: Cell>(
    alloc: Global,
    job: &RasterizeJob,
    frame: &Frame,
    features: &[Feature],
) -> Result<Grid<T>, AllocError>
    requires kind { IsKind T.least T.greatest T.PLACES job.now.kind }
    requires frame { IsFrame frame.now }
    ensures { IfOk result (HoldsValues T.units_of frame.now
        (burned_value job.now frame.now (burned_features (held job.now.kind) job.now.value features.now))) }
{
    let strokes = strokes_of::<T>(job, features);
    let mut cells = Grid::make(alloc, frame.ncols, frame.nrows, strokes.initial)?;
    let mut scan = Scan::new(alloc);
    'features: for feature in features {
        burn_feature(
            alloc, &mut cells, frame, &job.value, &strokes, feature, &mut scan,
        )?;
    }
    Ok(cells)
}
