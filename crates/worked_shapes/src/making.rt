// Coordinates, frames, geometries and grids of worked examples.
ghost use Rattle.std.specs.Prelude.{◌≡◌, IfOk};
ghost use Rattle.cell_base.specs.Raster.{Raster};
ghost use Rattle.geo_transform.specs.Frame.{IsFrame};

use cell_base::{Cell, Grid};
use fixed_coord::Coord;
use geo_transform::Frame;
use std::alloc::{AllocError, Global};
use std::test::Fail;
use wkt_text::{Geometry, read_geometry};

pub fn coordinate(text: &str) -> Result<Coord, Fail> {
    Ok(Coord::read(text.as_bytes()).ok().ok_or("a coordinate")?)
}

/// So many columns and rows of cells of a size, from a lower left corner.
pub fn frame(ncols: u32, nrows: u32, xll: &str, yll: &str, cell: &str) -> Result<Frame, Fail>
    ensures { IfOk result IsFrame }
{
    let xll = coordinate(xll)?;
    let yll = coordinate(yll)?;
    let cell = coordinate(cell)?;
    match Frame::make(ncols, nrows, xll, yll, cell) {
        Ok(frame) => Ok(frame),
        Err(_) => Err("a frame".into()),
    }
}

pub fn geometry(alloc: Global, text: &str) -> Result<Geometry, Fail> {
    Ok(
        read_geometry(alloc, text.as_bytes())
            .ok()
            .ok_or("a geometry")?,
    )
}

/// A grid of zeros of a frame's size.
pub fn zeros<T: Cell>(alloc: Global, frame: &Frame) -> Result<Grid<T>, AllocError>
    requires { IsFrame frame.now }
    ensures cols { IfOk result (λ (cells : Raster T). cells.ncols ≡ frame.now.ncols) }
    ensures rows { IfOk result (λ (cells : Raster T). cells.nrows ≡ frame.now.nrows) }
{
    Grid::make(alloc, frame.ncols, frame.nrows, T::clamp_from(0))
}

/// Whether the cells are these, row after row.
pub fn holds<T: Cell>(cells: &Grid<T>, want: &[i64]) -> bool {
    let mut at = 0;
    for row in 0..cells.nrows() {
        for cell in cells.row(row) {
            if want.get(at).copied() != Some(cell.units()) {
                return false;
            }
            at += 1;
        }
    }
    at == want.len()
}
