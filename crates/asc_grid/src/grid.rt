// Reading a grid.
ghost use Rattle.std.specs.Prelude.{◌≡◌, ◌≢◌, ◌*◌, ◌<◌, ◌≤◌, Some, None, Ok, Err, IfErr, IfOk, length};
ghost use Rattle.fixed_coord.specs.Limits.{most_cells};
ghost use Rattle.geo_transform.specs.Frame.{IsFrame};
ghost use Rattle.asc_grid.specs.Grid.{grid_of};
ghost use Rattle.asc_grid.specs.Cells.{cells_of, offence_of_cells};
ghost use Rattle.asc_grid.specs.Inner.Cursor.{end_of, tokens_at};

use crate::fault::{GridFault, GridKind};
use crate::header::read_header;
use crate::tokens::Tokens;
use cell_base::{Cell, Grid};
use geo_transform::Frame;
use std::alloc::{AllocError, Global};

/// A grid as a text writes it: where its cells lie, which value stands for no data, and the cells.
#[derive(Drop)]
pub struct Asc<T> {
    /// Where the cells lie.
    pub frame: Frame,
    /// The value that stands for no data, where there is one.
    pub nodata: Option<T>,
    /// The cells.
    pub cells: Grid<T>,
}

impl From<AllocError> for GridFault {
    ghost use Rattle.std.specs.Prelude.{◌≡◌};
    ghost use Rattle.asc_grid.specs.declared.fault.GridFault.TheVariants.{NoMemory};

    ghost from_gives = { λ _ fault. fault ≡ NoMemory };

    fn from(_: AllocError) -> GridFault {
        GridFault::NoMemory
    }
}

// The cells, exactly so many. A text of so many bytes has no more tokens, so that a promise of cells asks for no
// memory that the text can't fill.
fn read_cells<T: Cell>(
    alloc: Global,
    tokens: &mut Tokens<'_>,
    count: usize,
) -> Result<Vec<T>, GridFault>
    ensures cells { IfOk result (λ cells. cells.items ≡ cells_of T.read_of (tokens_at tokens.old)) }
    ensures count { IfOk result (λ cells. length cells.items ≡ count) }
    ensures sound { IfOk result (λ _. offence_of_cells T.read_of count (end_of tokens.old) (tokens_at tokens.old) ≡ None) }
    ensures refused { IfErr result (λ fault. fault ≢ GridFault.NoMemory
        → offence_of_cells T.read_of count (end_of tokens.old) (tokens_at tokens.old) ≡ Some fault) }
{
    let mut cells = Vec::with_capacity(alloc, count.min(tokens.len()))?;
    'cells: for _ in 0..count {
        let Some(token) = tokens.next() else {
            return Err(fault_here(GridKind::TooFewCells, tokens));
        };
        let Ok(cell) = T::read(token) else {
            return Err(fault_here(GridKind::BadCell, tokens));
        };
        if cells.push(cell).is_err() {
            return Err(GridFault::NoMemory);
        }
    }
    match tokens.next() {
        Some(_) => Err(fault_here(GridKind::TooManyCells, tokens)),
        None => Ok(cells),
    }
}

fn fault_here(kind: GridKind, tokens: &Tokens<'_>) -> GridFault
    ensures { result ≡ GridFault.At kind tokens.now.line }
{
    GridFault::At {
        kind,
        line: tokens.line(),
    }
}

/// The grid of a text. `At` with the text's first offence and its line exactly where it has one; a nodata value that
/// the type doesn't read is none.
#[tactic(auto, unfolding(crate::specs::Grid::grid_of))]
pub fn read_grid<T: Cell>(alloc: Global, text: &[u8]) -> Result<Asc<T>, GridFault>
    ensures grid { IfOk result (λ asc. grid_of T.read_of text.now ≡ Ok asc) }
    ensures refused { IfErr result (λ fault. fault ≢ GridFault.NoMemory → grid_of T.read_of text.now ≡ Err fault) }
    ensures frame { IfOk result (λ asc. IsFrame asc.frame × (asc.cells.ncols ≡ asc.frame.ncols) × (asc.cells.nrows ≡ asc.frame.nrows)) }
{
    let mut tokens = Tokens::of(text);
    let values = read_header::<T>(&mut tokens)?;
    let frame = match values.frame() {
        Ok(frame) => frame,
        Err(kind) => return Err(fault_here(kind, &tokens)),
    };
    let count = frame.ncols as usize * frame.nrows as usize;
    let cells = read_cells(alloc, &mut tokens, count)?;
    Ok(Asc {
        frame,
        nodata: values.nodata.flatten(),
        cells: Grid::from_cells(frame.ncols, frame.nrows, cells),
    })
}
