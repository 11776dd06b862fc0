// Texts that are written piece by piece.
ghost use Rattle.std.specs.Prelude.{◌≡◌, IfErr, IsErrOf, OnErr, OnOk};
ghost use Rattle.rv_outside.specs.Files.{Becomes, with_file};
ghost use Rattle.rv_outside.specs.Folder.{OnlyWrites};
ghost use Rattle.tool_run.specs.Inner.Steps.{IsPartWritten, IsWriteFault};

use asc_grid::GridText;
use cell_base::Cell;
use rv_outside::{Folder, append_all};
use std::alloc::{AllocError, Global};
use tool_outcome::Fault;

/// A text that is handed out piece by piece.
pub(crate) trait Pieces {
    ghost use Rattle.std.specs.Prelude.{◌≡◌, ◌<◌, ◌++◌, [], ℕ, List, IfOk, OnOk, MatchBool};

    // the text that is left
    ghost left: { Self → List ℕ };

    // no more pieces are left than this
    ghost steps: { Self → ℕ };

    /// Replaces what is in `piece` by the next part of the text, and says whether there was any left.
    fn next(&mut self, piece: &mut Vec<u8>) -> Result<bool, AllocError>
        ensures ok { OnOk result (left self.old ≡ piece.new.items ++ left self.new) }
        ensures more { IfOk result (λ more. MatchBool more (steps self.new < steps self.old) (left self.old ≡ [])) };
}

impl<'a, T: Cell> Pieces for GridText<'a, T> {
    ghost use Rattle.std.specs.Prelude.{length};
    ghost use Rattle.asc_grid.specs.Canonical.{spelled};
    ghost use Rattle.asc_grid.specs.Text.{text_left};

    ghost left = { text_left (spelled T.units_of T.PLACES) };

    ghost steps = { λ text. length (text_left (spelled T.units_of T.PLACES) text) };

    fn next(&mut self, piece: &mut Vec<u8>) -> Result<bool, AllocError> {
        self.next(piece)
    }
}

/// Makes a file and writes a text to it.
pub(crate) fn write_text<F: Folder, P: Pieces>(
    alloc: Global,
    folder: &mut F,
    name: &str,
    text: &mut P,
) -> Result<(), Fault>
    ensures ok { OnOk result (Becomes (F.state folder.old).files (F.state folder.new).files (with_file name.now (P.left text.old))) }
    ensures part { OnErr result (IsPartWritten (F.state folder.old).files (F.state folder.new).files name.now (P.left text.old)) }
    ensures kind { IfErr result IsWriteFault }
    ensures leaves { OnlyWrites (IsErrOf result Fault.WriteFault) (F.state folder.old) (F.state folder.new) }
{
    folder.create(name)?;
    let mut piece = Vec::new(alloc);
    'pieces: while text.next(&mut piece)? {
        append_all(folder, name, &piece)?;
    }
    Ok(())
}
