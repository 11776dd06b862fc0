// Grids in files.
ghost use Rattle.std.specs.Prelude.{◌≡◌, IfErr, IfOk, IfSome, IsErrOf, OnErr, OnOk};
ghost use Rattle.rv_outside.specs.Files.{Becomes, with_file};
ghost use Rattle.rv_outside.specs.Folder.{OnlyReads, OnlyWrites};
ghost use Rattle.tool_outcome.specs.Source.{source_by, text_of};
ghost use Rattle.tool_outcome.specs.Status.{IsDecided, status_of};
ghost use Rattle.tool_run.specs.Inner.Steps.{IsOverFrame, IsPartWritten, IsSourceFault, IsWriteFault};

use crate::pieces::write_text;
use asc_grid::{Asc, GridText, read_grid};
use cell_base::Cell;
use rv_outside::{Folder, read_whole};
use std::alloc::Global;
use tool_outcome::{Fault, Role};

/// The grid of a source, whose text is let go again.
pub(crate) fn read_source<F: Folder, T: Cell>(
    alloc: Global,
    folder: &mut F,
    name: &str,
) -> Result<Asc<T>, Fault>
    ensures source { IsDecided (status_of result) → IfSome (F.state folder.old).files (λ files. result ≡ source_by T.read_of (files name.now)) }
    ensures leaves { OnlyReads (IsErrOf result (Fault.ReadFault Role.Source)) (IsErrOf result (Fault.Missing Role.Source))
        (F.state folder.old) (F.state folder.new) }
    ensures kind { IfErr result IsSourceFault }
    ensures frame { IfOk result IsOverFrame }
{
    let text = read_whole(alloc, folder, name)?;
    let asc = read_grid(alloc, &text)?;
    Ok(asc)
}

/// Makes the destination and writes the grid's canonical text to it.
pub(crate) fn write_dest<F: Folder>(
    alloc: Global,
    folder: &mut F,
    name: &str,
    asc: &Asc<i64>,
) -> Result<(), Fault>
    ensures ok { OnOk result (Becomes (F.state folder.old).files (F.state folder.new).files (with_file name.now (text_of asc.now))) }
    ensures part { OnErr result (IsPartWritten (F.state folder.old).files (F.state folder.new).files name.now (text_of asc.now)) }
    ensures kind { IfErr result IsWriteFault }
    ensures leaves { OnlyWrites (IsErrOf result Fault.WriteFault) (F.state folder.old) (F.state folder.new) }
{
    write_text(alloc, folder, name, &mut GridText::of(alloc, asc))
}
