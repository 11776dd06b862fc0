// The tool gdal_sieve.
ghost use Rattle.std.specs.Prelude.{◌≡◌, IfSome, IsErrOf, OnErr, OnOk, nat_le};
ghost use Rattle.tool_outcome.specs.Outcome.{CanBeDone, Does, LeavesPart};
ghost use Rattle.tool_outcome.specs.Sieve.{AreSieved};
ghost use Rattle.tool_outcome.specs.Status.{IsDecided, status_of};
ghost use Rattle.tool_run.specs.Causes.{HasCauses};
ghost use Rattle.tool_run.specs.Inner.Steps.{KeepsRest};

use crate::grid_file::{read_source, write_dest};
use asc_grid::Asc;
use cell_base::Mask;
use rv_outside::Folder;
use sieve_core::sieve;
use std::alloc::{AllocError, Global};
use tool_outcome::{Fault, Status};
use tool_words::{Job, SieveJob};

// Sieves the cells of a grid. At a threshold of at most 1 each cell keeps its value, and nothing is done.
fn sieve_cells(alloc: Global, job: &SieveJob, asc: &mut Asc<i64>) -> Result<(), AllocError>
    ensures sieved { OnOk result (AreSieved (nat_le job.now.st 1) job.now asc.old asc.new.cells) }
    ensures rest { KeepsRest asc.old asc.new }
{
    if job.st <= 1 {
        return Ok(());
    }
    let valid = Mask::valid_of(alloc, &asc.cells, asc.nodata)?;
    if job.eight {
        return sieve::<i64, true>(alloc, &mut asc.cells, &valid, job.st);
    }
    sieve::<i64, false>(alloc, &mut asc.cells, &valid, job.st)
}

/// Sieves the source of a job into its destination.
///
/// A fault leaves the files as they were, or, where the job would have been done, a first part of the
/// destination's bytes.
pub fn sieve_tool<F: Folder>(alloc: Global, job: &SieveJob, folder: &mut F) -> Result<(), Fault>
    ensures outcome { IsDecided (status_of result) → IfSome (F.state folder.old).files
        (λ files. Does (Job.Sieve job.now) files result (F.state folder.new).files) }
    ensures part { OnErr result (IfSome (F.state folder.old).files
        (λ files. LeavesPart (Job.Sieve job.now) files (F.state folder.new).files)) }

    // Each fault of the folder has its cause, and no call that failed is passed over.
    ensures causes { HasCauses (status_of result) (F.state folder.old) (F.state folder.new) }
    ensures read_same { status_of result ≡ Status.ReadFault → (F.state folder.new).files ≡ (F.state folder.old).files }
    ensures write_done { status_of result ≡ Status.WriteFault → IfSome (F.state folder.old).files (CanBeDone (Job.Sieve job.now)) }
{
    let mut asc = read_source(alloc, folder, job.source.as_str())?;
    sieve_cells(alloc, job, &mut asc)?;
    write_dest(alloc, folder, job.dest.as_str(), &asc)?;
    Ok(())
}
