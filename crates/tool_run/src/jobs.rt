// The table of tools.
ghost use Rattle.std.specs.Prelude.{◌≡◌, ℕ, List, IfSome, Ok, OnErr};
ghost use Rattle.tool_words.specs.Job.{FitsJob};
ghost use Rattle.tool_outcome.specs.Message.{dest_of_job, source_of_job};
ghost use Rattle.tool_outcome.specs.Outcome.{CanBeDone, DoesPrinting, LeavesPart};
ghost use Rattle.tool_outcome.specs.Status.{IsDecided, status_of};
ghost use Rattle.tool_run.specs.Causes.{HasCausesOf, LeavesFolder};
ghost use Rattle.tool_run.specs.Printed.{IsPrinted, IsQuiet, Prints};
ghost use Rattle.tool_run.specs.Inner.Ranges.{HasInterval};

use crate::burning::rasterize;
use crate::check::check;
use crate::contours::contour;
use crate::polygons::polygonize;
use crate::sieve::sieve_tool;
use rv_outside::{Folder, Sink};
use std::alloc::Global;
use tool_outcome::{Fault, Status};
use tool_words::Job;

// What check writes to, as messages name it.
const OUTPUT: &str = "output";

/// The name of a job's source.
pub(crate) fn source_name(job: &Job) -> &str
    ensures { result.now ≡ source_of_job job.now }
{
    match job {
        Job::Sieve(job) => job.source.as_str(),
        Job::Polygonize(job) => job.source.as_str(),
        Job::Rasterize(job) => job.source.as_str(),
        Job::Contour(job) => job.source.as_str(),
        Job::Check(_) => OUTPUT,
    }
}

/// The name of its destination.
pub(crate) fn dest_name(job: &Job) -> &str
    ensures { result.now ≡ dest_of_job job.now }
{
    match job {
        Job::Sieve(job) => job.dest.as_str(),
        Job::Polygonize(job) => job.dest.as_str(),
        Job::Rasterize(job) => job.dest.as_str(),
        Job::Contour(job) => job.dest.as_str(),
        Job::Check(_) => OUTPUT,
    }
}

/// Does a job, in the folder, or for check in one of its own, and prints what it is to print.
pub(crate) fn do_job<F: Folder, O: Sink>(
    alloc: Global,
    job: &Job,
    folder: &mut F,
    out: &mut O,
) -> Result<(), Fault>
    requires interval { HasInterval job.now }
    requires fits { FitsJob job.now }
    ensures outcome { (printed : List ℕ) × IsPrinted (Ok job.now) (status_of result) printed
        × Prints printed (status_of result) (O.state out.old) (O.state out.new)
        × (IsDecided (status_of result) → IfSome (F.state folder.old).files
        (λ files. DoesPrinting job.now files result printed (F.state folder.new).files)) }
    ensures part { OnErr result (IfSome (F.state folder.old).files
        (λ files. LeavesPart job.now files (F.state folder.new).files)) }
    ensures alone { LeavesFolder (Ok job.now) → folder.new ≡ folder.old }
    ensures quiet { IsQuiet (Ok job.now) → out.new ≡ out.old }
    ensures causes { HasCausesOf (Ok job.now) (status_of result) (F.state folder.old) (F.state folder.new)
        (O.state out.old) (O.state out.new) }
    ensures read_same { status_of result ≡ Status.ReadFault → (F.state folder.new).files ≡ (F.state folder.old).files }
    ensures write_done { status_of result ≡ Status.WriteFault → IfSome (F.state folder.old).files (CanBeDone job.now) }
{
    match job {
        Job::Sieve(job) => sieve_tool(alloc, job, folder),
        Job::Polygonize(job) => polygonize(alloc, job, folder),
        Job::Rasterize(job) => rasterize(alloc, job, folder),
        Job::Contour(job) => contour(alloc, job, folder),
        Job::Check(job) => check(alloc, job, out),
    }
}
