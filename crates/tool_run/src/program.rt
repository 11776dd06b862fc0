// The top call.
ghost use Rattle.std.specs.Prelude.{◌≡◌, ◌≢◌, IfSome, IsErr, List, ℕ};
ghost use Rattle.tool_outcome.specs.Message.{IsLine, line_of_answer, line_of_grid, line_of_words};
ghost use Rattle.tool_outcome.specs.Outcome.{Meets, WordsCanBeDone, WordsLeavePart};
ghost use Rattle.tool_outcome.specs.Status.{IsDecided, status_of, status_of_grid, status_of_kind, status_of_words};
ghost use Rattle.tool_words.specs.Job.{job_of};
ghost use Rattle.round_trip.specs.RoundTrip.{MakesRoundTrip};
ghost use Rattle.tool_run.specs.Causes.{HasCausesOf, LeavesFolder};
ghost use Rattle.tool_run.specs.Line.{SaysLine};
ghost use Rattle.tool_run.specs.Printed.{IsPrinted, IsQuiet, Prints};

use crate::jobs::{dest_name, do_job, source_name};
use crate::layer_message::{say_frame, say_layer, say_record};
use crate::message::{say_line, say_number, say_offence, say_word};
use asc_grid::{GridFault, GridKind};
use rv_outside::{Folder, Sink};
use std::alloc::Global;
use tool_outcome::{Fault, Status};
use tool_words::{WordFault, Words, read_words};

// Says why the words have no job.
fn refuse<E: Sink>(fault: WordFault, err: &mut E) -> Status
    ensures status { result ≡ status_of_words fault }
    ensures line { SaysLine (line_of_words fault) (E.state err.old) (E.state err.new) }
{
    match fault {
        WordFault::At { kind, place } => {
            say_word(err, kind, place);
            Status::Usage
        }
        WordFault::NoMemory => {
            say_line(err, "", "out of memory\n");
            Status::NoMemory
        }
    }
}

// Says why the source has no grid.
fn say_grid<E: Sink>(source: &str, fault: GridFault, err: &mut E) -> Status
    ensures status { result ≡ status_of_grid fault }
    ensures line { SaysLine (line_of_grid source.now fault) (E.state err.old) (E.state err.new) }
{
    match fault {
        GridFault::At { kind, line } => {
            say_offence(err, source, line, kind);
            status_of_kind(kind)
        }
        GridFault::NoMemory => {
            say_line(err, "", "out of memory\n");
            Status::NoMemory
        }
    }
}

fn status_of_kind(kind: GridKind) -> Status
    ensures { result ≡ status_of_kind kind }
{
    match kind {
        GridKind::TooLarge(_) => Status::TooLarge,
        _ => Status::BadInput,
    }
}

// Says how a job ended, where it was not done, by the names of its source and its destination.
fn report<E: Sink>(source: &str, dest: &str, answer: Result<(), Fault>, err: &mut E) -> Status
    ensures status { result ≡ status_of answer }
    ensures line { SaysLine (line_of_answer source.now dest.now answer) (E.state err.old) (E.state err.new) }
{
    match answer {
        Ok(()) => Status::Done,
        Err(Fault::Missing(_)) => {
            say_line(err, source, ": no such file\n");
            Status::Missing
        }
        Err(Fault::ReadFault(_)) => {
            say_line(err, source, ": read failed\n");
            Status::ReadFault
        }
        Err(Fault::Grid(_, offence)) => say_grid(source, offence, err),
        Err(Fault::TooManyLevels(count)) => {
            say_number(err, "levels: too many: ", count);
            Status::TooLarge
        }
        Err(Fault::Layer(offence)) => say_layer(err, source, offence),
        Err(Fault::NotPolygon(record)) => {
            say_record(err, source, record, "not a polygon");
            Status::BadInput
        }
        Err(Fault::NoExtent) => {
            say_line(err, source, ": no extent\n");
            Status::BadInput
        }
        Err(Fault::Frame(offence)) => say_frame(err, offence),
        Err(Fault::WriteFault) => {
            say_line(err, dest, ": write failed\n");
            Status::WriteFault
        }
        Err(Fault::NoMemory) => {
            say_line(err, "", "out of memory\n");
            Status::NoMemory
        }
    }
}

/// Does all that the program does: it takes the words after the program's name, works in the folder, writes
/// at most one line to `err`, prints to `out` what `check` prints, and answers the status.
///
/// Where the folder tells its files, the status, the line, the files afterwards and what was printed are those of
/// the outcome, unless a call of the folder or of `out` failed or memory ran out; then the files are as before, or
/// the destination holds a first part of its bytes, and `out` has a first part of what is printed.
pub fn run<F: Folder, O: Sink, E: Sink>(
    alloc: Global,
    words: &Words,
    folder: &mut F,
    out: &mut O,
    err: &mut E,
) -> Status
    ensures outcome { (line printed : List ℕ) × IsLine (job_of words.now) result line × SaysLine line (E.state err.old) (E.state err.new)
        × IsPrinted (job_of words.now) result printed × Prints printed result (O.state out.old) (O.state out.new)
        × (IsDecided result → IfSome (F.state folder.old).files (λ files. Meets words.now files result line printed (F.state folder.new).files)) }
    ensures part { result ≢ Status.Done → IfSome (F.state folder.old).files
        (λ files. WordsLeavePart (job_of words.now) files (F.state folder.new).files) }

    // The round trip: what was polygonized under side steps is burned back to the grid.
    ensures round_trip { result ≡ Status.Done → IfSome (F.state folder.old).files
        (λ files. IfSome (F.state folder.new).files (MakesRoundTrip (job_of words.now) files)) }

    // The words alone decide these, whatever the folder.
    ensures usage { IsErr (job_of words.now) → result ≡ Status.Usage }
    ensures not_usage { result ≡ Status.Usage → IsErr (job_of words.now) }
    ensures alone { LeavesFolder (job_of words.now) → folder.new ≡ folder.old }
    ensures quiet { IsQuiet (job_of words.now) → out.new ≡ out.old }

    // Each fault of the folder and of `out` has its cause, and no call that failed is passed over.
    ensures causes { HasCausesOf (job_of words.now) result (F.state folder.old) (F.state folder.new)
        (O.state out.old) (O.state out.new) }
    ensures read_same { result ≡ Status.ReadFault → (F.state folder.new).files ≡ (F.state folder.old).files }
    ensures write_done { result ≡ Status.WriteFault → IfSome (F.state folder.old).files (WordsCanBeDone (job_of words.now)) }
{
    let job = match read_words(alloc, words) {
        Ok(job) => job,
        Err(fault) => return refuse(fault, err),
    };
    let answer = do_job(alloc, &job, folder, out);
    report(source_name(&job), dest_name(&job), answer, err)
}
