// The job of the program's words.
ghost use Rattle.tool_words.specs.Job.{IsAnswer, job_of};

use crate::check::read_check;
use crate::contour::read_contour;
use crate::fault::{WordFault, WordKind};
use crate::job::Job;
use crate::polygonize::read_polygonize;
use crate::rasterize::read_rasterize;
use crate::sieve::read_sieve;
use crate::words::Words;
use std::alloc::Global;

/// The job of the words after the program's name, or their first fault from left to right, with the place of its word.
/// Words without a job ask for no memory, so want of memory is answered in place of a job alone.
pub fn read_words(alloc: Global, words: &Words) -> Result<Job, WordFault>
    ensures { IsAnswer (job_of words.now) result }
{
    let Some(tool) = words.get(0) else {
        return Err(WordFault::At {
            kind: WordKind::NoTool,
            place: 1,
        });
    };
    match tool {
        "gdal_sieve" => read_sieve(alloc, words),
        "gdal_polygonize" => read_polygonize(alloc, words),
        "gdal_rasterize" => read_rasterize(alloc, words),
        "gdal_contour" => read_contour(alloc, words),
        "check" => read_check(words),
        _ => Err(WordFault::At {
            kind: WordKind::UnknownTool,
            place: 1,
        }),
    }
}
