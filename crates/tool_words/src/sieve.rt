// The words of gdal_sieve.
ghost use Rattle.std.specs.Prelude.{◌<◌, drop, length};
ghost use Rattle.tool_words.specs.Job.{IsAnswer, sieve_words};

use crate::fault::WordFault;
use crate::job::{Job, MaskFrom, SieveJob};
use crate::options::{Options, Wanted};
use crate::piece::Piece;
use crate::reading::read;
use crate::words::Words;
use std::alloc::Global;

/// What the options of `gdal_sieve` choose.
#[derive(Clone, Copy, Debug, PartialEq, Eq)]
pub struct SieveOptions {
    /// The number of cells from which on a component stays.
    pub st: u32,
    /// Whether cells that meet at a corner are neighbours.
    pub eight: bool,
}

impl<'w> Options<'w> for SieveOptions {
    ghost use Rattle.std.specs.Prelude.{false};
    ghost use Rattle.tool_words.specs.Sieve.{sieve_chooses, sieve_default, sieve_grammar};
    ghost use Rattle.tool_words.specs.Inner.Laws.{two_names};

    ghost grammar = { sieve_grammar };

    ghost default = { sieve_default };

    ghost chooses = { sieve_chooses };

    ghost clashes = { λ options. false };

    ghost few_names = { two_names };

    fn new() -> SieveOptions {
        SieveOptions {
            st: 2,
            eight: false,
        }
    }

    fn wanted(option: &str) -> Option<Wanted> {
        match option {
            "-st" | "-of" => Some(Wanted::Each(1)),
            "-4" | "-8" | "-q" => Some(Wanted::Each(0)),
            _ => None,
        }
    }

    fn choose(&mut self, piece: &Piece<'w>) -> Result<(), WordFault> {
        match piece.word() {
            "-st" => self.st = piece.count(0)?,
            "-4" => self.eight = false,
            "-8" => self.eight = true,
            "-of" => piece.only(0, "AAIGrid")?,
            _ => {}
        }
        Ok(())
    }

    fn is_name(number: usize, _name: &str) -> Option<bool> {
        if number < 2 { Some(true) } else { None }
    }

    fn required() -> usize {
        2
    }

    fn clash(&self) -> bool {
        false
    }
}

// The job of the words.
pub(crate) fn read_sieve(alloc: Global, words: &Words) -> Result<Job, WordFault>
    requires { 0 < length words.now }
    ensures { IsAnswer (sieve_words (drop 1 words.now)) result }
{
    let (options, names) = read::<SieveOptions>(words)?;
    Ok(Job::Sieve(SieveJob {
        source: names.copied(alloc, 0)?,
        dest: names.copied(alloc, 1)?,
        st: options.st,
        eight: options.eight,
        mask: MaskFrom::Nodata,
    }))
}
