// The words of check.
ghost use Rattle.std.specs.Prelude.{◌≡◌, ◌<◌, drop, length};
ghost use Rattle.tool_words.specs.Job.{check_words};

use crate::fault::WordFault;
use crate::job::{CheckJob, Job};
use crate::options::{Options, Wanted};
use crate::piece::Piece;
use crate::reading::read;
use crate::value;
use crate::words::Words;
use cell_base::CellKind;

/// What the options of `check` choose.
#[derive(Clone, Copy, Debug, PartialEq, Eq)]
pub struct CheckOptions {
    /// The type of the cells.
    pub kind: CellKind,
}

impl<'w> Options<'w> for CheckOptions {
    ghost use Rattle.std.specs.Prelude.{false};
    ghost use Rattle.tool_words.specs.Check.{check_chooses, check_default, check_grammar};
    ghost use Rattle.tool_words.specs.Inner.Laws.{four_names};

    ghost grammar = { check_grammar };

    ghost default = { check_default };

    ghost chooses = { check_chooses };

    ghost clashes = { λ options. false };

    ghost few_names = { four_names };

    fn new() -> CheckOptions {
        CheckOptions {
            kind: CellKind::Int64,
        }
    }

    fn wanted(option: &str) -> Option<Wanted> {
        match option {
            "-ot" => Some(Wanted::Each(1)),
            "-q" => Some(Wanted::Each(0)),
            _ => None,
        }
    }

    fn choose(&mut self, piece: &Piece<'w>) -> Result<(), WordFault> {
        match piece.word() {
            "-ot" => self.kind = piece.kind(0)?,
            _ => {}
        }
        Ok(())
    }

    // The seed, the width, the height and how many values there are.
    fn is_name(number: usize, name: &str) -> Option<bool> {
        match number {
            0 => Some(value::count(name).is_some()),
            1 | 2 => Some(value::size(name).is_some()),
            3 => Some(value::values(name).is_some()),
            _ => None,
        }
    }

    fn required() -> usize {
        4
    }

    fn clash(&self) -> bool {
        false
    }
}

// The job of the words. It takes no memory. Names that are there are in their forms, so no number is made up.
pub(crate) fn read_check(words: &Words) -> Result<Job, WordFault>
    requires { 0 < length words.now }
    ensures { result ≡ check_words (drop 1 words.now) }
{
    let (options, names) = read::<CheckOptions>(words)?;
    Ok(Job::Check(CheckJob {
        seed: value::count(names.text(0)).unwrap_or(0),
        width: value::size(names.text(1)).unwrap_or(0),
        height: value::size(names.text(2)).unwrap_or(0),
        values: value::values(names.text(3)).unwrap_or(0),
        kind: options.kind,
    }))
}
