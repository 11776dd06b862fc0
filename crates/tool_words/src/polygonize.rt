// The words of gdal_polygonize.
ghost use Rattle.std.specs.Prelude.{◌<◌, drop, length};
ghost use Rattle.tool_words.specs.Job.{IsAnswer, polygonize_words};

use crate::fault::WordFault;
use crate::job::{Job, MaskFrom, PolygonizeJob};
use crate::options::{Options, Wanted};
use crate::piece::Piece;
use crate::reading::read;
use crate::value::is_field;
use crate::words::{Name, Words};
use std::alloc::Global;

/// What the options of `gdal_polygonize` choose.
#[derive(Clone, Copy, Debug, PartialEq, Eq)]
pub struct PolygonizeOptions {
    /// Whether cells that meet at a corner are neighbours.
    pub eight: bool,
}

impl<'w> Options<'w> for PolygonizeOptions {
    ghost use Rattle.std.specs.Prelude.{false};
    ghost use Rattle.tool_words.specs.Polygonize.{polygonize_chooses, polygonize_default, polygonize_grammar};
    ghost use Rattle.tool_words.specs.Inner.Laws.{four_names};

    ghost grammar = { polygonize_grammar };

    ghost default = { polygonize_default };

    ghost chooses = { polygonize_chooses };

    ghost clashes = { λ options. false };

    ghost few_names = { four_names };

    fn new() -> PolygonizeOptions {
        PolygonizeOptions { eight: false }
    }

    fn wanted(option: &str) -> Option<Wanted> {
        match option {
            "-f" | "-lco" | "-b" => Some(Wanted::Each(1)),
            "-8" | "-q" => Some(Wanted::Each(0)),
            _ => None,
        }
    }

    fn choose(&mut self, piece: &Piece<'w>) -> Result<(), WordFault> {
        match piece.word() {
            "-8" => self.eight = true,
            "-f" => piece.only(0, "CSV")?,
            "-lco" => piece.only(0, "GEOMETRY=AS_WKT")?,
            "-b" => piece.only(0, "1")?,
            _ => {}
        }
        Ok(())
    }

    // The source, the destination, a layer and a field.
    fn is_name(number: usize, name: &str) -> Option<bool> {
        match number {
            0..=2 => Some(true),
            3 => Some(is_field(name)),
            _ => None,
        }
    }

    fn required() -> usize {
        2
    }

    fn clash(&self) -> bool {
        false
    }
}

// The job of the words.
pub(crate) fn read_polygonize(alloc: Global, words: &Words) -> Result<Job, WordFault>
    requires { 0 < length words.now }
    ensures { IsAnswer (polygonize_words (drop 1 words.now)) result }
{
    let (options, names) = read::<PolygonizeOptions>(words)?;
    Ok(Job::Polygonize(PolygonizeJob {
        source: names.copied(alloc, 0)?,
        dest: names.copied(alloc, 1)?,
        field: Name::of(alloc, names.get(3).unwrap_or("DN"))?,
        eight: options.eight,
        mask: MaskFrom::Nodata,
    }))
}
