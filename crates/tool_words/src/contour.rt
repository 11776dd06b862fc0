// The words of gdal_contour.
ghost use Rattle.std.specs.Prelude.{◌≡◌, ◌<◌, ◌++◌, IfOk, OnOk, drop, length, pos};
ghost use Rattle.std.specs.List.{flat_map};
ghost use Rattle.tool_words.specs.Contour.{contour_grammar, levels_in};
ghost use Rattle.tool_words.specs.Grammar.{pieces_of};
ghost use Rattle.tool_words.specs.Job.{IsAnswer, contour_words};

use crate::fault::WordFault;
use crate::job::{ContourJob, Job, MicroList};
use crate::options::{Options, Wanted};
use crate::piece::Piece;
use crate::reading::{piece_at, read};
use crate::value::decimal;
use crate::words::{Name, Words};
use cell_base::{Cell, Micro};
use std::alloc::{AllocError, Global};
use std::marker::Model;

fn zero() -> Micro
    ensures { result ≡ pos 0 }
{
    <Micro as Cell>::clamp_from(0)
}

// What the options of gdal_contour choose, and whether fixed levels are given.
#[derive(Drop)]
pub(crate) struct ContourOptions<'w> {
    interval: Option<Micro>,
    offset: Micro,
    has_fixed: bool,
    field: Option<&'w str>,
}

impl<'w> Model for ContourOptions<'w> {
    ghost use Rattle.std.specs.Option.{option_copied};
    ghost use Rattle.tool_words.specs.Contour.{ContourChoice};

    ghost Value = { ContourChoice };

    ghost view = { λ options. record {
      interval = options.interval;
      offset = options.offset;
      has_fixed = options.has_fixed;
      field = option_copied options.field;
    } };
}

impl<'w> Options<'w> for ContourOptions<'w> {
    ghost use Rattle.std.specs.Prelude.{◌≡◌, option_map, slice_get};
    ghost use Rattle.tool_words.specs.Grammar.{takes_of};
    ghost use Rattle.tool_words.specs.Inner.Read.{wanted_of};
    ghost use Rattle.tool_words.specs.Contour.{contour_chooses, contour_clash, contour_default, contour_grammar};
    ghost use Rattle.tool_words.specs.Inner.Laws.{two_names};

    ghost grammar = { contour_grammar };

    ghost default = { contour_default };

    ghost chooses = { contour_chooses };

    ghost clashes = { contour_clash };

    ghost few_names = { two_names };

    fn new() -> ContourOptions<'w> {
        ContourOptions {
            interval: None,
            offset: zero(),
            has_fixed: false,
            field: None,
        }
    }

    fn wanted(option: &str) -> Option<Wanted>
        ensures { result ≡ option_map wanted_of (takes_of contour_grammar option.now) }
    {
        match option {
            "-fl" => Some(Wanted::Numbers),
            "-i" | "-off" | "-a" | "-nln" => Some(Wanted::Each(1)),
            "-f" | "-lco" | "-b" => Some(Wanted::Each(1)),
            "-q" => Some(Wanted::Each(0)),
            _ => None,
        }
    }

    fn choose(&mut self, piece: &Piece<'w>) -> Result<(), WordFault> {
        match piece.word() {
            "-i" => self.interval = Some(piece.interval(0)?),
            "-off" => self.offset = piece.decimal(0)?,
            "-fl" => self.has_fixed = true,
            "-a" => self.field = Some(piece.field(0)?),
            "-f" => piece.only(0, "CSV")?,
            "-lco" => piece.only(0, "GEOMETRY=AS_WKT")?,
            "-b" => piece.only(0, "1")?,
            _ => {}
        }
        Ok(())
    }

    fn is_name(number: usize, _name: &str) -> Option<bool>
        ensures { result ≡ option_map (λ form. form _name.now) (slice_get contour_grammar.names number) }
    {
        if number < 2 { Some(true) } else { None }
    }

    fn required() -> usize
        ensures { result ≡ contour_grammar.required }
    {
        2
    }

    fn clash(&self) -> bool {
        self.interval.is_none() && !self.has_fixed
    }
}

// Adds the levels of a piece, where it is a list of fixed levels.
fn add_levels(piece: &Piece<'_>, levels: &mut MicroList) -> Result<(), AllocError>
    ensures { OnOk result (levels.new ≡ levels.old ++ levels_in piece.now) }
{
    if piece.word() != "-fl" {
        return Ok(());
    }
    'levels: for i in 0..piece.len() {
        levels.push(decimal(piece.value(i)).unwrap_or(zero()))?;
    }
    Ok(())
}

// The fixed levels, of all lists together. The only error is want of memory.
fn fixed_levels(alloc: Global, words: &Words) -> Result<MicroList, AllocError>
    requires { 0 < length words.now }
    ensures { IfOk result (λ levels. levels ≡ flat_map levels_in (pieces_of contour_grammar (drop 1 words.now))) }
{
    let mut levels = MicroList::new(alloc);
    let mut at = 1;
    'words: while at < words.len() {
        let piece = piece_at::<ContourOptions>(words, at, words.word(at));
        add_levels(&piece, &mut levels)?;
        at = at + 1 + piece.len();
    }
    Ok(levels)
}

impl<'w> ContourOptions<'w> {
    // The name of the field that gets the level, if one does.
    fn field(&self, alloc: Global) -> Result<Option<Name>, AllocError>
        ensures { IfOk result (λ field. field ≡ self.now.field) }
    {
        match self.field {
            Some(name) => Ok(Some(Name::of(alloc, name)?)),
            None => Ok(None),
        }
    }
}

// The job of the words.
pub(crate) fn read_contour(alloc: Global, words: &Words) -> Result<Job, WordFault>
    requires { 0 < length words.now }
    ensures { IsAnswer (contour_words (drop 1 words.now)) result }
{
    let (options, names) = read::<ContourOptions>(words)?;
    Ok(Job::Contour(ContourJob {
        source: names.copied(alloc, 0)?,
        dest: names.copied(alloc, 1)?,
        interval: options.interval,
        offset: options.offset,
        fixed: fixed_levels(alloc, words)?,
        field: options.field(alloc)?,
    }))
}
