// The words of gdal_rasterize.
ghost use Rattle.std.specs.Prelude.{◌≡◌, ◌<◌, IfOk, drop, length};
ghost use Rattle.tool_words.specs.Rasterize.{size_from, value_from};
ghost use Rattle.tool_words.specs.Inner.Read.{ReadsExtent};
ghost use Rattle.tool_words.specs.Job.{IsAnswer, rasterize_words};

use crate::fault::WordFault;
use crate::job::{Job, RasterizeJob, SizeFrom, ValueFrom};
use crate::options::{Options, Wanted};
use crate::piece::Piece;
use crate::reading::read;
use crate::words::{Name, Words};
use cell_base::CellKind;
use fixed_coord::Coord;
use geo_transform::Extent;
use std::alloc::{AllocError, Global};
use std::marker::Model;

// What the options of gdal_rasterize choose.
#[derive(Drop)]
pub(crate) struct RasterizeOptions<'w> {
    burn: Option<i64>,
    field: Option<&'w str>,
    invert: bool,
    touched: bool,
    add: bool,
    init: i64,
    nodata: Option<i64>,
    extent: Option<Extent>,
    resolution: Option<(Coord, Coord)>,
    size: Option<(u32, u32)>,
    kind: CellKind,
}

impl<'w> Model for RasterizeOptions<'w> {
    ghost use Rattle.std.specs.Option.{option_copied};
    ghost use Rattle.tool_words.specs.Rasterize.{RasterizeChoice};

    ghost Value = { RasterizeChoice };

    ghost view = { λ options. record {
      burn = options.burn;
      field = option_copied options.field;
      invert = options.invert;
      touched = options.touched;
      add = options.add;
      init = options.init;
      nodata = options.nodata;
      extent = options.extent;
      resolution = options.resolution;
      size = options.size;
      kind = options.kind;
    } };
}

// Four values of a piece as an extent.
fn extent_in(piece: &Piece<'_>) -> Result<Extent, WordFault>
    requires { length piece.now.values ≡ 4 }
    ensures { ReadsExtent piece.now result }
{
    Ok(Extent {
        xmin: piece.coord(0)?,
        ymin: piece.coord(1)?,
        xmax: piece.coord(2)?,
        ymax: piece.coord(3)?,
    })
}

impl<'w> Options<'w> for RasterizeOptions<'w> {
    ghost use Rattle.std.specs.Prelude.{◌≡◌, option_map, slice_get};
    ghost use Rattle.tool_words.specs.Grammar.{takes_of};
    ghost use Rattle.tool_words.specs.Inner.Read.{wanted_of};
    ghost use Rattle.tool_words.specs.Rasterize.{rasterize_chooses, rasterize_clash, rasterize_default, rasterize_grammar};
    ghost use Rattle.tool_words.specs.Inner.Laws.{two_names};

    ghost grammar = { rasterize_grammar };

    ghost default = { rasterize_default };

    ghost chooses = { rasterize_chooses };

    ghost clashes = { rasterize_clash };

    ghost few_names = { two_names };

    fn new() -> RasterizeOptions<'w> {
        RasterizeOptions {
            burn: None,
            field: None,
            invert: false,
            touched: false,
            add: false,
            init: 0,
            nodata: None,
            extent: None,
            resolution: None,
            size: None,
            kind: CellKind::Int64,
        }
    }

    fn wanted(option: &str) -> Option<Wanted>
        ensures { result ≡ option_map wanted_of (takes_of rasterize_grammar option.now) }
    {
        match option {
            "-te" => Some(Wanted::Each(4)),
            "-tr" | "-ts" => Some(Wanted::Each(2)),
            "-burn" | "-a" | "-init" | "-a_nodata" | "-ot" => Some(Wanted::Each(1)),
            "-l" | "-of" | "-b" => Some(Wanted::Each(1)),
            "-i" | "-at" | "-add" | "-q" => Some(Wanted::Each(0)),
            _ => None,
        }
    }

    fn choose(&mut self, piece: &Piece<'w>) -> Result<(), WordFault> {
        match piece.word() {
            "-burn" => self.burn = Some(piece.number(0)?),
            "-a" => self.field = Some(piece.value(0)),
            "-i" => self.invert = true,
            "-at" => self.touched = true,
            "-add" => self.add = true,
            "-init" => self.init = piece.number(0)?,
            "-a_nodata" => self.nodata = Some(piece.number(0)?),
            "-te" => self.extent = Some(extent_in(piece)?),
            "-tr" => self.resolution = Some((piece.resolution(0)?, piece.resolution(1)?)),
            "-ts" => self.size = Some((piece.size(0)?, piece.size(1)?)),
            "-ot" => self.kind = piece.kind(0)?,
            "-of" => piece.only(0, "AAIGrid")?,
            "-b" => piece.only(0, "1")?,
            _ => {}
        }
        Ok(())
    }

    fn is_name(number: usize, _name: &str) -> Option<bool>
        ensures { result ≡ option_map (λ form. form _name.now) (slice_get rasterize_grammar.names number) }
    {
        if number < 2 { Some(true) } else { None }
    }

    fn required() -> usize
        ensures { result ≡ rasterize_grammar.required }
    {
        2
    }

    fn clash(&self) -> bool {
        self.burn.is_some() == self.field.is_some()
            || self.resolution.is_some() == self.size.is_some()
    }
}

impl<'w> RasterizeOptions<'w> {
    fn value(&self, alloc: Global) -> Result<ValueFrom, AllocError>
        ensures { IfOk result (λ value. value ≡ value_from self.now) }
    {
        match self.burn {
            Some(value) => Ok(ValueFrom::Burn(value)),
            None => Ok(ValueFrom::Field(Name::of(alloc, self.field.unwrap_or(""))?)),
        }
    }

    fn size(&self) -> SizeFrom
        ensures { result ≡ size_from self.now }
    {
        if let Some((x, y)) = self.resolution {
            return SizeFrom::Res { x, y };
        }
        let (ncols, nrows) = self.size.unwrap_or((0, 0));
        SizeFrom::Cells { ncols, nrows }
    }
}

// The job of the words.
pub(crate) fn read_rasterize(alloc: Global, words: &Words) -> Result<Job, WordFault>
    requires { 0 < length words.now }
    ensures { IsAnswer (rasterize_words (drop 1 words.now)) result }
{
    let (options, names) = read::<RasterizeOptions>(words)?;
    Ok(Job::Rasterize(RasterizeJob {
        source: names.copied(alloc, 0)?,
        dest: names.copied(alloc, 1)?,
        value: options.value(alloc)?,
        invert: options.invert,
        touched: options.touched,
        add: options.add,
        init: options.init,
        nodata: options.nodata,
        extent: options.extent,
        size: options.size(),
        kind: options.kind,
    }))
}
