// The line on standard error.
ghost use Rattle.std.specs.Prelude.{◌≡◌, ◌++◌, codes, decimal};
ghost use Rattle.rv_outside.specs.Sink.{Says};
ghost use Rattle.asc_grid.specs.declared.fault.GridFault.TheVariants.{At};
ghost use Rattle.tool_outcome.specs.Message.{grid_text, line_of_grid, line_of_words, word_text};
ghost use Rattle.tool_words.specs.declared.fault.WordFault.TheVariants.{At as AtWord};
ghost use Rattle.tool_run.specs.Inner.Steps.{grid_number, grid_words};
ghost use Rattle.tool_run.specs.Line.{SaysLine};

use asc_grid::GridKind;
use itoa::Buffer;
use rv_outside::{Sink, Trouble, say};
use tool_words::WordKind;

/// Hands three texts to a sink, one after the other, so that the line takes no memory.
pub(crate) fn say_three<S: Sink>(sink: &mut S, a: &[u8], b: &[u8], c: &[u8]) -> Result<(), Trouble>
    ensures { Says (a.now ++ b.now ++ c.now) result (S.state sink.old) (S.state sink.new) }
{
    say(sink, a)?;
    say(sink, b)?;
    say(sink, c)?;
    Ok(())
}

/// Writes a line that begins with a name, which may be empty. A sink that fails is let be.
pub fn say_line<S: Sink>(sink: &mut S, name: &str, text: &str)
    ensures { SaysLine (name.now ++ text.now) (S.state sink.old) (S.state sink.new) }
{
    let _ = say_three(sink, name.as_bytes(), text.as_bytes(), b"");
}

/// Hands the line of a text with a number behind it to a sink.
pub(crate) fn say_counted<S: Sink>(sink: &mut S, text: &str, number: u64) -> Result<(), Trouble>
    ensures { Says (text.now ++ decimal number ++ codes "\n") result (S.state sink.old) (S.state sink.new) }
{
    let mut digits = Buffer::new();
    let number = digits.format(number).as_bytes();
    say_three(sink, text.as_bytes(), number, b"\n")
}

/// Writes the line of a text with a number behind it. A sink that fails is let be.
pub fn say_number<S: Sink>(sink: &mut S, text: &str, number: u64)
    ensures { SaysLine (text.now ++ decimal number ++ codes "\n") (S.state sink.old) (S.state sink.new) }
{
    let _ = say_counted(sink, text, number);
}

fn word_text(kind: WordKind) -> &'static str
    ensures { result.now ≡ word_text kind }
{
    match kind {
        WordKind::NoTool => "no tool",
        WordKind::UnknownTool => "unknown tool",
        WordKind::UnknownOption => "unknown option",
        WordKind::MissingValue => "missing value",
        WordKind::BadValue => "bad value",
        WordKind::MissingName => "missing name",
        WordKind::ExtraWord => "extra word",
        WordKind::Combination => "bad combination",
    }
}

fn word_said<S: Sink>(sink: &mut S, kind: WordKind, place: u64) -> Result<(), Trouble>
    ensures { Says (line_of_words (AtWord kind place)) result (S.state sink.old) (S.state sink.new) }
{
    let mut digits = Buffer::new();
    let place = digits.format(place).as_bytes();
    say_three(
        sink,
        b"gdal_tools: ",
        word_text(kind).as_bytes(),
        b" at word ",
    )?;
    say(sink, place)?;
    say(sink, b"\n")?;
    Ok(())
}

/// Writes the line of refused words. A sink that fails is let be.
pub fn say_word<S: Sink>(sink: &mut S, kind: WordKind, place: u64)
    ensures { SaysLine (line_of_words (AtWord kind place)) (S.state sink.old) (S.state sink.new) }
{
    let _ = word_said(sink, kind, place);
}

fn words_of(kind: GridKind) -> &'static str
    ensures { result.now ≡ grid_words kind }
{
    match kind {
        GridKind::UnknownKeyword => "unknown keyword",
        GridKind::RepeatedKeyword => "repeated keyword",
        GridKind::MissingKeyword => "missing keyword",
        GridKind::BadNumber => "bad number",
        GridKind::OutOfRange => "out of range",
        GridKind::TooLarge(_) => "too large: ",
        GridKind::BadCell => "bad cell",
        GridKind::TooFewCells => "too few cells",
        GridKind::TooManyCells => "too many cells",
    }
}

fn number_of(kind: GridKind, buffer: &mut Buffer) -> &str
    ensures { result.now ≡ grid_number kind }
{
    match kind {
        GridKind::TooLarge(cells) => buffer.format(cells),
        _ => "",
    }
}

fn offence_said<S: Sink>(sink: &mut S, name: &str, line: u64, kind: GridKind) -> Result<(), Trouble>
    ensures { Says (line_of_grid name.now (At kind line)) result (S.state sink.old) (S.state sink.new) }
{
    let mut digits = Buffer::new();
    let mut cells = Buffer::new();
    let line = digits.format(line).as_bytes();
    let words = words_of(kind).as_bytes();
    let number = number_of(kind, &mut cells).as_bytes();
    say_three(sink, name.as_bytes(), b": line ", line)?;
    say_three(sink, b": ", words, number)?;
    say(sink, b"\n")?;
    Ok(())
}

/// Writes the line of a grid's offence. A sink that fails is let be.
pub fn say_offence<S: Sink>(sink: &mut S, name: &str, line: u64, kind: GridKind)
    ensures { SaysLine (line_of_grid name.now (At kind line)) (S.state sink.old) (S.state sink.new) }
{
    let _ = offence_said(sink, name, line, kind);
}
