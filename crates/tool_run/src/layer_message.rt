// The lines of refused layers, records and frames.
ghost use Rattle.std.specs.Prelude.{◌≡◌, ◌++◌};
ghost use Rattle.rv_outside.specs.Sink.{Says};
ghost use Rattle.tool_outcome.specs.Message.{line_of_frame, line_of_layer, line_of_record, wkt_text};
ghost use Rattle.tool_outcome.specs.Status.{status_of_frame, status_of_layer};
ghost use Rattle.tool_run.specs.Inner.Strokes.{frame_number, frame_words};
ghost use Rattle.tool_run.specs.Line.{SaysLine};

use crate::message::{say_line, say_three};
use geo_transform::FrameFault;
use itoa::Buffer;
use ogr_csv::LayerFault;
use rv_outside::{Sink, Trouble, say};
use tool_outcome::Status;
use wkt_text::WktKind;

// Says what is wrong with a record, in three parts.
fn record_said<S: Sink>(
    sink: &mut S,
    name: &str,
    number: u64,
    a: &[u8],
    b: &[u8],
    c: &[u8],
) -> Result<(), Trouble>
    ensures { Says (line_of_record name.now number (a.now ++ b.now ++ c.now)) result (S.state sink.old) (S.state sink.new) }
{
    let mut digits = Buffer::new();
    let number = digits.format(number).as_bytes();
    say_three(sink, name.as_bytes(), b": record ", number)?;
    say(sink, b": ")?;
    say_three(sink, a, b, c)?;
    say(sink, b"\n")?;
    Ok(())
}

/// Writes the line of a record. A sink that fails is let be.
pub fn say_record<S: Sink>(sink: &mut S, name: &str, number: u64, text: &str)
    ensures { SaysLine (line_of_record name.now number text.now) (S.state sink.old) (S.state sink.new) }
{
    let _ = record_said(sink, name, number, text.as_bytes(), b"", b"");
}

fn wkt_text(kind: WktKind) -> &'static str
    ensures { result.now ≡ wkt_text kind }
{
    match kind {
        WktKind::UnknownKind => "unknown kind",
        WktKind::Dimension => "bad dimension",
        WktKind::Syntax => "bad syntax",
        WktKind::BadNumber => "bad number",
        WktKind::OutOfRange => "out of range",
        WktKind::ShortRing => "short ring",
        WktKind::OpenRing => "open ring",
    }
}

// Writes the line of a geometry that is refused.
fn say_geometry<S: Sink>(sink: &mut S, name: &str, number: u64, kind: WktKind, byte: u64)
    ensures { SaysLine (line_of_layer name.now (LayerFault.BadGeometry number kind byte)) (S.state sink.old) (S.state sink.new) }
{
    let mut digits = Buffer::new();
    let byte = digits.format(byte).as_bytes();
    let _ = record_said(
        sink,
        name,
        number,
        wkt_text(kind).as_bytes(),
        b" at byte ",
        byte,
    );
}

/// Says why the source has no features.
pub fn say_layer<S: Sink>(sink: &mut S, name: &str, fault: LayerFault) -> Status
    ensures status { result ≡ status_of_layer fault }
    ensures line { SaysLine (line_of_layer name.now fault) (S.state sink.old) (S.state sink.new) }
{
    match fault {
        LayerFault::NoHeader => {
            say_line(sink, name, ": no header\n");
            Status::BadInput
        }
        LayerFault::NoGeometryColumn => {
            say_line(sink, name, ": no geometry column\n");
            Status::BadInput
        }
        LayerFault::NoField => {
            say_line(sink, name, ": no such field\n");
            Status::BadInput
        }
        LayerFault::BadGeometry { at, kind, byte } => {
            say_geometry(sink, name, at, kind, byte);
            Status::BadInput
        }
        LayerFault::BadAttribute { at } => {
            say_record(sink, name, at, "bad attribute");
            Status::BadInput
        }
        LayerFault::NoMemory => {
            say_line(sink, "", "out of memory\n");
            Status::NoMemory
        }
    }
}

fn words_of(fault: FrameFault) -> &'static str
    ensures { result.now ≡ frame_words fault }
{
    match fault {
        FrameFault::BadSize => "bad size",
        FrameFault::TooLarge(_) => "too large: ",
        FrameFault::BadCell => "bad cell",
        FrameFault::NotSquare => "not square",
        FrameFault::OutOfRange => "out of range",
    }
}

fn number_of(fault: FrameFault, buffer: &mut Buffer) -> &str
    ensures { result.now ≡ frame_number fault }
{
    match fault {
        FrameFault::TooLarge(cells) => buffer.format(cells),
        _ => "",
    }
}

fn frame_said<S: Sink>(sink: &mut S, fault: FrameFault) -> Result<(), Trouble>
    ensures { Says (line_of_frame fault) result (S.state sink.old) (S.state sink.new) }
{
    let mut cells = Buffer::new();
    let words = words_of(fault).as_bytes();
    let number = number_of(fault, &mut cells).as_bytes();
    say_three(sink, b"frame: ", words, number)?;
    say(sink, b"\n")?;
    Ok(())
}

fn status_of_frame(fault: FrameFault) -> Status
    ensures { result ≡ status_of_frame fault }
{
    match fault {
        FrameFault::TooLarge(_) => Status::TooLarge,
        _ => Status::BadInput,
    }
}

/// Says why there is no frame.
pub fn say_frame<S: Sink>(sink: &mut S, fault: FrameFault) -> Status
    ensures status { result ≡ status_of_frame fault }
    ensures line { SaysLine (line_of_frame fault) (S.state sink.old) (S.state sink.new) }
{
    let _ = frame_said(sink, fault);
    status_of_frame(fault)
}
