// Standard output or standard error. What was written there is not told.
ghost use Rattle.std.specs.Prelude.{◌≡◌, ◌<◌, length};
ghost use Rattle.std.specs.Io.KnownBytes.{WriteAppends};
ghost use Rattle.rv_outside.specs.Sink.{Puts};

use crate::causes::raise;
use crate::host::{write_answer, write_once};
use crate::{Sink, Trouble};
use std::io::Write;

/// A sink over one of the system's writers.
#[derive(Drop)]
pub struct StdSink<W: Write + Drop> {
    under: W,
    faults: u64,
    wants: u64,
}

impl<W: Write + Drop> StdSink<W> {
    ghost use Rattle.rv_outside.specs.StdSink.{std_sink_state, writer_of};

    /// A sink over this writer, whose counts are 0. It takes no memory.
    pub fn new(under: W) -> StdSink<W>
        ensures over { writer_of result ≡ under }
        ensures sound { (std_sink_state result).faults ≡ 0 }
        ensures satisfied { (std_sink_state result).wants ≡ 0 }
    {
        StdSink {
            under,
            faults: 0,
            wants: 0,
        }
    }
}

impl<W: Write + Drop> Sink for StdSink<W> {
    ghost use Rattle.rv_outside.specs.StdSink.{std_sink_state, writer_of};

    ghost state = { std_sink_state };

    /// Hands the piece to the writer, which takes its first bytes.
    fn put(&mut self, piece: &[u8]) -> Result<usize, Trouble>
        requires { 0 < length piece.now }
        ensures puts { Puts piece.now result (std_sink_state self.old) (std_sink_state self.new) }
        ensures under { WriteAppends (W.contents (writer_of self.old)) (W.contents (writer_of self.new)) result piece.now }
    {
        let answer = write_answer(write_once(&mut self.under, piece));
        match answer {
            Err(Trouble::Failed) => raise(&mut self.faults),
            Err(Trouble::NoMemory) => raise(&mut self.wants),
            Ok(_) => (),
        }
        answer
    }
}
