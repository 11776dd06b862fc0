// A sink that takes text.
ghost use Rattle.std.specs.Prelude.{◌<◌, length};
ghost use Rattle.rv_outside.specs.Sink.{SinkState, Puts};

use crate::Trouble;

/// Something that takes bytes, as standard error does.
///
/// `state` has what it took, where it tells that, and two counts; a sink that tells what it took before a
/// call tells it after the call. `faults` rises by one exactly where a call answers `Failed`, and `wants`
/// where it answers `NoMemory`; each stands still at the last value of a `u64`.
pub trait Sink {
    ghost state: { Self → SinkState };

    /// Takes the first bytes of a piece, at least one, and says how many. After an error it took none.
    fn put(&mut self, piece: &[u8]) -> Result<usize, Trouble>
        requires { 0 < length piece.now }
        ensures { Puts piece.now result (state self.old) (state self.new) };
}
