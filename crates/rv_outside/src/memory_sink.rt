// A sink in memory.
ghost use Rattle.std.specs.Prelude.{◌≡◌, ◌∷◌, ◌++◌, [], ◌<◌, IsErrOf, OnErr, OnOk, length};
ghost use Rattle.rv_outside.specs.Sink.{Puts};

use crate::causes::raise;
use crate::{Sink, Trouble};
use std::alloc::{AllocError, Global};

/// A sink that keeps what it takes. Its calls can be made to fail.
#[derive(Drop)]
pub struct MemorySink {
    bytes: Vec<u8>,
    // which calls are to fail, counted from 1
    failing: Vec<u64>,
    puts: u64,
    faults: u64,
    wants: u64,
}

impl MemorySink {
    ghost use Rattle.rv_outside.specs.MemorySink.{sink_bytes, failing_puts, puts_of};

    /// An empty sink. It takes no memory.
    pub fn new(alloc: Global) -> MemorySink
        ensures empty { sink_bytes result ≡ [] }
        ensures sound { failing_puts result ≡ [] }
        ensures fresh { puts_of result ≡ 0 }
    {
        MemorySink {
            bytes: Vec::new(alloc),
            failing: Vec::new(alloc),
            puts: 0,
            faults: 0,
            wants: 0,
        }
    }

    /// What the sink has taken.
    pub fn bytes(&self) -> &[u8]
        ensures { result.now ≡ sink_bytes self.now }
    {
        self.bytes.as_slice()
    }

    /// Lets the n-th `put` fail, counted from 1 since the sink was made. The only error is want of memory,
    /// and it changes nothing.
    pub fn fail(&mut self, n: u64) -> Result<(), AllocError>
        ensures fails { OnOk result (failing_puts self.new ≡ failing_puts self.old ++ n ∷ []) }
        ensures same { sink_bytes self.new ≡ sink_bytes self.old }
        ensures calls { puts_of self.new ≡ puts_of self.old }
        ensures err { OnErr result (failing_puts self.new ≡ failing_puts self.old) }
    {
        self.failing.push(n)?;
        Ok(())
    }
}

impl Sink for MemorySink {
    ghost use Rattle.rv_outside.specs.MemorySink.{memory_sink_state, KeepsWord};

    ghost state = { memory_sink_state };

    fn put(&mut self, piece: &[u8]) -> Result<usize, Trouble>
        requires { 0 < length piece.now }
        ensures puts { Puts piece.now result (memory_sink_state self.old) (memory_sink_state self.new) }
        ensures word { KeepsWord (IsErrOf result Trouble.Failed) self.old self.new }
    {
        raise(&mut self.puts);
        if self.failing.contains(&self.puts) {
            raise(&mut self.faults);
            return Err(Trouble::Failed);
        }
        if self.bytes.extend_from_slice(piece).is_err() {
            raise(&mut self.wants);
            return Err(Trouble::NoMemory);
        }
        Ok(piece.len())
    }
}
