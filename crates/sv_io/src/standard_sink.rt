ghost use Rattle.std.specs.Prelude.{◌≡◌, ◌≤◌, ◌++◌, [], IfSome, MatchOption, length, take};
ghost use Rattle.std.specs.Io.KnownBytes.{Appends};

use crate::{Failed, Sink, SinkFault};
use std::io::{ErrorKind, Write};
use sv_log::Log;

/// How often a write is made again that signals cut short.
const MOST_TRIES: u64 = 1 << 40;

/// Standard output. What it took is a history that only proofs read. A write that takes nothing is a counted fault.
#[derive(Drop)]
pub struct StdSink {
    runtime: HostRuntime,
    faults: u64,
    taken: Log<u8>,
    sent: Log<u8>,
    goes_on: bool,
}

// Offers a writer bytes, puts those that it took behind those that were taken, and answers how many, at least 1. A call
// that a signal cut short is made again.
fn offer<W: Write>(to: &mut W, piece: &[u8], taken: &mut Log<u8>) -> Option<usize>
    ensures least { IfSome result (λ count. 1 ≤ count) }
    ensures most { IfSome result (λ count. count ≤ length piece.now) }
    ensures taken { MatchOption result (taken.new.items ≡ taken.old.items) (λ count. taken.new.items ≡ taken.old.items ++ take count piece.now) }
    ensures bytes { IfSome result (λ count. Appends (W.contents to.old) (W.contents to.new) (take count piece.now)) }
{
    'tries: for _try in 0..MOST_TRIES {
        match to.write(piece) {
            Ok(0) => return None,
            Ok(count) => {
                *taken = taken.extend(&piece[..count]);
                return Some(count);
            }
            Err(e) if e.kind() == ErrorKind::Interrupted => {}
            Err(_) => return None,
        }
    }
    None
}

impl StdSink {
    ghost use Rattle.std.specs.Prelude.{true};

    /// A sink without faults over the process's standard output.
    pub fn new(runtime: HostRuntime) -> StdSink
        ensures output { ⟦<StdSink as Sink>⟧.output result ≡ record { taken = []; sent = [] } }
        ensures goes_on { ⟦<StdSink as Sink>⟧.goes_on result ≡ true }
        ensures faults { ⟦<StdSink as Sink>⟧.faults result ≡ 0 }
    {
        StdSink {
            runtime,
            faults: 0,
            taken: Log::new(),
            sent: Log::new(),
            goes_on: true,
        }
    }
}

impl Sink for StdSink {
    ghost output = { λ s. record { taken = s.taken.items; sent = s.sent.items } };

    ghost goes_on = { λ s. s.goes_on };

    ghost faults = { λ s. s.faults };

    fn write(&mut self, piece: &[u8]) -> Result<usize, SinkFault> {
        match offer(&mut self.runtime.stdout(), piece, &mut self.taken) {
            Some(count) => Ok(count),
            None => {
                self.goes_on = false;
                self.faults = self.faults.saturating_add(1);
                Err(SinkFault::Failed)
            }
        }
    }

    fn flush(&mut self) -> Result<(), Failed> {
        match self.runtime.stdout().flush() {
            Ok(()) => {
                self.sent = self.taken.extend(&[]);
                Ok(())
            }
            Err(_) => {
                self.goes_on = false;
                self.faults = self.faults.saturating_add(1);
                Err(Failed)
            }
        }
    }
}
