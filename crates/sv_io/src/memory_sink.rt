ghost use Rattle.std.specs.Prelude.{◌≡◌, ◌≤◌, ◌<◌, ◌↔◌, ◌++◌, IsErrOf, IfOk, IsTrue, MatchResult, is_ok, not, min, length, take, [], if◌then◌else◌, true};
ghost use Rattle.sv_io.specs.Counts.{HasCause, Rose, raised};
ghost use Rattle.sv_io.specs.Memory.{is_failing, faults_after};

use crate::call_count::CallCount;
use crate::{Failed, Sink, SinkFault};
use std::alloc::Global;
use std::marker::Model;
use sv_log::Log;

/// A sink in memory, for tests: it takes bytes in pieces, and fails at chosen calls.
#[derive(Drop)]
pub struct MemSink {
    taken: Vec<u8>,
    calls: CallCount,
    piece: usize,
    faults: u64,
    sent: Log<u8>,
    goes_on: bool,
}

impl Model for MemSink {
    ghost use Rattle.std.specs.Prelude.{◌≤◌};
    ghost use Rattle.sv_io.specs.Memory.{Taken};

    ghost Value = { Taken };

    ghost view = { λ s. record { taken = s.taken.items; failing = s.calls.failing.items; piece = s.piece; calls = s.calls.made; faults = s.faults; sent = s.sent.items; goes_on = s.goes_on } };

    ghost invariant = { λ s. 1 ≤ s.piece };
}

impl MemSink {
    /// A sink that took nothing yet. Calls of `write` and `flush` are numbered from 0 on, up to
    /// the last `u64`, where the number stays: those in `failing` fail. A write takes at most
    /// `piece` bytes.
    pub fn new(alloc: Global, failing: Vec<u64>, piece: usize) -> MemSink
        requires { 1 ≤ piece }
        ensures { result ≡ record { taken = []; failing = failing.items; piece = piece; calls = 0; faults = 0; sent = []; goes_on = true } }
    {
        MemSink {
            taken: Vec::new(alloc),
            calls: CallCount::new(failing),
            piece,
            faults: 0,
            sent: Log::new(),
            goes_on: true,
        }
    }

    /// The bytes taken so far.
    pub fn contents(&self) -> &[u8]
        ensures { result.now ≡ self.now.taken }
    {
        &self.taken
    }
}

impl Sink for MemSink {
    ghost output = { λ s. record { taken = s.taken; sent = s.sent } };

    ghost goes_on = { λ s. s.goes_on };

    ghost faults = { λ s. s.faults };

    fn write(&mut self, piece: &[u8]) -> Result<usize, SinkFault>
        requires piece { 0 < length piece.now }
        requires goes_on { self.old.goes_on ≡ true }
        ensures failed { IsErrOf result SinkFault.Failed ↔ IsTrue (is_failing self.old.failing self.old.calls) }
        ensures later { self.old.faults ≤ self.new.faults }
        ensures cause { IsErrOf result SinkFault.Failed → Rose self.old.faults self.new.faults }
        ensures count { IfOk result (λ count. count ≡ min self.old.piece (length piece.now)) }
        ensures least { IfOk result (λ count. 1 ≤ count) }
        ensures taken { MatchResult result (λ count. self.new.taken ≡ self.old.taken ++ take count piece.now) (λ _. self.new.taken ≡ self.old.taken) }
        ensures state { self.new ≡ record self.old { taken = self.new.taken; goes_on = is_ok result; calls = raised self.old.calls; faults = faults_after (is_failing self.old.failing self.old.calls) self.old.faults } }
    {
        if self.calls.fails() {
            self.goes_on = false;
            self.faults = self.faults.saturating_add(1);
            return Err(SinkFault::Failed);
        }
        let count = self.piece.min(piece.len());
        match self.taken.extend_from_slice(&piece[..count]) {
            Ok(()) => Ok(count),
            Err(e) => {
                self.goes_on = false;
                Err(SinkFault::Memory(e))
            }
        }
    }

    fn flush(&mut self) -> Result<(), Failed>
        requires { self.old.goes_on ≡ true }
        ensures cause { HasCause self.old.faults self.new.faults result }
        ensures failed { is_ok result ≡ not (is_failing self.old.failing self.old.calls) }
        ensures state { self.new ≡ record self.old { sent = if is_ok result then self.old.taken else self.old.sent; goes_on = is_ok result; calls = raised self.old.calls; faults = faults_after (is_failing self.old.failing self.old.calls) self.old.faults } }
    {
        if self.calls.fails() {
            self.goes_on = false;
            self.faults = self.faults.saturating_add(1);
            return Err(Failed);
        }
        self.sent = Log::new().extend(&self.taken);
        Ok(())
    }
}
