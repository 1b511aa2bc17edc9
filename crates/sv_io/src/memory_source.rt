ghost use Rattle.std.specs.Prelude.{◌≡◌, ◌↔◌, ◌==◌, ◌≤◌, ◌<◌, ◌++◌, ◌∷◌, [], IsTrue, min, length, take, string_bytes, is_ok, IfOk, MatchResult, not, Some, false, true};
ghost use Rattle.std.specs.Io.KnownBytes.{ReadConsumes};
ghost use Rattle.std.specs.Option.{option_map};
ghost use Rattle.sv_io.specs.Counts.{HasCause, raised};
ghost use Rattle.sv_io.specs.Memory.{is_failing, faults_after};

use crate::call_count::CallCount;
use crate::openings::Openings;
use crate::stage::Stage;
use crate::{Failed, Source};
use std::marker::Model;

/// A source in memory, for tests: it gives its bytes in pieces, and fails at chosen calls.
#[derive(Drop)]
pub struct MemSource {
    name: Option<String>,
    bytes: Vec<u8>,
    at: usize,
    calls: CallCount,
    piece: usize,
    is_open: bool,
    is_astray: bool,
    faults: u64,
    last: usize,
    stage: Stage,
    openings: Openings,
}

impl Model for MemSource {
    ghost use Rattle.std.specs.Prelude.{◌≤◌, length, take, drop, string_bytes};
    ghost use Rattle.std.specs.Option.{option_map};
    ghost use Rattle.sv_io.specs.Memory.{Given};
    ghost use Rattle.sv_io.specs.Stages.{is_at_end, may_read};

    ghost Value = { Given };

    ghost view = { λ s. record { name = option_map string_bytes s.name; left = drop s.at s.bytes.items; failing = s.calls.failing.items; piece = s.piece; calls = s.calls.made; is_open = s.is_open; is_astray = s.is_astray; faults = s.faults; last = s.last; given = take s.at s.bytes.items; at_end = is_at_end s.stage; goes_on = may_read s.stage; openings = s.openings } };

    ghost invariant = { λ s. (s.at ≤ length s.bytes.items) × (1 ≤ s.piece) };
}

impl MemSource {
    /// A source that isn't open, with this name or none. Calls of `open` and `read` are numbered
    /// from 0 on, up to the last `u64`, where the number stays: those in `failing` fail, and so
    /// does an `open` with another name. A read gives at most `piece` bytes.
    pub fn new(name: Option<String>, bytes: Vec<u8>, failing: Vec<u64>, piece: usize) -> MemSource
        requires { 1 ≤ piece }
        ensures { result ≡ record { name = option_map string_bytes name; left = bytes.items; failing = failing.items; piece = piece; calls = 0; is_open = false; is_astray = false; faults = 0; last = 0; given = []; at_end = false; goes_on = false; openings = [] } }
    {
        MemSource {
            name,
            bytes,
            at: 0,
            calls: CallCount::new(failing),
            piece,
            is_open: false,
            is_astray: false,
            faults: 0,
            last: 0,
            stage: Stage::Closed,
            openings: Openings::new(),
        }
    }

    fn is_own(&self, name: Option<&str>) -> bool
        ensures { IsTrue result ↔ (option_map (λ text. text.now) name.entry ≡ self.now.name) }
    {
        match (&self.name, name) {
            (None, None) => true,
            (Some(own), Some(name)) => own.as_str() == name,
            _ => false,
        }
    }
}

impl Source for MemSource {
    ghost input = { λ s. record { given = s.given; last = s.last; at_end = s.at_end; openings = s.openings } };

    ghost goes_on = { λ s. s.goes_on };

    ghost left = { λ s. Some s.left };

    ghost is_open = { λ s. s.is_open };

    ghost own_name = { λ s. Some s.name };

    ghost is_astray = { λ s. s.is_astray };

    ghost faults = { λ s. s.faults };

    ghost room = { λ s. length s.left };

    fn open(&mut self, name: Option<&str>) -> Result<(), Failed>
        requires { self.old.is_open ≡ false }
        ensures decided { IsTrue (is_ok result) ↔ ((is_failing self.old.failing self.old.calls ≡ false) × (option_map (λ text. text.now) name.entry ≡ self.old.name)) }
        ensures right { option_map (λ text. text.now) name.entry ≡ self.old.name → self.new.is_astray ≡ self.old.is_astray }
        ensures cause { HasCause self.old.faults self.new.faults result }
        ensures wrong { (option_map (λ text. text.now) name.entry ≡ self.old.name → ⊥) → self.new.is_astray ≡ true }
        ensures state { self.new ≡ record self.old { calls = raised self.old.calls; is_open = is_ok result; is_astray = self.new.is_astray; faults = faults_after (not (is_ok result)) self.old.faults; last = 0; at_end = false; goes_on = is_ok result; openings = self.old.openings ++ option_map (λ text. text.now) name.entry ∷ [] } }
    {
        self.openings = self.openings.and(name);
        self.last = 0;
        let fails = self.calls.fails();
        let is_own = self.is_own(name);
        if !is_own {
            self.is_astray = true;
        }
        if fails || !is_own {
            self.stage = Stage::Failed;
            self.faults = self.faults.saturating_add(1);
            return Err(Failed);
        }
        self.stage = Stage::Reading;
        self.is_open = true;
        Ok(())
    }

    fn read(&mut self, buffer: &mut [u8]) -> Result<usize, Failed>
        requires open { self.old.is_open ≡ true }
        requires goes_on { self.old.goes_on ≡ true }
        requires place { 0 < length buffer.old }
        ensures cause { HasCause self.old.faults self.new.faults result }
        ensures failed { is_ok result ≡ not (is_failing self.old.failing self.old.calls) }
        ensures count { IfOk result (λ count. count ≡ min (min (length self.old.left) self.old.piece) (length buffer.new)) }
        ensures bytes { ReadConsumes (Some self.old.left) (Some self.new.left) result buffer.new }
        ensures given { MatchResult result (λ count. self.new.given ≡ self.old.given ++ take count buffer.new) (λ _. self.new.given ≡ self.old.given) }
        ensures whole { self.new.given ++ self.new.left ≡ self.old.given ++ self.old.left }
        ensures last { MatchResult result (λ count. self.new.last ≡ count) (λ _. self.new.last ≡ 0) }
        ensures at_end { MatchResult result (λ count. self.new.at_end ≡ (count == 0)) (λ _. self.new.at_end ≡ false) }
        ensures goes_on { MatchResult result (λ count. self.new.goes_on ≡ not (count == 0)) (λ _. self.new.goes_on ≡ false) }
        ensures state { self.new ≡ record self.old { left = self.new.left; calls = raised self.old.calls; faults = faults_after (not (is_ok result)) self.old.faults; last = self.new.last; given = self.new.given; at_end = self.new.at_end; goes_on = self.new.goes_on } }
    {
        if self.calls.fails() {
            self.stage = Stage::Failed;
            self.last = 0;
            self.faults = self.faults.saturating_add(1);
            return Err(Failed);
        }
        let left = self.bytes.len() - self.at;
        let count = left.min(self.piece).min(buffer.len());
        buffer[..count].copy_from_slice(&self.bytes[self.at..self.at + count]);
        self.at += count;
        self.last = count;
        self.stage = Stage::behind(count);
        Ok(count)
    }
}
