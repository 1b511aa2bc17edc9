ghost use Rattle.std.specs.Prelude.{◌≡◌, ◌^◌, ◌≤◌, ◌<◌, ◌++◌, [], IfSome, MatchOption, None, is_some, false, length, take};
ghost use Rattle.std.specs.Io.KnownBytes.{Consumes, IsAtEnd, Keeps};
ghost use Rattle.sv_io.specs.Counts.{raised};
ghost use Rattle.sv_io.specs.Stages.{is_at_end, may_read};

use crate::openings::Openings;
use crate::stage::Stage;
use crate::{Failed, Source};
use std::fs::File;
use std::io::{ErrorKind, Read};
use sv_log::Log;

/// The most bytes that a real source gives. A read past them fails.
const MOST_BYTES: u64 = 1 << 40;

#[derive(Drop)]
enum Place {
    File(File),
    Input,
}

/// A file, or standard input. It doesn't tell the bytes that are left, or its name. What it gave is a history that only
/// proofs read.
#[derive(Drop)]
pub struct StdSource {
    runtime: HostRuntime,
    place: Option<Place>,
    faults: u64,
    room: u64,
    last: usize,
    stage: Stage,
    given: Log<u8>,
    openings: Openings,
}

// Asks a reader for bytes, puts them behind those that were given, and answers how many came. A call that a signal cut
// short is made again, so many times at most.
fn ask<R: Read>(from: &mut R, buffer: &mut [u8], tries: u64, given: &mut Log<u8>) -> Option<usize>
    ensures most { IfSome result (λ count. count ≤ length buffer.new) }
    ensures size { length buffer.new ≡ length buffer.old }
    ensures given { MatchOption result (given.new.items ≡ given.old.items) (λ count. given.new.items ≡ given.old.items ++ take count buffer.new) }
    ensures bytes { MatchOption result (Keeps (R.remaining from.old) (R.remaining from.new)) (λ count. Consumes (R.remaining from.old) (R.remaining from.new) (take count buffer.new)) }
    ensures end { IfSome result (λ count. count ≡ 0 → 0 < length buffer.old → IsAtEnd (R.remaining from.new)) }
{
    'tries: for _try in 0..tries {
        match from.read(buffer) {
            Ok(count) => {
                *given = given.extend(&buffer[..count]);
                return Some(count);
            }
            Err(e) if e.kind() == ErrorKind::Interrupted => {}
            Err(_) => return None,
        }
    }
    None
}

impl StdSource {
    /// A source without faults that isn't open.
    pub fn new(runtime: HostRuntime) -> StdSource
        ensures closed { ⟦<StdSource as Source>⟧.is_open result ≡ false }
        ensures input { ⟦<StdSource as Source>⟧.input result ≡ record { given = []; last = 0; at_end = false; openings = [] } }
        ensures left { ⟦<StdSource as Source>⟧.left result ≡ None }
        ensures faults { ⟦<StdSource as Source>⟧.faults result ≡ 0 }
        ensures room { ⟦<StdSource as Source>⟧.room result ≡ 2 ^ 40 }
    {
        StdSource {
            runtime,
            place: None,
            faults: 0,
            room: MOST_BYTES,
            last: 0,
            stage: Stage::Closed,
            given: Log::new(),
            openings: Openings::new(),
        }
    }

    // Counts a fault, behind which nothing is read.
    fn fail(&mut self) -> Failed
        ensures counted { self.new ≡ record self.old { faults = raised self.old.faults; last = 0; stage = self.new.stage } }
        ensures later { self.old.faults ≤ self.new.faults }
        ensures end { is_at_end self.new.stage ≡ false }
        ensures stops { may_read self.new.stage ≡ false }
    {
        self.faults = self.faults.saturating_add(1);
        self.last = 0;
        self.stage = Stage::Failed;
        Failed
    }
}

impl Source for StdSource {
    ghost input = { λ s. record { given = s.given.items; last = s.last; at_end = is_at_end s.stage; openings = s.openings } };

    ghost goes_on = { λ s. may_read s.stage };

    ghost left = { λ s. None };

    ghost is_open = { λ s. is_some s.place };

    ghost own_name = { λ s. None };

    ghost is_astray = { λ s. false };

    ghost faults = { λ s. s.faults };

    ghost room = { λ s. s.room };

    fn open(&mut self, name: Option<&str>) -> Result<(), Failed> {
        self.openings = self.openings.and(name);
        let place = match name {
            None => Place::Input,
            Some(path) => match File::open(&self.runtime, path) {
                Ok(file) => Place::File(file),
                Err(_) => return Err(self.fail()),
            },
        };
        self.place = Some(place);
        self.last = 0;
        self.stage = Stage::Reading;
        Ok(())
    }

    fn read(&mut self, buffer: &mut [u8]) -> Result<usize, Failed> {
        let most = self.room.min(buffer.len() as u64) as usize;
        if most == 0 {
            return Err(self.fail());
        }
        let buffer = &mut buffer[..most];
        let answer = match &mut self.place {
            Some(Place::File(file)) => ask(file, buffer, self.room, &mut self.given),
            _ => ask(
                &mut self.runtime.stdin(),
                buffer,
                self.room,
                &mut self.given,
            ),
        };
        match answer {
            Some(count) => {
                self.room -= count as u64;
                self.last = count;
                self.stage = Stage::behind(count);
                Ok(count)
            }
            None => Err(self.fail()),
        }
    }
}
