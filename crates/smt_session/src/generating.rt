//! Answers a generated script.
ghost use Rattle.std.specs.Prelude.{◌≡◌, ◌≤◌, ◌⊎◌, [], true};
ghost use Rattle.generated_script.specs.Summary.{summary_text};
ghost use Rattle.sv_io.specs.Counts.{Rose};
ghost use Rattle.sv_io.specs.Histories.{Output, Sends, Takes};
ghost use Rattle.generated_script.specs.Blocks.{script};
ghost use Rattle.generated_verdicts.specs.Table.{table_of};
ghost use Rattle.smt_session.specs.Generated.{IsGenerated, StopsIn, tally_of};
ghost use Rattle.smt_session.specs.Awaiting.{AwaitsItem};

use crate::answering::Answering;
use crate::log::ReplyLog;
use crate::status::{ProgramRun, Status};
use generated_script::{Blocks, summary};
use std::alloc::Global;
use std::thread::Threads;
use sv_io::{Failed, Sink, SinkFault, write_all};
use sv_log::Log;

/// Takes what is written to it, and keeps none of it but a history that only proofs read.
#[derive(Drop)]
struct Mute {
    taken: Log<u8>,
    sent: Log<u8>,
}

impl Mute {
    /// Nothing was written.
    fn new() -> Mute {
        Mute {
            taken: Log::new(),
            sent: Log::new(),
        }
    }
}

impl Sink for Mute {
    ghost output = { λ m. record { taken = m.taken.items; sent = m.sent.items } };

    ghost goes_on = { λ m. true };

    ghost faults = { λ m. 0 };

    fn write(&mut self, piece: &[u8]) -> Result<usize, SinkFault> {
        self.taken = self.taken.extend(piece);
        Ok(piece.len())
    }

    fn flush(&mut self) -> Result<(), Failed> {
        self.sent = self.taken.extend(&[]);
        Ok(())
    }
}

// Answers the generated script of this seed block by block, and writes nothing.
fn answer_blocks<R: Threads + Sync>(
    rt: &R,
    alloc: Global,
    answering: &mut Answering,
    seed: u64,
    size: u64,
) -> Status
    requires { (output : Output) → AwaitsItem answering.old [] output output }
    ensures { StopsIn (script seed size) answering.new.replies result }
{
    let mut blocks = Blocks::new(seed);
    let mut mute = Mute::new();
    for _block in 0..size {
        let text = match blocks.next(alloc) {
            Ok(text) => text,
            Err(_) => return Status::NoMemory,
        };
        match answering.feed(&text) {
            Ok(()) => {}
            Err(_) => return Status::NoMemory,
        }
        if let Some(status) = answering.answer_whole(rt, alloc, &mut mute) {
            return status;
        }
    }
    answering.answer_rest(rt, alloc, &mut mute)
}

// Writes the line that sums up the verdicts, and says how that went.
fn write_summary<K: Sink>(alloc: Global, size: u64, log: &ReplyLog, sink: &mut K) -> Status
    requires { K.goes_on sink.old ≡ true }
    ensures statuses { (result ≡ Status.Answered) ⊎ (result ≡ Status.WriteFailed) ⊎ (result ≡ Status.NoMemory) }
    ensures whole { result ≡ Status.Answered → Sends (K.output sink.old) (K.output sink.new) (summary_text size (tally_of log.now)) }
    ensures front { Takes (K.output sink.old) (K.output sink.new) (summary_text size (tally_of log.now)) }
    ensures failed { result ≡ Status.WriteFailed → Rose (K.faults sink.old) (K.faults sink.new) }
{
    let tally = log.tally();
    let text = match summary(alloc, size, &tally) {
        Ok(text) => text,
        Err(_) => return Status::NoMemory,
    };
    match write_all(sink, &text) {
        Ok(()) => Status::Answered,
        Err(fault) => Status::of_fault(fault),
    }
}

/// Answers the generated script of this seed, with so many blocks, and writes the one line that sums up
/// its verdicts. A block is answered before the next one is made, so that memory doesn't grow with the
/// script.
pub fn answer_generated<R: Threads + Sync, K: Sink>(
    rt: &R,
    alloc: Global,
    workers: u32,
    seed: u64,
    size: u64,
    sink: &mut K,
) -> ProgramRun
    requires workers { 1 ≤ workers }
    requires writes { K.goes_on sink.old ≡ true }
    ensures generated { IsGenerated (script seed size) size (table_of seed size) (K.output sink.old) (K.output sink.new) result.status result.log }
    ensures failed { result.status ≡ Status.WriteFailed → Rose (K.faults sink.old) (K.faults sink.new) }
{
    let mut answering = Answering::new(alloc, workers);
    let status = answer_blocks(rt, alloc, &mut answering, seed, size);
    let log = answering.into_log();
    match status {
        Status::Answered | Status::ErrorAnswered => {
            let status = write_summary(alloc, size, &log, sink);
            ProgramRun { status, log }
        }
        Status::NoMemory => ProgramRun { status, log },
        // No words are read, and nothing was read or written.
        Status::WrongWords => unreachable!(),
        Status::ReadFailed => unreachable!(),
        Status::WriteFailed => unreachable!(),
    }
}
