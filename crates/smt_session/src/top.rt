//! The top call: from the words, a source and a sink to a status.
ghost use Rattle.std.specs.Prelude.{◌≡◌, ◌≤◌, ◌⊎◌, ◌∷◌, ◌++◌, ℕ, List, [], Some, true, false, is_some};
ghost use Rattle.std.specs.Option.{option_map};
ghost use Rattle.std.specs.declared.option.Option.{Option as Optional};
ghost use Rattle.sv_io.specs.Counts.{Rose};
ghost use Rattle.sv_io.specs.Histories.{Sends, Takes, TellsLeft};
ghost use Rattle.sv_io.specs.Names.{IsOwn};
ghost use Rattle.smt_session.specs.declared.reply.Reply.{Reply as AnyReply};
ghost use Rattle.command_words.specs.declared.options.TheConstants.{MOST_WORKERS};
ghost use Rattle.command_words.specs.Asked.{named};
ghost use Rattle.command_words.specs.Words.{is_in_form};
ghost use Rattle.generated_script.specs.Blocks.{script};
ghost use Rattle.generated_verdicts.specs.Table.{table_of};
ghost use Rattle.smt_session.specs.CommandLine.{AskFor, usage};
ghost use Rattle.smt_session.specs.Generated.{IsGenerated, IsTrueIn};
ghost use Rattle.smt_session.specs.Runs.{IsTrueBehind, IsAnswered, IsCutAtLast, IsFront, IsPrompt, IsRefused, StopsAtExit, IsAnsweredSoFar};
ghost use Rattle.smt_session.specs.Scripts.{has_error};
ghost use Rattle.smt_session.specs.Awaiting.{Ended, AwaitsItem};

use crate::answering::Answering;
use crate::generating::answer_generated;
use crate::log::ReplyLog;
use crate::status::{ProgramRun, Status};
use command_words::{Task, WordsFault, read};
use std::alloc::Global;
use std::thread::Threads;
use sv_io::{ProgramArguments, Sink, Source, write_all};

/// How many bytes are asked for at once: each item that was whole before them is answered by then.
const PIECE: usize = 4_096;

const USAGE: &str =
    "(error \"usage: strsolve [--workers N] [FILE] | strsolve [--workers N] --generate SEED --size N\")\n";

// The number of workers that the words ask for.
fn workers_of(asked: u64) -> u32
    requires least { 1 ≤ asked }
    requires most { asked ≤ MOST_WORKERS }
    ensures { result ≡ asked }
{
    asked as u32
}

// Writes how the program is called, and says how that went.
fn refuse_words<K: Sink>(sink: &mut K) -> Status
    requires { K.goes_on sink.old ≡ true }
    ensures statuses { (result ≡ Status.WrongWords) ⊎ (result ≡ Status.WriteFailed) ⊎ (result ≡ Status.NoMemory) }
    ensures whole { result ≡ Status.WrongWords → Sends (K.output sink.old) (K.output sink.new) usage }
    ensures front { Takes (K.output sink.old) (K.output sink.new) usage }
    ensures failed { result ≡ Status.WriteFailed → Rose (K.faults sink.old) (K.faults sink.new) }
{
    match write_all(sink, USAGE.as_bytes()) {
        Ok(()) => Status::WrongWords,
        Err(fault) => Status::of_fault(fault),
    }
}

// Answers each item as soon as it is whole, and reads on.
fn answer_source<R: Threads + Sync, S: Source, K: Sink>(
    rt: &R,
    alloc: Global,
    answering: &mut Answering,
    source: &mut S,
    sink: &mut K,
) -> Status
    requires waits { AwaitsItem answering.old [] (K.output sink.old) (K.output sink.old) }
    requires open { S.is_open source.old ≡ true }
    requires reads { S.goes_on source.old ≡ true }
    requires writes { K.goes_on sink.old ≡ true }
    ensures went { Ended (S.input source.old) (S.input source.new) (K.output sink.old) (K.output sink.new) answering.new.replies result }
    ensures prompt { IsPrompt (S.input source.old) (S.input source.new) (K.output sink.old) (K.output sink.new) answering.new.replies }
    ensures left { TellsLeft (S.input source.old) (S.input source.new) (S.left source.old) (S.left source.new) }
    ensures openings { (S.input source.new).openings ≡ (S.input source.old).openings }
    ensures unread { result ≡ Status.ReadFailed → Rose (S.faults source.old) (S.faults source.new) }
    ensures unwritten { result ≡ Status.WriteFailed → Rose (K.faults sink.old) (K.faults sink.new) }
    ensures open { S.is_open source.new ≡ true }
    ensures astray { S.is_astray source.new ≡ S.is_astray source.old }
{
    let mut buffer = [0u8; PIECE];
    'pieces: loop {
        let count = match source.read(&mut buffer) {
            Ok(count) => count,
            Err(_) => return Status::ReadFailed,
        };
        if count == 0 {
            return answering.answer_rest(rt, alloc, sink);
        }
        match answering.feed(&buffer[..count]) {
            Ok(()) => {}
            Err(_) => return Status::NoMemory,
        }
        if let Some(status) = answering.answer_whole(rt, alloc, sink) {
            return status;
        }
    }
}

// Answers the script that the source gives, opened with this name or none.
fn answer_script<R: Threads + Sync, S: Source, K: Sink>(
    rt: &R,
    alloc: Global,
    workers: u32,
    name: Option<&str>,
    source: &mut S,
    sink: &mut K,
) -> ProgramRun
    requires workers { 1 ≤ workers }
    requires closed { S.is_open source.old ≡ false }
    requires writes { K.goes_on sink.old ≡ true }
    ensures went { Ended (S.input source.old) (S.input source.new) (K.output sink.old) (K.output sink.new) result.log result.status }
    ensures prompt { IsPrompt (S.input source.old) (S.input source.new) (K.output sink.old) (K.output sink.new) result.log }
    ensures left { TellsLeft (S.input source.old) (S.input source.new) (S.left source.old) (S.left source.new) }
    ensures openings { (S.input source.new).openings ≡ (S.input source.old).openings ++ option_map (λ text. text.now) name.entry ∷ [] }
    ensures unread { result.status ≡ Status.ReadFailed → Rose (S.faults source.old) (S.faults source.new) }
    ensures unwritten { result.status ≡ Status.WriteFailed → Rose (K.faults sink.old) (K.faults sink.new) }
    ensures open { (result.status ≡ Status.Answered) ⊎ (result.status ≡ Status.ErrorAnswered) → (S.is_open source.new ≡ true) × IsOwn (S.own_name source.old) (option_map (λ text. text.now) name.entry) }
    ensures astray { IsOwn (S.own_name source.old) (option_map (λ text. text.now) name.entry) → S.is_astray source.new ≡ S.is_astray source.old }
{
    match source.open(name) {
        Ok(()) => {
            let mut answering = Answering::new(alloc, workers);
            let status = answer_source(rt, alloc, &mut answering, source, sink);
            ProgramRun {
                status,
                log: answering.into_log(),
            }
        }
        Err(_) => ProgramRun {
            status: Status::ReadFailed,
            log: ReplyLog::new(),
        },
    }
}

/// Answers the script that the words ask for: that of the named file or of standard input, each printed
/// reply written before the next command; or a generated one, of which one line sums up the verdicts.
///
/// The words are those behind the program's name, `[--workers N] [FILE]` or
/// `[--workers N] --generate SEED --size N`, as `command_words` reads them. With any others the source
/// isn't touched, and the sink gets one line that says how the program is called. N workers, or 1, do the
/// cubes of a check.
///
/// Takes time and memory in the bytes of the longest item, and what its commands take: the source
/// is read in pieces, and each item is answered as soon as it is whole.
pub fn run<R: Threads + Sync, S: Source, K: Sink>(
    rt: &R,
    alloc: Global,
    words: &ProgramArguments,
    source: &mut S,
    sink: &mut K,
) -> ProgramRun
    requires closed { S.is_open source.old ≡ false }
    requires writes { K.goes_on sink.old ≡ true }
    ensures answered { is_some (named words.now) ≡ true → (result.status ≡ Status.Answered) ⊎ (result.status ≡ Status.ErrorAnswered) → IsAnswered (S.input source.old) (S.input source.new) (K.output sink.old) (K.output sink.new) result.log }
    ensures right { is_some (named words.now) ≡ true → result.status ≡ Status.Answered → has_error result.log ≡ false }
    ensures error { result.status ≡ Status.ErrorAnswered → has_error result.log ≡ true }
    ensures verdicts { is_some (named words.now) ≡ true → (early late : List AnyReply) (verdict : AnyReply) → result.log ≡ early ++ verdict ∷ late → IsTrueBehind (S.input source.old) (S.input source.new) early verdict }
    ensures wrong_words { result.status ≡ Status.WrongWords → (is_in_form words.now ≡ false) × Sends (K.output sink.old) (K.output sink.new) usage }
    ensures words { is_in_form words.now ≡ false → (result.status ≡ Status.WrongWords) ⊎ (result.status ≡ Status.WriteFailed) ⊎ (result.status ≡ Status.NoMemory) }
    ensures refused { is_in_form words.now ≡ false → (source.new ≡ source.old) × IsRefused (K.output sink.old) (K.output sink.new) result.log }
    ensures read_fault { result.status ≡ Status.ReadFailed → Rose (S.faults source.old) (S.faults source.new) × IsAnsweredSoFar (S.input source.old) (S.input source.new) (K.output sink.old) (K.output sink.new) result.log }
    ensures write_fault { result.status ≡ Status.WriteFailed → Rose (K.faults sink.old) (K.faults sink.new) }
    ensures cut { is_some (named words.now) ≡ true → result.status ≡ Status.WriteFailed → IsCutAtLast (K.output sink.old) (K.output sink.new) result.log }
    ensures front { is_some (named words.now) ≡ true → IsFront (S.input source.old) (S.input source.new) (K.output sink.old) (K.output sink.new) result.log }
    ensures prompt { is_some (named words.now) ≡ true → IsPrompt (S.input source.old) (S.input source.new) (K.output sink.old) (K.output sink.new) result.log }
    ensures exit { is_some (named words.now) ≡ true → StopsAtExit (S.input source.old) (S.input source.new) result.log }
    ensures left { is_some (named words.now) ≡ true → TellsLeft (S.input source.old) (S.input source.new) (S.left source.old) (S.left source.new) }
    ensures openings { (name : Optional (List ℕ)) → named words.now ≡ Some name → ((S.input source.new).openings ≡ (S.input source.old).openings ++ name ∷ []) ⊎ ((result.status ≡ Status.NoMemory) × (source.new ≡ source.old)) }
    ensures open { is_some (named words.now) ≡ true → (result.status ≡ Status.Answered) ⊎ (result.status ≡ Status.ErrorAnswered) → S.is_open source.new ≡ true }
    ensures name { (name : Optional (List ℕ)) → named words.now ≡ Some name → (result.status ≡ Status.Answered) ⊎ (result.status ≡ Status.ErrorAnswered) → IsOwn (S.own_name source.old) name }
    ensures astray { (name : Optional (List ℕ)) → named words.now ≡ Some name → IsOwn (S.own_name source.old) name → S.is_astray source.new ≡ S.is_astray source.old }
    ensures generated { (seed size : ℕ) → AskFor words.now seed size → (source.new ≡ source.old) × IsGenerated (script seed size) size (table_of seed size) (K.output sink.old) (K.output sink.new) result.status result.log }
    ensures generated_verdicts { (seed size : ℕ) → AskFor words.now seed size → (early late : List AnyReply) (verdict : AnyReply) → result.log ≡ early ++ verdict ∷ late → IsTrueIn (script seed size) early verdict }
{
    let line = match read(alloc, words.as_slice()) {
        Ok(line) => line,
        Err(WordsFault::Outside) => {
            return ProgramRun {
                status: refuse_words(sink),
                log: ReplyLog::new(),
            };
        }
        Err(WordsFault::Memory(_)) => {
            return ProgramRun {
                status: Status::NoMemory,
                log: ReplyLog::new(),
            };
        }
    };
    let workers = workers_of(line.workers);
    match line.task {
        Task::Answer(name) => answer_script(rt, alloc, workers, name, source, sink),
        Task::Generate { seed, size } => answer_generated(rt, alloc, workers, seed, size, sink),
    }
}
