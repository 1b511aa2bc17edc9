//! Transducers of replacement: how many edges they have, their runs and their pre-images.
ghost use Rattle.std.specs.Prelude.{◌≡◌, IfOk};
ghost use Rattle.sv_terms.specs.Transduction.{IsFormed};

use crate::stopwatch::Stopwatch;
use crate::texts::{in_turn, word};
use machine_core::Explicit;
use pre_image::Pre;
use regex_machine::build;
use replace_machines::replace_all;
use std::alloc::{AllocError, Global};
use sv_list::Boxed;
use sv_terms::{Regex, Transducer};
use transducer_core::run_pair;
use trim_search::{BuildFault, materialise};

const LIMIT: u64 = 1_000_000;

// The edges of the transducer that replaces a pattern of so many letters.
fn edges(alloc: Global, length: u32) -> Result<u64, AllocError> {
    let through = replace_all(alloc, &in_turn(alloc, length)?, &word(alloc, b"c")?)?;
    Ok(through.edges.len() as u64)
}

// Escapes each `<`.
fn escaping_transducer(alloc: Global) -> Result<Transducer, AllocError>
    ensures { IfOk result IsFormed }
{
    replace_all(alloc, &word(alloc, b"<")?, &word(alloc, b"&lt;")?)
}

// The edges of a run that copies a word of so many letters.
fn run_edges(alloc: Global, length: u32) -> Result<u64, AllocError> {
    let text = in_turn(alloc, length)?;
    match run_pair(alloc, &escaping_transducer(alloc)?, &text, &text)? {
        Some(places) => Ok(places.len() as u64),
        None => Ok(0),
    }
}

// The words of so many characters.
fn characters(alloc: Global, count: u32) -> Result<Explicit, BuildFault>
    ensures { IfOk result (λ m. m.registers ≡ 0) }
{
    let regex = Regex::Loop(Boxed::new(alloc, Regex::AnyChar)?, count, count);
    build(alloc, &regex, LIMIT)
}

// The states of the words whose escaped text has so many characters.
fn states_before(alloc: Global, count: u32) -> Result<u64, BuildFault> {
    let through = escaping_transducer(alloc)?;
    let target = characters(alloc, count)?;
    let pre = Pre::of(alloc, &through, &target)?;
    let built = materialise(alloc, &pre, LIMIT)?;
    Ok(u64::from(built.machine.states()))
}

/// Prints the edges of the transducer of a long pattern, those of a long run and the states of a
/// pre-image, and the time that each takes.
pub fn measure(rt: HostRuntime) {
    let alloc = rt.alloc();
    let stopwatch = Stopwatch::start(rt);
    stopwatch.stop(rt, "edges for a pattern of 4,000", edges(alloc, 4_000).ok());
    let stopwatch = Stopwatch::start(rt);
    stopwatch.stop(rt, "a run over 2,000", run_edges(alloc, 2_000).ok());
    let stopwatch = Stopwatch::start(rt);
    stopwatch.stop(rt, "before 1,000 states", states_before(alloc, 999).ok());
}
