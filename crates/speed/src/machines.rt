//! Machines of regular expressions: how many states they have, and edges.
use crate::stopwatch::Stopwatch;
use crate::texts::letters;
use machine_core::Explicit;
use regex_machine::build;
use std::alloc::{AllocError, Global};
use sv_list::{Boxed, Items};
use sv_terms::Regex;
use trim_search::trim;

const LIMIT: u64 = 10_000_000;

// So many words of ten letters.
fn words(alloc: Global, count: u64) -> Result<Items<Regex>, AllocError> {
    let mut parts = Items::new(alloc);
    for seed in 0..count {
        parts.push(Regex::Text(letters(alloc, seed)?))?;
    }
    Ok(parts)
}

fn union_of_words(alloc: Global, count: u64) -> Result<Regex, AllocError> {
    Ok(Regex::Union(words(alloc, count)?))
}

fn concatenation_of_words(alloc: Global, count: u64) -> Result<Regex, AllocError> {
    Ok(Regex::Concat(words(alloc, count)?))
}

fn pair(alloc: Global, first: Regex, second: Regex) -> Result<Items<Regex>, AllocError> {
    let mut parts = Items::new(alloc);
    parts.push(first)?;
    parts.push(second)?;
    Ok(parts)
}

// Concatenations of two, nested to the left.
fn nest_to_the_left(alloc: Global, depth: u64) -> Result<Regex, AllocError> {
    let mut whole = Regex::Text(letters(alloc, 0)?);
    for seed in 1..depth {
        whole = Regex::Concat(pair(alloc, whole, Regex::Text(letters(alloc, seed)?))?);
    }
    Ok(whole)
}

// Unions and concatenations of two, nested in turn.
fn nest_in_turn(alloc: Global, depth: u64) -> Result<Regex, AllocError> {
    let mut whole = Regex::Text(letters(alloc, 0)?);
    for seed in 1..depth {
        let parts = pair(alloc, whole, Regex::Text(letters(alloc, seed)?))?;
        whole = if seed % 2 == 0 {
            Regex::Union(parts)
        } else {
            Regex::Concat(parts)
        };
    }
    Ok(whole)
}

fn copies(alloc: Global, count: u32) -> Result<Regex, AllocError> {
    Ok(Regex::Loop(Boxed::new(alloc, Regex::AnyChar)?, count, count))
}

// All words but those in which `a` stands so many letters before the last one.
fn not_so_many_before_the_last(alloc: Global, count: u32) -> Result<Regex, AllocError> {
    let letter = Regex::Range(0x61, 0x62);
    let mut parts = pair(
        alloc,
        Regex::Star(Boxed::new(alloc, letter)?),
        Regex::Range(0x61, 0x61),
    )?;
    parts.push(Regex::Loop(Boxed::new(alloc, Regex::Range(0x61, 0x62))?, count, count))?;
    Ok(Regex::Comp(Boxed::new(alloc, Regex::Concat(parts))?))
}

// `[A-Za-z0-9_]*`
fn star_of_a_class(alloc: Global) -> Result<Regex, AllocError> {
    let mut parts = pair(alloc, Regex::Range(0x41, 0x5A), Regex::Range(0x61, 0x7A))?;
    parts.push(Regex::Range(0x30, 0x39))?;
    parts.push(Regex::Range(0x5F, 0x5F))?;
    Ok(Regex::Star(Boxed::new(alloc, Regex::Union(parts))?))
}

fn machine_of(alloc: Global, regex: Result<Regex, AllocError>) -> Option<Explicit> {
    build(alloc, &regex.ok()?, LIMIT).ok()
}

fn states(machine: &Option<Explicit>) -> Option<u64> {
    Some(u64::from(machine.as_ref()?.states()))
}

fn edges(machine: &Option<Explicit>) -> Option<u64> {
    Some(machine.as_ref()?.edges().len() as u64)
}

fn time(rt: HostRuntime, work: &str, regex: Result<Regex, AllocError>) {
    let stopwatch = Stopwatch::start(rt);
    let machine = machine_of(rt.alloc(), regex);
    stopwatch.stop(rt, work, states(&machine));
}

fn time_trim(rt: HostRuntime, work: &str, regex: Result<Regex, AllocError>) {
    let machine = machine_of(rt.alloc(), regex);
    let stopwatch = Stopwatch::start(rt);
    let trimmed = trim_machine(rt.alloc(), &machine);
    stopwatch.stop(rt, work, states(&trimmed));
}

fn trim_machine(alloc: Global, machine: &Option<Explicit>) -> Option<Explicit> {
    trim(alloc, machine.as_ref()?).ok()
}

// The same words in one list, and two and two.
fn time_nesting(rt: HostRuntime, flat: &str, nested: &str, count: u64) {
    time(rt, flat, concatenation_of_words(rt.alloc(), count));
    time(rt, nested, nest_to_the_left(rt.alloc(), count));
}

fn time_class(rt: HostRuntime) {
    let stopwatch = Stopwatch::start(rt);
    let machine = machine_of(rt.alloc(), star_of_a_class(rt.alloc()));
    stopwatch.stop(rt, "star of a class", states(&machine));
    Stopwatch::start(rt).stop(rt, "its edges", edges(&machine));
}

/// Prints the states of each machine, and the time that it takes.
pub fn measure(rt: HostRuntime) {
    let alloc = rt.alloc();
    time(rt, "1,000 words", union_of_words(alloc, 1_000));
    time(rt, "10,000 words", union_of_words(alloc, 10_000));
    time_trim(rt, "10,000 words, trimmed", union_of_words(alloc, 10_000));
    time_nesting(rt, "16 words in a row", "16 words, nested", 16);
    time_nesting(rt, "64 words in a row", "64 words, nested", 64);
    time_nesting(rt, "256 words in a row", "256 words, nested", 256);
    time_nesting(rt, "1,024 words in a row", "1,024 words, nested", 1_024);
    time(rt, "nested in turn, 64 deep", nest_in_turn(alloc, 64));
    time(rt, "nested in turn, 256 deep", nest_in_turn(alloc, 256));
    time_class(rt);
    time(rt, "8,192 copies", copies(alloc, 8_192));
    time(rt, "32,768 copies", copies(alloc, 32_768));
    time(
        rt,
        "complement of 14 before the last",
        not_so_many_before_the_last(alloc, 14),
    );
}
