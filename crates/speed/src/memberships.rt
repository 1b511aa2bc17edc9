//! Words in regular expressions: whether they are, by derivatives.
use crate::stopwatch::Stopwatch;
use crate::texts::in_turn;
use std::alloc::{AllocError, Global};
use sv_list::{Boxed, Items};
use sv_terms::Regex;
use sv_word::Word;
use term_eval::contains;

const LONG: u32 = 4_000_000;

const SHORT: u32 = 100_000;

// The word that is asked for, and whatever follows it.
fn following_word(alloc: Global) -> Result<Regex, AllocError> {
    let mut parts = Items::new(alloc);
    parts.push(Regex::Text(in_turn(alloc, LONG)?))?;
    parts.push(Regex::All)?;
    Ok(Regex::Concat(parts))
}

// The words in which `a` stands twenty letters before the last one.
fn twenty_before_the_last(alloc: Global) -> Result<Regex, AllocError> {
    let mut parts = Items::new(alloc);
    parts.push(Regex::Star(Boxed::new(alloc, Regex::Range(0x61, 0x62))?))?;
    parts.push(Regex::Range(0x61, 0x61))?;
    parts.push(Regex::Loop(Boxed::new(alloc, Regex::Range(0x61, 0x62))?, 20, 20))?;
    Ok(Regex::Concat(parts))
}

fn complement(alloc: Global, regex: Regex) -> Result<Regex, AllocError> {
    Ok(Regex::Comp(Boxed::new(alloc, regex)?))
}

// A star of so many words of ten letters `a` and `b`.
fn star_of_words(alloc: Global, count: u32) -> Result<Regex, AllocError> {
    let mut parts = Items::new(alloc);
    for n in 0..count {
        let mut word = Word::new(alloc);
        for bit in 0..10_u32 {
            word.push(0x61 + (n >> bit) % 2)?;
        }
        parts.push(Regex::Text(word))?;
    }
    Ok(Regex::Star(Boxed::new(alloc, Regex::Union(parts))?))
}

// 1 where the word of so many letters is in the expression, and 0 where it isn't.
fn find_length(alloc: Global, regex: Result<Regex, AllocError>, length: u32) -> Option<u64> {
    let regex = regex.ok()?;
    let word = in_turn(alloc, length).ok()?;
    Some(u64::from(contains(alloc, &regex, &word).ok()?))
}

fn time(rt: HostRuntime, work: &str, regex: Result<Regex, AllocError>, length: u32) {
    let stopwatch = Stopwatch::start(rt);
    stopwatch.stop(rt, work, find_length(rt.alloc(), regex, length));
}

/// Prints of each expression whether it has the word, and the time that this takes.
pub fn measure(rt: HostRuntime) {
    let alloc = rt.alloc();
    time(
        rt,
        "a word and all that follow",
        following_word(alloc),
        LONG,
    );
    time(
        rt,
        "`a` twenty before the last",
        twenty_before_the_last(alloc),
        SHORT,
    );
    let others = twenty_before_the_last(alloc).and_then(|regex| complement(alloc, regex));
    time(rt, "its complement", others, SHORT);
    time(rt, "a star of 100 words", star_of_words(alloc, 100), 10_000);
}
