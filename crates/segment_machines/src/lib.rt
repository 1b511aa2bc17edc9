//! Machines that cut a word: they mark a part of it, and pick a part that is marked.
//!
//! The central fact, the clauses `exact`: **each relates every word to the marked words that
//! `specs/Marked` says, and to nothing else**. With the laws [`substrings_are_cases`] and
//! [`indexes_are_cases`], which tell `str.substr`, `str.at` and `str.indexof` by marked words and
//! lengths, a term of these functions is told by transducers and lengths only:
//! [`machines_tell_segments`].
//!
//! A marked word has before each character of the word a phase, the character `0`, `1` or `2`, and
//! phases never fall. So it says what is before a part of the word, the part, and what is after it.
//!
//! - [`mark`] puts a part that isn't empty into phase 1, and [`mark_end`] one that goes to the end.
//! - [`mark_found`] puts there what ends with the first occurrence of a pattern from a place on, and
//!   [`mark_absent`] what goes to the end, where the pattern doesn't occur in it.
//! - [`pick`] reads a marked word and writes the characters of one phase.
//!
//! An edge writes at most two characters. The machines that look for a pattern of k characters have at
//! most 5k + 5 edges, made in one pass over the pattern by its failure automaton; the others have at
//! most five. Tests of single words are in `machine_tests`.
//!
//! ```text
//! run_pair(alloc, &mark(alloc)?, &word("abc"), &word("0a1b2c"))?   // Some of the edges of a run
//! run_pair(alloc, &pick(alloc, 1)?, &word("0a1b2c"), &word("b"))?  // Some of the edges of a run
//! ```
#![tactic(auto)]

mod edges;
mod laws;
mod marking;
mod seeking;

pub use laws::{
    indexes_are_cases, machines_tell_segments, marked_words_are_parts, substrings_are_cases,
};
pub use marking::{mark, mark_end, pick};
pub use seeking::{mark_absent, mark_found};
