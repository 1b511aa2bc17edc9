//! Terms and regular expressions of the theory UnicodeStrings, and what they mean.
//!
//! The central fact is the definition `In`: the words of a regular expression, by cases on its
//! form. Every language is a set of words, so that what is in one has no number that isn't a
//! character. Everything that is said of regular expressions above this crate cites it.
//!
//! `val` is the meaning of a term under values of its constants, `AreTrueAt` says when values make
//! assertions true, and `HasNoValues` that none do: values are of their constants' sorts, and texts
//! are words. `Pairs` is what a transducer relates, `ReplacedFirst` and `ReplacedAll` what
//! replacement is. The laws join them to what computes.
//!
//! Copying and comparing take time linear in the expression, and stack in its nesting.
//!
//! ```text
//! let digit = Regex::Range(0x30, 0x39);
//! let digits = Regex::Plus(Boxed::new(alloc, digit)?);
//! bound(&digits) // 2: a machine of it has at most two states
//! ```
#![tactic(auto)]

mod bounds;
mod crossing;
mod entry;
mod laws;
mod limits;
mod model;
mod name;
mod op;
mod regex;
mod sort;
mod term;
mod transducer;
mod value;

pub use bounds::{bound, power_of_two};
pub use entry::{Body, Entry};
pub use laws::{
    equal_are_one, languages_are_words, membership_is_decided, opaque_is_neither,
    pairs_are_decided, pairs_are_runs, replacements_are_exact, terms_have_values, texts_are_words,
    transducers_are_bounded, truths_are_two,
};
pub use limits::{
    MOST_CHARACTERS, MOST_CUBES, MOST_LEVELS, MOST_NESTING, MOST_NODES, MOST_POINTS,
    MOST_REGISTERS, MOST_SPLITS, MOST_TIMES, MOST_TRANSDUCER_EDGES, MOST_TRANSDUCER_ENDS,
    MOST_TRANSDUCER_STATES,
};
pub use model::Model;
pub use name::Name;
pub use op::Op;
pub use regex::{Regex, copy_regexes};
pub use sort::Sort;
pub use term::Term;
pub use transducer::{Item, TransEdge, Transducer};
pub use value::Value;
