//! Reads the words of the command line.
//!
//! The words are those of a simple command for `clap`, with three options that take a number and one
//! optional file:
//!
//! ```text
//! strsolve [--workers N] [FILE]
//! strsolve [--workers N] --generate SEED --size N
//! ```
//!
//! The central fact: `read` answers Ok exactly for words of that form, want of memory aside, and then
//! what it answers is what `clap`'s own definition of its matches gives for them. Numbers are what
//! `u64` parses: an optional `+` and decimal digits.
//!
//! It stands in a crate of its own because whatever stands beside `clap` pays for `clap`'s check.
//! It costs what `clap` takes for four arguments, and the bytes of the words.
#![tactic(auto)]

mod command_line;
mod options;
mod words_fault;

pub use command_line::{CommandLine, Task, read};
pub use options::{GREATEST_SIZE, MOST_WORKERS};
pub use words_fault::WordsFault;
