//! Tests of the outside, the log, words, s-expressions and generated scripts: calls that the program doesn't make, and
//! what no reply shows.
//!
//! Terms, their meaning, the stack of assertions and the checked commands are tested by scripts of the program. A module
//! for each crate that is tested. They stand apart from what they call, so that proving them proves no crate a second
//! time.
#![tactic(auto)]

#[cfg(test)]
mod generated_script_calls;
#[cfg(test)]
mod sexpr_reader_calls;
#[cfg(test)]
mod sv_io_calls;
#[cfg(test)]
mod sv_log_calls;
#[cfg(test)]
mod sv_word_calls;
