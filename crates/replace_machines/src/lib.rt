//! Transducers that replace a word in a word.
//!
//! The central fact, the clauses `exact` of [`replace_first`] and [`replace_all`]: **each relates every
//! word to the value of `str.replace` or `str.replace_all`, and to nothing else**. They are
//! deterministic: a state holds how much of the pattern the last characters spell, and these characters
//! are written once it is known that no occurrence begins with them (the failure automaton of Knuth,
//! Morris and Pratt, Fast pattern matching in strings, 1977).
//!
//! For a pattern of k characters there are at most 5k edges, made in one pass over the pattern, and
//! edges and ends hold up to k characters each; so time and memory are those of the edges that come
//! out, at most quadratic in the pattern, and linear in k times the replacement.
//!
//! ```text
//! let escape = replace_all(alloc, &word("<"), &word("&lt;"))?;
//! run_pair(alloc, &escape, &word("a<"), &word("a&lt;"))? // Some of the edges of a run
//! ```
#![tactic(auto)]

mod edges;
mod replacing;
mod rows;

pub use replacing::{replace_all, replace_first};
pub use rows::{FailureAutomaton, MatchRow, failure_automaton, row_at};
