//! Machines of regular expressions.
//!
//! The central fact, the clauses of [`build`]: **the machine reads exactly the words of the expression,
//! and has at most [`bound`] states**. Its meaning is the definition `In`, by cases on the form of the
//! expression; automata appear in the code alone.
//!
//! Unions and concatenations are written from their end on: a part is made when all that may follow it
//! is known, so that no state changes once it is made, and words and characters share the state behind
//! them. Loops, what is in all parts and what is in none are machines that are explored state by state,
//! and take their place in what is written. What isn't reached is dropped by the last exploration. A
//! refusal comes only where the bound is above the limit that is given.
//!
//! Complements and differences are made from the words' beginnings or from their ends, whichever takes fewer states; a
//! difference without words is often found by few places of its product. [`reversed`] and [`least`] are machines of the
//! reversed words, and of the same words with the fewest states.
//!
//! Tests: crates/machine_tests, and the program's scripts (crates/strsolve/data/session.smt2).
//!
//! ```
//! // A shortest word that isn't in the expression.
//! let machine = build(alloc, &Regex::Comp(Boxed::new(alloc, regex)?), 1000)?;
//! let run = shortest(alloc, &machine)?;
//! ```
#![tactic(auto)]

mod building;
mod complements;
mod copies;
mod differences;
mod emptiness;
mod explored;
mod joining;
mod kind;
mod leaves;
mod letters;
mod minimal;
mod onward;
mod reversal;
mod sides;
mod stepping;
mod woven;
mod written;

pub use building::build;
pub use complements::complement;
pub use differences::only_first;
pub use joining::{all_of, difference};
pub use minimal::least;
pub use reversal::reversed;
