//! What the lengths of the words of a flat cube say as rows, and whether these contradict one another.
//!
//! The central fact is the clause of [`contradict`]: **where it answers true, nothing satisfies the cube**. It looks at
//! numbers only, and makes no machine.
//!
//! The rows of the cube stand as they are, with the length of each variable as one more unknown: that of a literal, of
//! a concatenation by those of its pieces, and what a prefix, a suffix, a word that occurs or a digit asks for. Whether
//! these have no solution is found by `lia_quick`, and its tree is checked by `farkas_check`. That none is found says
//! nothing.
//!
//! Costs: a row for each part, register and concatenation, those of a concatenation in the square of its pieces, and what
//! `solve_by_bounds` takes.
//!
//! ```text
//! if contradict(alloc, &flat)? { .. }    // nothing satisfies the cube
//! ```
#![tactic(auto)]

mod closing;
mod contradicting;
mod naming;
mod part_rows;
mod sum_rows;

pub use contradicting::contradict;
