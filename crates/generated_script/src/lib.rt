//! Generated scripts, for trials and measurements of the whole program.
//!
//! A script has blocks, each a level of its own with two string constants, two assertions and a
//! `check-sat`. The central fact: **the text of a block, and so of a script, is a function of the
//! seed**, and each block has a known answer. Its shape and its number are drawn from a linear
//! congruence, so that nothing is kept but one number.
//!
//! A block costs its text, some 200 bytes.
//!
//! ```
//! let mut blocks = Blocks::new(1);
//! let first = blocks.next(alloc)?;   // "(push 1)\n(declare-const x String)\n .."
//! ```
#![tactic(auto)]

mod blocks;
mod shape;
mod tally;

pub use blocks::Blocks;
pub use shape::Shape;
pub use tally::{VerdictCounts, summary};
