//! The verdict on assertions: their cubes, each answered by itself, in batches that several threads do.
//!
//! The central fact, the clauses of [`check`]: **the verdict is right**: `sat` comes with values that make
//! all assertions true, `unsat` where no values make those without opaque parts true, and `unknown` with a
//! cause that holds of them. It is the fold of the answers for the cubes, whatever the number of workers.
//!
//! Cubes are done in batches of 64, one batch after another, up to the first batch that has a model which
//! ends the search. The cubes of a batch are jobs that several threads do at once; the machines of the
//! regular expressions in the assertions are built once, in a pool that all jobs share.
//!
//! What the answers come to is the tally's: a [`CubeTally`](tally::CubeTally) is that of the answers which it was given,
//! in their order, and the verdict that it comes to is their fold: the first model, where no assertion has an opaque part;
//! else all open cubes by their numbers; else the counts of the leaves closed. An answer costs the tally the same,
//! whatever it is, but for a copy of the opaque assertion where its model is set aside.
//!
//! A cube that isn't straight has no values where what is left of it without the literals by which it isn't has none.
//! Bounds on lengths are compared before any machine is made, and small ones are asked as parts.
//!
//! Cubes that hold an atom and its negation need no work, nor do those of a block whose literals have no values.
//!
//! Cubes come in blocks, each of one choice for the first terms: what the cubes of a block share is a cube of fewer
//! terms, and where that has no values none of them has. The literals that a block shares cost a copy of their terms,
//! and the cubes of these as a tree.
//!
//! ```text
//! match check(&rt, alloc, terms, 4, &Free)? {
//!     Verdict::Sat(model) => ..,      // a value for each constant of the terms
//!     Verdict::Unsat(refuted) => ..,  // how many leaves were closed, and by what
//!     Verdict::Unknown(open) => ..,   // why no answer was found
//! }
//! ```
#![tactic(auto)]

mod batch;
mod blocks;
mod checking;
mod crooked;
mod cube_job;
mod machines;
mod passing;
mod tally;
mod verdict;

pub use checking::check;
pub use verdict::{Open, Verdict};
