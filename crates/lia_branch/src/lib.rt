//! Linear constraints over whole numbers, solved or closed by branch and bound.
//!
//! The central fact: whatever way was taken, a solution is one because every row is met and the cutter
//! finds no net that isn't joined, and a system is closed because the checker of certificates takes the
//! tree. What was given up shows evidence that can't be invented: 2,000 splits, each the one that is due,
//! or two rows or a sum past 128 bits.
//!
//! First equations are eliminated (`lia_reduce`), and what is left, which is small where they are those of chains, is
//! solved or closed by bounds (`lia_quick`), or else searched as a system of its own, and its solution or tree taken to
//! the rows of the whole. All are heuristics, and tested before they are answered. Then the tree of the
//! whole system whose splits are due is searched, depth first and low before high, by a loop with a stack of its
//! own. The trail of a node ends by itself, since no basis comes twice. A node that waits keeps its tableau packed, and
//! from 65,536 bytes on over that of the node that waits below it, so that memory is the depth times 64 KB at most, or
//! mostly times that of the terms that a split changes.
//!
//! ```text
//! solve(alloc, &system, &NoCut)?   // a system without nets: Solution, Closed or GaveUp
//! ```
#![tactic(auto)]

mod branch_rows;
mod edge_sums;
mod evidence;
mod fork;
mod leaf_sums;
mod leaves;
mod level;
mod no_cut;
mod outcome;
mod points;
mod reduced_search;
mod searching;
mod solving;
mod stop;
mod visit;

pub use evidence::Evidence;
pub use no_cut::NoCut;
pub use outcome::Outcome;
pub use solving::solve;
