//! Quick ways to solve or to close linear constraints over whole numbers, before a tree is searched.
//!
//! The central fact: a way is a heuristic, with no proof of how it finds what it finds, since each answer is tested
//! by what is proved: values meet every row, and a tree is one that the checker takes. What a
//! way doesn't find says nothing.
//!
//! `solve_by_bounds` carries bounds from row to row of what `lia_reduce` leaves of a system, splits at a rounded bound
//! and in the middle of the narrowest range of an equation, and answers a point or a tree of the whole. `restore_tree`
//! takes a tree of what is left to the rows of the whole.
//!
//! Costs: at most 4,000 splits, and 2^21 terms that are looked at or written down. A leaf of a tree is tested in time
//! linear in the unknowns and in the terms of the rows that it names.
//!
//! ```text
//! let Some(reduced) = reduce(alloc, &system, &elimination)? else { .. };
//! solve_by_bounds(alloc, &system, &elimination, &reduced)?     // a point, a tree, or None
//! ```
#![tactic(auto)]

mod accepting;
mod bound_rows;
mod bound_search;
mod bounds;
mod queue;
mod reasons;
mod restoring;

pub use bound_rows::{at_least_row, at_most_row};
pub use restoring::{QuickAnswer, restore_tree, solve_by_bounds};
