//! A checker of certificates that linear constraints over whole numbers have no solution.
//!
//! A system has rows, each a linear form that is at most 0 or 0, and nets, each a graph whose edges are
//! counted by unknowns and that is to be connected. A tree splits the system into cases and closes each
//! leaf by one line of arithmetic. `closes` says whether a tree is right, and its contract is the crate's
//! central fact: a tree that closes a system shows that no whole numbers solve it. The rules speak of sums
//! without bound and know nothing of how a tree was found.
//!
//! `closes` takes no memory and copies no row: the rows of the branches stand on a borrowed stack. A leaf
//! costs the number of terms in the rows that it names, times the number of its multipliers, times a
//! binary search in a row of the system, or a walk up the branches for a row of a branch: of a set split
//! also over the net's edges, with a look through the set for each of them. `test_farkas` and
//! `test_divisor` judge one leaf over given rows, with memory for a number for each column, and name the
//! first column whose sum leaves 128 bits.
//!
//! ```text
//! // -2 x + 1 <= 0 and x <= 0: the first and twice the second add up to 1 <= 0.
//! let tree = Tree::Farkas { multipliers };    // (0, 1), (1, 2)
//! assert!(rt; closes(&system, &tree));
//! ```
#![tactic(auto)]

mod above;
mod branch;
mod checker;
mod cutter;
mod laws;
mod leaf;
mod leaf_sum;
mod leaf_test;
mod net;
mod rules;
mod system;
mod tree;

pub use checker::closes;
pub use cutter::Cutter;
pub use laws::{leaf_tests_agree, rows_are_constraints};
pub use leaf_test::{LeafTest, test_divisor, test_farkas};
pub use net::{Net, NetEdge};
pub use system::System;
pub use tree::Tree;
