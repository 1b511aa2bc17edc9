//! Machines of what the literals say of one variable over words.
//!
//! The central fact, the clause of [`part_machine`]: **the machine of a part reads exactly the words that
//! meet it, and has at most as many states as its bound says**, for a part that is to hold and for one that
//! isn't. [`own_machine`] joins the machines of all parts of a variable, and lets each character cost what
//! the registers of the variable count.
//!
//! A regular expression is built once for all threads that share [`Machines`], and made least once where it is met with
//! other parts and is small; so is its complement, by the subset construction; that one takes too many states is found
//! once too. Beside other parts an
//! expression that no word may be in isn't complemented where that takes many states: its sets of states are made as the
//! other parts lead to them. All other parts come by a table that says where each state leads on each character: a word, a
//! prefix and a digit by a chain along their characters, what occurs and what ends a word by the failure automaton of
//! Knuth, Morris and Pratt (Fast pattern matching in strings, 1977). A table is complete, so that a part that isn't to hold
//! has the same edges with the other ends; only of a word that isn't to occur the state behind it is left out. Tables are
//! linear in their characters but for the rows of the failure automaton, which are logarithmic each, and edges are read by
//! ranges of characters. Many machines of a variable are met in pairs, and what is left in turn, before the rest is met at
//! once.
//!
//! Tests: the program's scripts (crates/strsolve/data/session.smt2), and crates/leaf_tests.
//!
//! ```
//! // The words that contain "ab" and don't end with "b", each with its length at one register.
//! let one = Cost::from_slice(alloc, &[1])?;
//! let kept = Machines::new(alloc, Vec::new(alloc))?;
//! let machine = own_machine(alloc, &parts, &one, &kept)?;
//! ```
#![tactic(auto)]

mod chains;
mod digests;
mod keep;
mod laws;
mod machines;
mod own;
mod pairs;
mod part;
mod pattern;
mod pricing;
mod table;

pub use digests::{digest, digest_of_others};
pub use keep::Keep;
pub use laws::{bounds_are_positive, machines_cross};
pub use machines::Machines;
pub use own::own_machine;
pub use part::{MOST_STATES, part_machine};
pub use pricing::price;
