//! A machine's words by a deterministic machine, and all other words.
//!
//! [`Subset`] reads a word with all runs of a machine at once: its states are the sorted lists of the
//! machine's states (the subset construction, Rabin and Scott, 1959). **Its words are the machine's,
//! or, negated, all other words over the 196,608 characters.** The machine has no registers, so that
//! no run costs anything. It is explored list by list, and on each character at most one list follows,
//! exactly one where it is negated.
//!
//! A move list takes time n log n for the n ranges of the edges that leave the list's states, and
//! h log h for the h pairs of an interval between two borders of these ranges and an edge that leads
//! on from it, which is the size of the lists that follow, interval by interval.
//!
//! ```
//! // The words that aren't the machine's.
//! let others = Subset::of(&machine, true);
//! let moves = others.moves(alloc, &others.start(alloc)?)?;
//! ```
#![tactic(auto)]

mod groups;
mod leaving;
mod marks;
mod search;
mod subset;
mod targets;

pub use subset::Subset;
