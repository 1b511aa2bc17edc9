//! Which named assertions are to blame for an `unsat` (SMT-LIB 2.6, section 4.2.6).
//!
//! The central fact, the clause of [`find_core`]: **the list is a core**. Its terms, with those that have no
//! name, have no values; and each name on it comes with a right verdict other than `unsat` on all terms but
//! its own that were there when it was tried.
//!
//! The names are tried in their order, and each is left out where the rest is `unsat`. Names that may go
//! together are found by blocks of 1, 2, 4 and more, and where a block may not go by halves: of `n` names of
//! which `k` stay it takes some `2 k log(n / k)` checks, and at the most one and a half for each name.
//!
//! ```text
//! let core = find_core(&rt, alloc, terms, named, names, 1)?;  // of a: x = "a", b: x = "b", c: y = "c": a and b
//! ```
#![tactic(auto)]

mod search;
mod staying;

pub use search::find_core;
