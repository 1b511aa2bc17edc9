//! What stands in assertions: their constants, with values for just these; their string literals; their opaque parts.
//!
//! The central fact is the clause of [`complete`]: **a model becomes values for just the constants of the assertions
//! without opaque parts**, where each name has one sort: each the value that is given, where that is of this sort, else
//! the sort's default.
//!
//! Each call is linear in the terms; what it answers is a copy.
//!
//! ```text
//! let clear = clear_terms(alloc, terms)?; // the assertions without opaque parts
//! let full = complete(alloc, &model, terms)?; // a value for each of their constants
//! ```
#![tactic(auto)]

mod completing;
mod spelling;
mod splitting;

pub use completing::{complete, value_for};
pub use spelling::string_literals_are_words;
pub use splitting::{clear_terms, first_opaque};
