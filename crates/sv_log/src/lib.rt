//! A history that only proofs read: what happened so far, kept for contracts without a byte of memory.
//!
//! The central fact: the list that a clause reads as `items` is empty at first, and has one item more at its end
//! after each [`Log::and`]. Nothing of it stands in the program, so a run of any length keeps its history for
//! nothing. The form is that of the toolchain's crate `http_server`, here for items of one type.
//!
//! ```text
//! let log = Log::new().and(&first).and(&second);   // items: first, second
//! ```
#![tactic(auto)]

mod log;

pub use log::Log;
