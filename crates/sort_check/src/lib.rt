//! The sorted command that an s-expression is, or the first fault that it has (SMT-LIB 2.6,
//! section 3.9).
//!
//! The one central fact is the definition `checked` in specs/Checking.antt: one case per form of
//! command, in which the faults are looked for in a fixed order, each over the whole item. What a
//! term means within a scope is `meant` of term_walk, and what `define-transducer` describes is read
//! by transducer_form.
//!
//! Before the one walk over its terms the whole item is looked over (item_passes). Time is linear in
//! the item and in the terms that are built.
//!
//! ```text
//! // with x declared as a constant of sort String
//! command(alloc, &symbols, &item)? // of (assert (let ((y x)) (= y "a")))
//! // Command::Assert of (= x "a")
//! ```
#![tactic(auto)]

mod asking;
mod asserting;
mod checking;
mod commands;
mod declaring;
mod defining;
mod laws;
mod options;

pub use asking::asked_term;
pub use checking::command;
pub use commands::Command;
pub use laws::{
    additions_are_well_formed, constants_have_values, entries_are_well_formed,
    fronts_are_well_formed, terms_are_sorted, terms_are_taken_one_by_one,
};
pub use smt_names::CheckFault;
