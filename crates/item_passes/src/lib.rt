//! What is looked for over a whole item before its terms are walked: names that stand twice in one
//! `let`, sorts that aren't known, variables of sort RegLan, numerals above 2^127 - 1; and what
//! `let`, quantifiers and macros bind.
//!
//! The central fact is the definition `looked` in specs/Passes.antt: the first fault of one kind in
//! a term and the terms in it, from the left. Each kind is looked for over the whole item before
//! the next one is.
//!
//! A pass takes time linear in the item, and stack in its nesting.
//!
//! ```text
//! pass_over(alloc, &terms)? // Declared, of (let ((x a) (x b)) x)
//! ```
#![tactic(auto)]

mod binder;
mod pass;
mod passes;

pub use binder::{are_bindings, are_parameters, are_variables, repeats, variables};
pub use pass::Pass;
pub use passes::{at_variables, look, pass_over};
