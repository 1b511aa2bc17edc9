//! Literals, and the linear forms of the terms in them.
//!
//! [`role_of`] says what each function does, [`string_code`], [`length_code`] and [`integer_code`] make the codes by
//! which terms and unknowns are compared, and [`subtract`] the difference of two terms of sort Int over numbered
//! [`Unknowns`]. The central fact: a form is the definition's, and a refusal names two numbers whose sum or product, in
//! a step by which the definition builds the form, needs more than 128 bits; [`check_atom`] refuses exactly the atoms
//! with such a step.
//!
//! Time and memory are linear in the terms, but for the forms, which are added up from the left, and the look-up of
//! each unknown among those of the two terms.
//!
//! ```text
//! subtract(&mut unknowns, alloc, left, right)?;      // (+ n 1), m: unknowns n and m, n - m + 1 and its negative
//! ```
#![tactic(auto)]

mod code;
mod differences;
mod forms;
mod literal;
mod reading;
mod roles;
mod sorts;
mod term_form;
mod unknowns;

pub use code::string_code;
pub use differences::{Differences, check_atom, subtract};
pub use literal::{Cube, Literal};
pub use roles::{Build, IntOrder, Joint, Role, Test, role_of};
pub use sorts::head_sort;
pub use term_form::TermForm;
pub use unknowns::{Unknowns, integer_code, length_code};
