//! What a term means within a scope, with `let` and macros put in, or the first fault that it has
//! (SMT-LIB 2.6, section 3.6; theories Core, Ints and UnicodeStrings).
//!
//! The one central fact is the definition `meant` in specs/Meant.antt, by cases on the term's form;
//! `settled` there says besides that neither the term nor a value of `let` in it is too large. The
//! names, ranks and kinds of all functions are the one table `signature` of smt_names.
//!
//! The walk goes over a term once and adds each part to a draft (term_draft), which knows its sort
//! and its size before anything is put in, in time linear in the text. Only then is the term built,
//! in time linear in what is built. Stack is linear in the nesting.
//!
//! ```text
//! // with x declared as a constant of sort String
//! settle_one(alloc, &symbols, &[], &term)? // of (let ((y x)) (= y "a")): the term (= x "a")
//! settle_sorts(alloc, &symbols, &[term])? // of the same: one Bool, and nothing is built
//! ```
#![tactic(auto)]

mod binding;
mod head;
mod parts;
mod scope;
mod settling;
mod walk;

pub use scope::parameter_name;
pub use settling::{settle_one, settle_sorts};
