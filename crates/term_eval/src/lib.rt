//! The value of a term under a model.
//!
//! The central fact is the definition `value_or_fault`: Opaque where an opaque part stands in the term,
//! else the first step of the arithmetic that leaves 128 bits, else the value. Where it is a value, that
//! is the term's meaning over numbers without bound.
//!
//! Whether a word is in a regular expression is told by derivatives ([`contains`]): what a derivative has are just the
//! words that follow a character in the words of the expression, so a word is in it exactly where the empty word is in
//! what is left once its characters are read (Brzozowski, Derivatives of regular expressions, 1964). All forms are
//! read, complement, intersection and difference too.
//!
//! ```text
//! let length = eval(alloc, &term, &model)?; // Value::Number(3) for (str.len "abc")
//! let letters = Regex::Star(Boxed::new(alloc, Regex::Range(0x61, 0x7A))?);
//! contains(alloc, &letters, &word)? // whether the word has only letters from a to z
//! ```
#![tactic(auto)]

mod build;
mod collected;
mod comparing;
mod contents;
mod derivative;
mod evaluation;
mod fault;
mod functions;
mod laws;
mod nullable;
mod ordered;
mod strings;
mod sums;
mod truths;

pub use contents::contains;
pub use evaluation::{eval, has_opaque};
pub use fault::EvalFault;
pub use laws::{opaque_is_told, value_is_meant};
