//! What the literals of a cube say, as a draft of its flat cube.
//!
//! The central fact is the clause of [`scan`]: **the draft holds what the literals say, or the first literal of no
//! written kind is told.** Literals are read one after another: each string term gets a place, equal terms one, and
//! what is said of a term, its definition and its equalities go by places. A comparison becomes a row over all integer
//! constants and lengths that stand in comparisons, numbered as they come.
//!
//! A term of sort String is written by literals, constants, concatenations and replacements of a literal by a literal
//! ([`string_terms`]), one of sort Int by numbers, constants, lengths, sums, differences, and products of which one
//! factor at most has an unknown ([`number_terms`]), as `literal_forms` says by what a literal says.
//!
//! Time is linear in the cube, times the depth to which replacements nest in it, but for the forms of comparisons,
//! which are added up from the left.
//!
//! ```text
//! // (= y (str.++ x "a")): places for y, the concatenation, x and "a"; the second is defined, and it and y are one
//! let draft = scan(alloc, &cube)?;
//! ```
#![tactic(auto)]

mod code;
mod comparison;
mod literals;
mod meeting;
mod number_terms;
mod places;
mod scanning;
mod string_terms;
mod terms;
mod truths;
mod unknowns;

pub use scanning::scan;
