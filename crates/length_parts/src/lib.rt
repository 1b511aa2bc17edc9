//! Bounds on the lengths of words, said as parts.
//!
//! The central fact is the clause of [`with_length_parts`]: **just the same words and numbers satisfy the cube as it is
//! rewritten**. A row that bounds the length of one variable, which isn't defined, by a small number is left out, and
//! the variable is said to be in a regular expression that has just the words of such lengths. So where no other row is
//! left, no lengths need to be counted.
//!
//! Linear in the rows and the definitions, for each row of one unknown.
//!
//! ```text
//! if has_length_rows(&flat) {
//!     let flat = with_length_parts(alloc, flat)?;
//! }
//! ```
#![tactic(auto)]

mod bound;
mod bounding;
mod lengths;
mod rewriting;

pub use rewriting::{has_length_rows, with_length_parts};
