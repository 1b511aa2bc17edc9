//! Flat cubes: variables over words with what is said of each alone, definitions without a cycle, and rows.
//!
//! A [`Flat`] is what a cube says once its terms are variables, a [`FlatDraft`] what its literals say before, by the
//! places of terms, and a [`FlatFault`] why a cube has no flat one. The definitions of `specs/` say what the literals
//! of a cube say, which flat cube that makes, and when words and numbers satisfy one. The crates that make flat cubes
//! and those that search them stand on this one, and not on one another.
//!
//! The central fact: [`By::uses`] is `used`, by which definitions are put in order and carried backward. It takes
//! constant time, and nothing else is computed here.
//!
//! ```text
//! By::Concat(pieces).uses()      // the pieces; of a replacement or a transducer the one variable that it reads
//! ```
#![tactic(auto)]

mod definition;
mod draft;
mod fault;
mod flat;
mod variable;

pub use definition::{By, Definition};
pub use draft::{FlatDraft, Quantity};
pub use fault::FlatFault;
pub use flat::Flat;
pub use variable::{Own, Variable};
