//! What the text of a flat cube bounds: the states of its machines, the ways to cut its concatenations, how its words
//! grow, and the box that its rows make.
//!
//! The central fact is the clause of [`numbers`]: **each number is that of the definition, cut off at 64 bits**; the
//! laws say how states and growth follow the definitions of variables, and how long words are at most. The definitions
//! are without bound, so that where an answer is owed is told by the text alone.
//!
//! Three passes over the cube, linear in its text.
//!
//! ```text
//! let numbers = numbers(alloc, &flat)?;
//! if numbers.states > 262_144 { /* the cube is searched with a bounded effort */ }
//! ```
#![tactic(auto)]

mod bounding;
mod boxing;
mod carrying;
mod counting;
mod growing;
mod measures;
mod measuring;
mod number_laws;
mod smallness;
mod splitting;
mod work;

pub use measures::Numbers;
pub use measuring::numbers;
pub use number_laws::{
    growth_goes_along, growth_is_solved, sources_stand, states_are_solved, words_are_short,
};
pub use work::{MOST_WORK, is_little};
