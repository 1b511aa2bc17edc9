//! Machines in turn as one machine, which ends where rows are met.
//!
//! A layer says which machine is at work, in which state, and what is spent so far at each register. From an end of a
//! machine one character more leads to the start of the next. **[`Layers`] ends a word behind the last machine exactly
//! where what is spent lies in the region and meets the rows with some whole numbers of it**, and [`hit_of`] cuts such a
//! run into one of each machine: with these numbers, a hit. No layer has more spent than the sides of the region allow:
//! there is at most one for each such totals at each state of the largest machine for each machine, and behind the last.
//!
//! The numbers are found by halving a box as long as the bounds of the rows allow it, at worst down to its points.
//!
//! ```
//! // What leaves the first layer.
//! let layers = Layers { machines: &machines, integers: 1, rows: &rows, region: &region };
//! let moves = layers.moves(alloc, &layers.start(alloc)?)?;
//! ```
#![tactic(auto)]

mod cutting;
mod finding;
mod hitting;
mod layer;
mod layers;
mod moving;
mod paying;

pub use cutting::layer_at;
pub use hitting::hit_of;
pub use layer::Layer;
pub use layers::Layers;
