//! A system of linear constraints over whole numbers with unknowns put out of its equations, what is left of it, and
//! the way back.
//!
//! The central fact: an elimination is a heuristic, with no proof of how it finds what it finds, since each answer is
//! tested by what is proved: a leaf by the checker's own test, and the values of a point on every row of the whole
//! system. Of a tree that is lifted nothing is promised, and who answers it tests it. What isn't found says nothing.
//!
//! `Elimination` puts unknowns out of equations by those with coefficient 1 or -1, in one pass, and keeps how each sum
//! was made. `close_by_divisor` closes a system by such a sum that no whole numbers meet. `reduce` makes the system
//! that is left, which is small where the equations are those of chains. `restore_point` gives the unknowns that went
//! out their values back; `lift` takes a tree of what is left to the rows of the whole, and a `Lifter` one leaf after
//! another.
//!
//! Costs: an elimination is near linear in the equations' terms where each holds few unknowns, and so is what follows
//! it, but for a leaf that is lifted: the rows and unknowns of the whole, and the terms of the rows that it names.
//!
//! ```text
//! let Some(elimination) = Elimination::of(alloc, &system)? else { .. };
//! close_by_divisor(alloc, &system, &elimination)?     // a tree of one leaf, or None
//! ```
#![tactic(auto)]

mod dividing;
mod elimination;
mod filling;
mod lifter;
mod lifting;
mod reducing;
mod taken;
mod weights;

pub use dividing::close_by_divisor;
pub use elimination::{Elimination, Owned, RowSum};
pub use filling::restore_point;
pub use lifter::Lifter;
pub use lifting::{Reduction, lift};
pub use reducing::{Reduced, is_within, reduce};
pub use weights::{Weights, add_times};
