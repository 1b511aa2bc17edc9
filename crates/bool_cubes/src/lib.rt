//! The boolean structure of assertions: cubes of literals.
//!
//! Assertions are literals joined by and and or, negation carried inward; a cube is one choice of
//! literals that together make all assertions true. The central fact: values make the assertions true
//! exactly where they make some cube true. The cubes come one after another, in a fixed order, and a
//! cube is made from its number alone, so none is kept.
//!
//! Stretches of cubes that hold an atom and its negation are found from their number, without making them: those that
//! share the choices by which they hold both. More than 1,048,576 cubes are given only on request, where at most so many
//! are left without these.
//!
//! What leaves 128 bits in the linear form of an atom is found before the first cube is given.
//!
//! Costs: `count` and `Cubes::new` take time and memory linear in the terms, but for `distinct`, which has a
//! part for each pair of its arguments, and `Cubes::new` for the forms, which are added up from the left. A
//! cube costs its own literals and of each `or` on the way to them the logarithm of its arguments' number:
//! jumps lead past many alternatives at once.
//!
//! ```text
//! let mut cubes = Cubes::new(alloc, terms)?;     // (or p q), (or r s)
//! cubes.next(alloc)?;                            // p and r, then p and s, q and r, q and s
//! ```
#![tactic(auto)]

mod contradiction;
mod counts;
mod cubes;
mod digest;
mod fault;
mod jumps;
mod known;
mod laws;
mod marks;
mod node;
mod past;
mod plan;
mod planning;
mod stretch;

pub use contradiction::{contradictions_are_false, is_contradictory};
pub use counts::count;
pub use cubes::Cubes;
pub use fault::CubeFault;
pub use laws::{
    cubes_are_counted, cubes_are_exact, cubes_are_picked, literals_fit, literals_have_values,
    literals_pass,
};
