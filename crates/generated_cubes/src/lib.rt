//! The blocks of a generated script as cubes, and that their numbers are small.
//!
//! The one central fact: **a block is one straight cube within all limits** (`blocks_are_small`). Its
//! assertions are two literals, and no step of their linear forms leaves 128 bits; with a number up to 50
//! the flat cube has at most 151 states a machine, one way to be cut, and a box of at most 102 lengths. So a
//! verdict is owed on each block.
//!
//! There is nothing that runs: the definitions stand in specs/, and the function is a law.
#![tactic(auto)]

mod laws;

pub use laws::blocks_are_small;
