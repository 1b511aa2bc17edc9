//! The text of a generated script as s-expressions.
//!
//! The one central fact: **a reader reads a generated script to its end, and gives these items**
//! (`scripts_are_items`): seven commands for each block, of the shape and with the number that are
//! drawn for it.
//!
//! There is nothing that runs: the definitions stand in specs/, and the function is a law.
#![tactic(auto)]

mod laws;

pub use laws::scripts_are_items;
