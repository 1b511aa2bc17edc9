//! The items of a generated script as sorted commands.
//!
//! The one central fact: **each item of a block is the command that its words say**
//! (`blocks_are_commands`): none has a fault, no part of its terms is opaque, and the assertions are
//! the terms of the block.
//!
//! There is nothing that runs: the definitions stand in specs/, and the function is a law.
#![tactic(auto)]

mod laws;

pub use laws::blocks_are_commands;
