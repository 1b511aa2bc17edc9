//! S-expressions as text, and that a reader gives them back (SMT-LIB 2.6, sections 3.1 and 3.2).
//!
//! The one central fact: **what is printed reads back as itself**. A list that is printed with one
//! space between its items is whole with its last byte, and is that list; lines with an
//! s-expression each are those s-expressions and nothing more (`printed_items_are_read`). So a text
//! that is told as printed s-expressions has one reading, and it is known without a reader.
//!
//! There is nothing that runs: the definitions stand in specs/, and each function is a law.
#![tactic(auto)]

mod laws;

pub use laws::{printed_items_are_read, readings_agree};
