//! The verdicts on the blocks of a generated script: the table of a seed and a size.
//!
//! The one central fact: **on each block a verdict is owed, and it is the table's**
//! (`block_verdicts_are_known`). A right verdict that answers where an answer is owed is `sat` on a block
//! that has values and `unsat` on one that has none, and is never `unknown`. So there are assertions
//! on which an answer is owed (`some_must_be_decided`): completeness isn't empty.
//!
//! There is nothing that runs: the definitions stand in specs/, and each function is a law.
#![tactic(auto)]

mod laws;

pub use laws::{block_verdicts_are_known, some_must_be_decided};
