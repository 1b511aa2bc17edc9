//! The blocks of a generated script as terms, and their answers by mathematics alone.
//!
//! The one central fact: **each block has a known answer** (`block_answers_are_known`). A power of
//! `"ab"` has its own length, and halves of an even length are found: values are written down. No
//! word of pairs has an odd length, no two equal halves have one, and no word in which each `<` was
//! escaped has one: no values at all make such a block true. No decision procedure is asked.
//!
//! There is nothing that runs: the definitions stand in specs/, and the function is a law.
#![tactic(auto)]

mod laws;

pub use laws::block_answers_are_known;
