//! One family of machines and rows over what their runs cost: a hit, or why there is none.
//!
//! The central fact is the clause `answer` of [`leaf`]: **a hit meets the rows and isn't longer than the
//! reach, a closing comes only where nothing meets them, `Long` only where whatever does is longer, and
//! `Open` only with evidence that holds and a region that was searched**. The clause `decided` says where
//! a hit or a closing is owed: where the region holds every solution, and without rows where the reach is at
//! least the states of all machines together.
//!
//! Without rows shortest words decide, and no system is made. With rows the system of edge counts is solved
//! with a row that keeps the words within the reach; where that is closed, without this row; and where the
//! solver gives up the region is searched.
//!
//! ```text
//! // Is a word of the machine four characters long?
//! let answer = leaf(alloc, &[machine], 0, &[length_is_four], &region, false, 4194303)?;
//! ```
#![tactic(auto)]

mod answering;
mod closing;
mod counts;
mod leaf_answer;
mod long_shown;
mod question;
mod rows;
mod shortest;
mod systems;
mod words;

pub use answering::leaf;
pub use closing::Closing;
pub use leaf_answer::LeafAnswer;
pub use long_shown::{Beyond, LongShown};
