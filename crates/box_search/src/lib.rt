//! An exact search for runs and whole numbers that meet rows, in a region of bounded totals.
//!
//! A hit is one run of each machine, and whole numbers. The rows speak of the numbers and of what the runs
//! cost together at each register. **`search` answers a hit in the region, or `None` exactly where there
//! is none**, and the words of its hit are short: where a region holds a hit, it holds one whose words have
//! together at most as many characters as states of the largest machine, points of the region and machines
//! multiplied, since a run that comes twice to a state with the same cost still to pay can leave out what
//! lies between.
//!
//! Where there is one register, pairs of a state and a total are marked (`total_marks`). How is no matter: what counts
//! is a test that every edge and end passes on what is marked, by which no hit is missed, and a run through marked pairs
//! that is made step by step from the machines' own moves. Where the marks would take too much room, or no such run is
//! found, and where there are more registers, the machines are explored in turn as one machine, by breadth, over their
//! states and what is spent so far at each register (`box_layers`); what was seen stands in a table, which has a block
//! for each machine, in it a row for each state, and in that a place for each totals.
//!
//! ```
//! // A word of at most 20 characters, as long as twice a number from 0 to 8.
//! let region = Region { empty: false, registers, integers };    // [(0, 20)], [(0, 8)]
//! let hit = search(alloc, &[machine], 1, &[row], &region)?;
//! ```
#![tactic(auto)]

mod by_marks;
mod laws;
mod layer_table;
mod marked_hit;
mod places;
mod reached;
mod retracing;
mod searching;
mod totals;

pub use laws::{hits_are_short, words_are_short};
pub use searching::search;
