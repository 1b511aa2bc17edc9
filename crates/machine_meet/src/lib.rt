//! Machines made of machines.
//!
//! [`Meet`] reads a word with several machines together: **a pair of a word and a cost is one of the
//! product exactly where each part reads the word at some cost, and these costs add up to the
//! cost**. It is a machine that is explored state by state, so that whoever explores it pays for the
//! states that are reached alone. A move list costs near the number of the pairs of a part's move and a
//! move of the parts after it that read a character in common, and the order of their intervals.
//! [`split_run`] takes a run of the product apart into runs of its parts, whose costs add up to those
//! of the run.
//!
//! [`union`], [`concat`] and [`star`] put machines with listed edges together, with exactly the pairs
//! of the two, of one after the other, and of any number one after another. `union` and `star` take
//! time and memory linear in the machines; `concat` also in the number of ends of the first times
//! that of the moves and ends of the start of the second.
//!
//! ```
//! // The words that both machines read.
//! let parts = [first, second];
//! let both = Meet::of(&parts);
//! let moves = both.moves(alloc, &both.start(alloc)?)?;
//! ```
#![tactic(auto)]

mod column;
mod concats;
mod join;
mod laws;
mod meet;
mod options;
mod overlaps;
mod pick;
mod place;
mod product;
mod split;
mod stars;
mod sums;
mod unions;

pub use concats::concat;
pub use laws::costs_of_meets_are_bounded;
pub use meet::Meet;
pub use product::to_lists;
pub use split::split_run;
pub use stars::star;
pub use unions::union;
