//! What parts of terms weigh before they are built: the sort, the size, and whether an unknown stands
//! in it or it is opaque; and the declared names, with what calls of each macro weigh.
//!
//! The central fact: a weight tells of a term what `weight_of` tells of it once it is built
//! (specs/Weights.antt), so an application is weighed by the weights of its arguments, and a call of
//! a macro by a summary of its body (specs/Summaries.antt), without a look at what is put in. What an
//! application is stands in specs/Ranks.antt, what a macro is at its arguments in specs/Bodies.antt,
//! and what a term's size is in specs/Sizes.antt.
//!
//! An application is weighed in time linear in the number of its arguments, and so is a call, in the
//! parameters too. A macro's body is summed up once, in time linear in it, when its name is declared.
//!
//! ```text
//! let word = Weight::leaf(Sort::String, Factor::Literal); // of "a"
//! plain_weight(concat, &[word, word]) // of (str.++ "a" "a"): a String of three nodes
//! ```
#![tactic(auto)]

mod applications;
mod capacity;
mod declarations;
mod declared;
mod places;
mod rank;
mod share;
mod summaries;
mod summary;
mod symbols;
mod tally;
mod weigh;
mod weight;

pub use applications::{opacity, pair_weight, plain_weight};
pub use capacity::room;
pub use declarations::Declarations;
pub use declared::{Declared, Macro};
pub use places::NamePlaces;
pub use rank::{are_of, same_sort, takes_count, takes_sorts};
pub use summary::Summary;
pub use weight::{Factor, Weight};
