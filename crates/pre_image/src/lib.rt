//! What stands before a definition: parts of a machine's runs, and pre-images under transducers.
//!
//! The central fact: **a word is in the pre-image at a cost exactly where the transducer may write,
//! for this word, some word that the target has at that cost**. Both machines are explored state by
//! state, and both ways back are here: from runs of parts, one after another, to a run of the whole,
//! and from a run of a pre-image to a written word with a run of the target.
//!
//! - [`Slice`] is a machine's runs from one state to another, or to its ends. It costs what the
//!   machine costs.
//! - [`Pre`] is the pre-image. A step of it costs a walk of the target along what an edge writes.
//! - [`lift_concat`] puts two runs one after the other. Linear.
//! - [`lift_pre`] finds the written word and the target's run.
//!
//! ```
//! // The words for which `through` may write a word of `target`.
//! let pre = Pre::of(alloc, &through, &target)?;
//! let built = materialise(alloc, &pre, 1000)?;
//! ```
#![tactic(auto)]

mod joining;
mod laws;
mod leading;
mod letter;
mod lifting;
mod parts;
mod pre;
mod slice;
mod ways;

pub use joining::lift_concat;
pub use laws::{
    joined_runs_are_runs, pre_costs_are_bounded, pre_is_exact, slice_costs_are_bounded,
};
pub use lifting::lift_pre;
pub use pre::Pre;
pub use slice::Slice;
