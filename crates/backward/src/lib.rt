//! One cube, by machines that are carried backward along its definitions.
//!
//! The central fact: **a definition carried backward keeps the configurations: words of the variables
//! that are left have totals r in a family that came of it exactly where they have them in the old
//! family with the defined variable put to a word that the definition allows**. For a concatenation
//! that holds of all lists of cuts together, each of which gives a family of its own.
//!
//! - [`LeafState`] is a family: one machine for each variable that isn't carried yet. [`first_state`] is the
//!   first family of a flat cube, made of the machines of its variables' own parts.
//! - [`carry_concat`] and [`carry_through`] carry one definition. Each meeting is explored at once, and has
//!   at most the product of its parts' numbers of states.
//! - [`live_cuts`] and [`next_cuts`] mark the states at which a concatenation may be cut: a list of cuts of which one
//!   has no mark leads to no configuration.
//! - [`lift_cut`] and [`lift_through`] take runs of a family back over such a step.
//! - [`step_concat`] and [`step_through`] carry the definition at a place of a flat cube, and [`lift_step`]
//!   takes runs back over it. A family that the cube's text leads to leads on to such a family: a chain of
//!   steps, machines that are as small as the text says, and costs that growth bounds.
//!
//! ```
//! // What is left for y of "abab" as y twice, cut in the middle.
//! let state = LeafState::of(alloc, registers, machines)?;
//! let after = carry_concat(alloc, &state, 1, &[0, 0], &[2], u64::MAX)?;
//! ```
#![tactic(auto)]

mod carrying;
mod cut_lifting;
mod family;
mod first_family;
mod laws;
mod leaf_state;
mod lifting;
mod meeting;
mod pairs;
mod shared;
mod stepping;
mod through;
mod ways;

pub use carrying::carry_concat;
pub use cut_lifting::lift_cut;
pub use first_family::first_state;
pub use laws::{
    costs_fit, cuts_are_exact, families_become_leaves, growth_is_kept, next_can_be_carried,
};
pub use leaf_state::{FamilyOrigin, LeafState};
pub use lifting::lift_through;
pub use meeting::MetPart;
pub use shared::Shared;
pub use stepping::{lift_step, step_concat, step_through};
pub use through::{PreBuilt, carry_through};
pub use ways::{live_cuts, lookup_effort, may_cut, next_cuts};
