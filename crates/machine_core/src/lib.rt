//! Machines over words, with costs.
//!
//! A machine reads a word character by character. Each of its steps, and the end of the word, costs
//! one number for each of its registers. **The language of a machine is the set of pairs of a word
//! and a cost such that a run of the machine reads the word and its costs add up to the cost**
//! (cost-enriched automata, Chen et al., ATVA 2020, without negative numbers and with costs of
//! ends). It is defined once, over two bare relations, and every machine of the solver is judged
//! by it.
//!
//! - [`Machine`] is what explores itself state by state, as a product does, and [`State`] what its
//!   states are.
//! - [`Explicit`] keeps its edges and ends in lists, and finds what leaves a state without a look at
//!   the others. It takes memory linear in states, edges and ends; adding is amortised constant, and
//!   `moves` and `ends` are linear in what they answer.
//! - [`join_moves`] makes the moves of a state to one state at one cost one.
//! - [`Index`] finds places in a list by the row that each belongs to, in constant time.
//! - [`Run`] is one run with its states and costs. [`total`] adds the costs up, and [`Run::along`] puts a run
//!   together from edges.
//! - [`Cost`] keeps up to two numbers in place, and allocates nothing for them.
//!
//! ```
//! // The words of `a*`, each with its length at the one register.
//! let mut machine = Explicit::new(alloc, 1, 1)?;
//! let a = Ranges::of(alloc, 0x61, 0x61)?;
//! machine.add_edge(0, a, Cost::from_slice(alloc, &[1])?, 0)?;
//! machine.add_end(0, Cost::zeros(alloc, 1)?)?;
//! ```
#![tactic(auto)]

mod cost;
mod edge;
mod end;
mod explicit;
mod graph;
mod index;
mod joined;
mod laws;
mod machine;
mod run;
mod state;

pub use cost::Cost;
pub use edge::Edge;
pub use end::End;
pub use explicit::Explicit;
pub use graph::Graph;
pub use index::Index;
pub use joined::join_moves;
pub use laws::{language_of_runs, listed_costs_are_bounded, runs_are_formed, runs_bounded_by_top};
pub use machine::{Machine, Move};
pub use run::{CostFault, Run, total};
pub use state::State;
