//! Runs of machines by the counts of their edges.
//!
//! A run takes each edge and each end of its machine so many times. **Counts are those of some run exactly
//! where one end is used, counts balance at each state, and used edges are reached from the start (Euler)**,
//! so what runs cost is linear in whole numbers. [`system_of`] writes this for machines and rows, and its
//! joined solutions are the hits of the machines: both ways are laws.
//!
//! - [`flow_of`] counts a run, and [`run_of`] finds a run of just the given counts, by Hierholzer's tour, or
//!   the states that lie apart.
//! - [`NetCutter`] finds the states of a system's nets that a point doesn't join.
//!
//! ```
//! // A run that goes round a cycle twice.
//! let run = run_of(alloc, &machine, &[0, 1, 1, 2, 2, 2, 0, 1])?;
//! ```
#![tactic(auto)]

mod balances;
mod building;
mod counting;
mod flow_fault;
mod items;
mod laws;
mod net_cutter;
mod nets;
mod reaching;
mod rows;
mod running;
mod sizes;
mod terms;
mod tour;

pub use building::system_of;
pub use counting::flow_of;
pub use flow_fault::FlowFault;
pub use laws::{
    apart_is_not_joined, nets_are_within, runs_have_flows, solutions_are_hits, systems_count_edges,
};
pub use net_cutter::NetCutter;
pub use running::run_of;
