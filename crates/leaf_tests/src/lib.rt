//! Tests of the public calls on families of machines: shared machines and meetings of parts, a cut of a concatenation,
//! searches in a box, edge counts and leaves. What a script shows by its reply is tested by the program's scripts.
//!
//! A module for each crate that is tested. They stand apart from what they call, so that proving them proves no crate
//! a second time.
#![tactic(auto)]

#[cfg(test)]
mod backward_calls;
#[cfg(test)]
mod box_search_calls;
#[cfg(test)]
mod leaf_solve_calls;
#[cfg(test)]
mod parikh_flow_calls;
#[cfg(test)]
mod part_machines_calls;
