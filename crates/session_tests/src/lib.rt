//! Tests of the public calls on answers, and of the program's call `run`, of what no stored run shows: that two threads
//! are under way at once, how scripts are cut into pieces, what limits and faults come to.
//!
//! A module for each crate that is called. They stand apart from what they call, so that proving them proves no crate
//! a second time.
#![tactic(auto)]

#[cfg(test)]
mod core_calls;
#[cfg(test)]
mod decide_calls;
#[cfg(test)]
mod run_calls;
