//! Tests of public calls on machines: those that no script reaches, or of which a script doesn't show what matters.
//!
//! A module for each crate that is tested. They stand apart from what they call, so that proving them proves no crate
//! a second time. The program's scripts run the calls of `pre_image` and `replace_machines`, which have no module
//! here, and most calls of the others.
#![tactic(auto)]

#[cfg(test)]
mod machine_core_calls;
#[cfg(test)]
mod machine_meet_calls;
#[cfg(test)]
mod regex_machine_calls;
#[cfg(test)]
mod segment_machines_calls;
#[cfg(test)]
mod subset_machine_calls;
#[cfg(test)]
mod transducer_core_calls;
#[cfg(test)]
mod trim_search_calls;
