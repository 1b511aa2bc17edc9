//! Tests of the public calls on lists and on whole numbers: linear forms, certificates, the tableau and splits,
//! and on the lengths of a flat cube.
//!
//! A module for each crate that is tested. They stand apart from what they call, so that proving them proves no crate
//! a second time.
#![tactic(auto)]

#[cfg(test)]
mod farkas_check_calls;
#[cfg(test)]
mod length_calls;
#[cfg(test)]
mod lia_branch_calls;
#[cfg(test)]
mod lia_pack_calls;
#[cfg(test)]
mod lia_tableau_calls;
#[cfg(test)]
mod sv_linear_calls;
#[cfg(test)]
mod sv_list_calls;
#[cfg(test)]
mod systems;
