use crate::closing::Closing;
use crate::long_shown::LongShown;
use farkas_check::System;
use lia_branch::Evidence;
use search_hits::Hit;

/// What `leaf` answers.
#[derive(Drop)]
pub enum LeafAnswer {
    /// Runs and whole numbers that meet the rows, within the reach.
    Sat(Hit),
    /// Nothing meets the rows.
    Closed(Closing),
    /// Whatever meets the rows has more characters than the reach.
    Long(LongShown),
    /// The solver gave up on this system, and the region holds nothing.
    Open(System, Evidence),
}
