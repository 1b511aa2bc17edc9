use crate::cost::Cost;
use std::alloc::{AllocError, Global};
use sv_list::Copied;
use sv_word::Ranges;

/// A step from state `from` to state `to` on each character of `on`, at one number of `cost` for each register.
#[derive(Drop)]
pub struct Edge {
    pub from: u32,
    pub on: Ranges,
    pub cost: Cost,
    pub to: u32,
}

impl Copied for Edge {
    fn copy(&self, alloc: Global) -> Result<Self, AllocError> {
        Ok(Edge {
            from: self.from,
            on: self.on.copy(alloc)?,
            cost: self.cost.copy(alloc)?,
            to: self.to,
        })
    }
}
