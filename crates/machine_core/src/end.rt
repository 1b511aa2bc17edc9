use crate::cost::Cost;
use std::alloc::{AllocError, Global};
use sv_list::Copied;

/// State `at` is one in which a word may end, at one number of `cost` for each register.
#[derive(Drop)]
pub struct End {
    pub at: u32,
    pub cost: Cost,
}

impl Copied for End {
    fn copy(&self, alloc: Global) -> Result<Self, AllocError> {
        Ok(End {
            at: self.at,
            cost: self.cost.copy(alloc)?,
        })
    }
}
