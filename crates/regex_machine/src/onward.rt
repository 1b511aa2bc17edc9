//! What follows at a place of an expression.
use machine_core::Move;
use std::alloc::{AllocError, Global};
use sv_list::{Copied, Items};

/// What may follow at a place: the moves, and whether a word may end there.
#[derive(Drop)]
pub struct Onward {
    pub moves: Items<Move<u32>>,
    pub may_end: bool,
}

impl Copied for Onward {
    fn copy(&self, alloc: Global) -> Result<Self, AllocError> {
        Ok(Onward {
            moves: self.moves.copy(alloc)?,
            may_end: self.may_end,
        })
    }
}

/// What follows at a place, and the state that has it, where one was made.
#[derive(Drop)]
pub struct Rest {
    pub onward: Onward,
    pub state: Option<u32>,
}

impl Copied for Rest {
    fn copy(&self, alloc: Global) -> Result<Self, AllocError> {
        Ok(Rest {
            onward: self.onward.copy(alloc)?,
            state: self.state,
        })
    }
}
