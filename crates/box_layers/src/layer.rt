use machine_core::State;
use std::alloc::{AllocError, Global};
use sv_list::{Copied, Items};

/// A state of all machines in turn: which of them is at work, its state, and what is spent so far at
/// each register. Behind the last machine its number is how many there are.
#[derive(Drop, PartialEq, Eq, PartialOrd, Ord)]
pub struct Layer {
    pub machine: u64,
    pub state: u32,
    pub spent: Items<u64>,
}

impl Copied for Layer {
    fn copy(&self, alloc: Global) -> Result<Self, AllocError> {
        Ok(Layer {
            machine: self.machine,
            state: self.state,
            spent: self.spent.copy(alloc)?,
        })
    }
}

impl State for Layer {
    ghost use Rattle.box_layers.specs.LayerOrder.{layer-same};

    ghost same = { layer-same };
}
