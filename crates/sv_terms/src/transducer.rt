use std::alloc::{AllocError, Global};
use sv_list::{Copied, Items, Same};
use sv_word::Word;

/// What an edge writes.
#[derive(Drop)]
pub enum Item {
    /// This word.
    Text(Word),
    /// The character that was read, moved by this number. An edge can't be taken where the sum is
    /// no character.
    Shift(i32),
}

/// An edge of a transducer: in the state `from` it reads a character from `lo` to `hi`, writes its
/// items in their order, and leads to the state `to`.
#[derive(Drop)]
pub struct TransEdge {
    pub from: u32,
    pub lo: u32,
    pub hi: u32,
    pub items: Items<Item>,
    pub to: u32,
}

/// A finite transducer: it reads a word from its state `start` on, an edge for each character, and
/// at the end of the word writes what one of the ends of its last state says.
///
/// The states are the numbers below `states`. `ends` lists pairs of a state and the word that is
/// written there at the end.
pub struct Transducer {
    pub states: u32,
    pub start: u32,
    pub edges: Items<TransEdge>,
    pub ends: Items<(u32, Word)>,
}

// A drop by hand is one call where a derived one is a call for each vector inside.
impl Drop for Transducer {
    fn drop(self) {
        let Self {
            states: _,
            start: _,
            edges: _,
            ends: _,
        } = self;
    }
}

impl Copied for Item {
    fn copy(&self, alloc: Global) -> Result<Item, AllocError> {
        match self {
            Item::Text(word) => Ok(Item::Text(word.copy(alloc)?)),
            Item::Shift(by) => Ok(Item::Shift(*by)),
        }
    }
}

impl Copied for TransEdge {
    fn copy(&self, alloc: Global) -> Result<TransEdge, AllocError> {
        Ok(TransEdge {
            from: self.from,
            lo: self.lo,
            hi: self.hi,
            items: self.items.copy(alloc)?,
            to: self.to,
        })
    }
}

impl Copied for Transducer {
    fn copy(&self, alloc: Global) -> Result<Transducer, AllocError> {
        Ok(Transducer {
            states: self.states,
            start: self.start,
            edges: self.edges.copy(alloc)?,
            ends: self.ends.copy(alloc)?,
        })
    }
}

impl Same for Item {
    fn same(&self, other: &Item) -> bool {
        match self {
            Item::Text(word) => match other {
                Item::Text(w) => word.same(w),
                Item::Shift(_) => false,
            },
            Item::Shift(by) => match other {
                Item::Text(_) => false,
                Item::Shift(k) => *by == *k,
            },
        }
    }
}

impl Same for TransEdge {
    fn same(&self, other: &TransEdge) -> bool {
        self.from == other.from
            && self.lo == other.lo
            && self.hi == other.hi
            && self.to == other.to
            && self.items.same(&other.items)
    }
}

impl Same for Transducer {
    fn same(&self, other: &Transducer) -> bool {
        self.states == other.states
            && self.start == other.start
            && self.edges.same(&other.edges)
            && self.ends.same(&other.ends)
    }
}
