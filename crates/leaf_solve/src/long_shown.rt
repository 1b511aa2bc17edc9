use farkas_check::{System, Tree};
use lia_branch::Evidence;
use sv_list::Items;
use sv_word::Word;

/// What lies beyond the reach.
#[derive(Drop)]
pub enum Beyond {
    /// A solution of the system without the row for reach.
    Values(Items<i128>),
    /// That system, and why the solver gave up on it.
    GaveUp(System, Evidence),
}

/// What shows that words are too long together.
pub enum LongShown {
    /// Without rows: a shortest word of each machine.
    Words(Items<Word>),
    /// With rows: the system with the row for reach, a tree that closes it, and what lies beyond.
    Rows {
        system: System,
        tree: Tree,
        beyond: Beyond,
    },
}

// A drop by hand is one call where a derived one is a call for each vector inside.
impl Drop for LongShown {
    fn drop(self) {
        match self {
            Self::Words(_) => {}
            Self::Rows {
                system: _,
                tree: _,
                beyond: _,
            } => {}
        }
    }
}
