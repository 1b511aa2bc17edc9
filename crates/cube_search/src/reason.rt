use farkas_check::System;
use leaf_solve::LongShown;
use lia_branch::Evidence;
use literal_forms::Literal;
use machine_core::Explicit;
use sv_list::Items;
use sv_terms::Term;

/// What stands outside the fragment.
#[derive(Drop)]
pub enum Shown {
    /// A literal of no written kind.
    Outside(Literal),
    /// A variable with two definitions.
    Twice(u32),
    /// Variables whose definitions use the next one each, and the last one's the first.
    Cycle(Items<u32>),
    /// An assertion with an opaque part.
    Opaque(Term),
}

/// Why a cube is left open.
pub enum OpenReason {
    /// It isn't straight. No answer for a flat cube has this reason.
    Fragment(Shown),
    /// So many registers, or integer constants. No answer for a flat cube has this reason.
    Wide(u32),
    /// The most states of a machine, by the text.
    States(u64),
    /// The ways to cut concatenations, by the text.
    Splits(u64),
    /// The growth of the words, by the text.
    Growth(u64),
    /// The words of these machines, and of all others, are too long.
    Length(Items<Explicit>, LongShown),
    /// The solver gave up on the system of these machines.
    Arithmetic(Items<Explicit>, System, Evidence),
}

// A drop by hand is one call where a derived one is a call for each vector inside.
impl Drop for OpenReason {
    fn drop(self) {
        match self {
            Self::Fragment(_) => {}
            Self::Wide(_) => {}
            Self::States(_) => {}
            Self::Splits(_) => {}
            Self::Growth(_) => {}
            Self::Length(_, _) => {}
            Self::Arithmetic(_, _, _) => {}
        }
    }
}
