use cube_search::{OpenReason, Refutation};
use sv_list::Items;
use sv_terms::Model;

/// Why no answer was found.
#[derive(Drop)]
pub enum Open {
    /// So many cubes, counted up to 2^64 - 1.
    TooManyCubes(u64),
    /// The sum or the product of these two, in a step of a linear form, needs more than 128 bits.
    PastForm { left: i128, right: i128 },
    /// The open cubes by their numbers, counted from 0 and rising, each with its reason. All others have no
    /// values.
    Cubes(Items<(u64, OpenReason)>),
}

/// The answer for a list of assertions.
#[derive(Drop)]
pub enum Verdict {
    /// Values that make all of them true: one for each of their constants, and for no other name.
    Sat(Model),
    /// No values make those without opaque parts true. So many leaves of their cubes were closed.
    Unsat(Refutation),
    Unknown(Open),
}
