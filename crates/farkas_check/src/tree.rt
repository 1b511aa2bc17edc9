use sv_list::{Boxed, Items};

/// A certificate by cases that a system has no solution.
///
/// The rows of a node are those of the system and then, from the root, one for each branch above it.
/// `multipliers` lists pairs of a row's number and its multiplier, the row numbers ascending.
#[derive(Drop)]
pub enum Tree {
    /// In `low` the unknown is at most `at`, in `high` at least `at + 1`.
    Split {
        unknown: u32,
        at: i128,
        low: Boxed<Tree>,
        high: Boxed<Tree>,
    },
    /// The states lack the net's start. In `none` no edge out of them is used, in `some` an edge
    /// that enters them from outside is.
    SetSplit {
        net: u32,
        states: Items<u32>,
        none: Boxed<Tree>,
        some: Boxed<Tree>,
    },
    /// The rows times their multipliers add up to a constant above 0. A multiplier of a row that is at
    /// most 0 isn't negative.
    Farkas {
        multipliers: Items<(u32, i128)>,
    },
    /// The rows, all equations, times their multipliers add up to a form whose coefficients the divisor,
    /// at least 2, divides, and whose constant it doesn't.
    Divisor {
        multipliers: Items<(u32, i128)>,
        divisor: i128,
    },
    /// A case that is left open.
    Open,
}
