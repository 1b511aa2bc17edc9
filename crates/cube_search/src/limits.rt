//! The limits on the numbers of a cube's text.
ghost use Rattle.std.specs.Prelude.{◌≡◌, IfSome, MatchOption};
ghost use Rattle.cube_bounds.specs.Measuring.{AreNumbersOf};
ghost use Rattle.cube_search.specs.Limits.{IsWithinLimits, MustDecideFlat};
ghost use Rattle.cube_search.specs.Causes.{GrowsLittleUnless, IsCauseOf, past_reason};

use crate::reason::OpenReason;
use cube_bounds::Numbers;
use flat_cubes::Flat;
use part_machines::MOST_STATES;
use sv_terms::{MOST_CHARACTERS, MOST_SPLITS};

/// A number of a cube's text that is past its limit.
#[derive(Clone, Copy)]
pub enum PastLimit {
    /// The most states of a machine.
    States(u64),
    /// The ways to cut concatenations.
    Splits(u64),
    /// The growth of the words.
    Growth(u64),
}

impl PastLimit {
    /// Why the cube is left open, where a search isn't enough.
    pub fn reason(self) -> OpenReason
        ensures { result ≡ past_reason self }
    {
        match self {
            PastLimit::States(states) => OpenReason::States(states),
            PastLimit::Splits(splits) => OpenReason::Splits(splits),
            PastLimit::Growth(growth) => OpenReason::Growth(growth),
        }
    }
}

/// The first limit that a number of the text is past: where there are rows that on growth, then that on states, then
/// that on splits. So a cube past one of the last two alone is told by it, and may be searched. Constant time.
pub fn past_limit(flat: &Flat, numbers: &Numbers) -> Option<PastLimit>
    requires { AreNumbersOf flat.now numbers.now }
    ensures cause { MatchOption result (IsWithinLimits flat.now) (λ limit. IsCauseOf flat.now (past_reason limit)) }
    ensures little { IfSome result (GrowsLittleUnless flat.now) }
    ensures undecided { IfSome result (λ _. MustDecideFlat flat.now → ⊥) }
{
    if numbers.growth > MOST_CHARACTERS && !flat.rows.is_empty() {
        return Some(PastLimit::Growth(numbers.growth));
    }
    if numbers.states > MOST_STATES {
        return Some(PastLimit::States(numbers.states));
    }
    if numbers.splits > MOST_SPLITS {
        return Some(PastLimit::Splits(numbers.splits));
    }
    None
}
