//! How much a search may take.
ghost use Rattle.std.specs.Prelude.{◌≡◌, ◌-◌, ◌<◌, ◌^◌, ◌⊎◌, true};
ghost use Rattle.cube_search.specs.Allowances.{is_bounded};
ghost use Rattle.cube_search.specs.declared.allowance.Allowance.TheVariants.{Little, Part};

use cube_bounds::Numbers;
use part_machines::MOST_STATES;
use sv_terms::MOST_SPLITS;

/// The most states that are explored in all by a search beyond the limit on splits.
const MOST_EFFORT: u64 = 1_048_576;

/// The most states that are explored in all before a cube that comes apart is searched part by part.
const FIRST_EFFORT: u64 = 16_384;

/// How much a search may take.
#[derive(Clone, Copy)]
pub enum Allowance {
    /// Whatever it takes, which the limits on the text bound.
    Whole,
    /// Explorations of at most so many states as a machine may have, where the text is past the limit on states alone.
    Machines,
    /// Such explorations, and so many states in all of them, where the text is past the limit on splits.
    Part,
    /// Such explorations, and so many states in all of them, where a cube comes apart.
    Little(u64),
}

impl Allowance {
    /// How much may be taken where the text is past the limit on states or on splits. Constant time.
    pub fn beyond(numbers: &Numbers) -> Allowance
        ensures { result ≡ Part → MOST_SPLITS < numbers.now.splits }
    {
        if numbers.splits > MOST_SPLITS {
            Allowance::Part
        } else {
            Allowance::Machines
        }
    }

    /// How much is taken before a cube that comes apart is searched part by part. Constant time.
    pub fn first() -> Allowance
        ensures { is_bounded result ≡ true }
    {
        Allowance::Little(FIRST_EFFORT)
    }

    /// How much each of so many parts may take: all together no more than a search past the limit on splits. Constant
    /// time.
    pub fn of_part(number: usize) -> Allowance
        ensures { is_bounded result ≡ true }
    {
        match MOST_EFFORT.checked_div(number as u64) {
            None => Allowance::Part,
            Some(effort) => Allowance::Little(effort),
        }
    }

    /// The most states of one machine.
    pub fn most_states(self) -> u64
        ensures { result < 2 ^ 32 → is_bounded self ≡ true }
    {
        match self {
            Allowance::Whole => u64::MAX,
            Allowance::Machines => MOST_STATES,
            Allowance::Part => MOST_STATES,
            Allowance::Little(_) => MOST_STATES,
        }
    }

    /// The most states that are explored in all.
    pub fn most_effort(self) -> u64
        ensures { result < 2 ^ 64 - 1 → (self ≡ Part) ⊎ (self ≡ Little result) }
    {
        match self {
            Allowance::Whole => u64::MAX,
            Allowance::Machines => u64::MAX,
            Allowance::Part => MOST_EFFORT,
            Allowance::Little(effort) => effort,
        }
    }
}
