//! What a search has taken so far.
ghost use Rattle.std.specs.Prelude.{◌≡◌, ◌⊎◌, ℕ, Err};
ghost use Rattle.trim_search.specs.declared.build_fault.BuildFault.TheVariants.{States};
ghost use Rattle.cube_search.specs.declared.allowance.Allowance.TheVariants.{Little, Part};

use crate::allowance::Allowance;
use backward::{FamilyOrigin, LeafState, MetPart};
use trim_search::BuildFault;

// A family counts as so many states more, for what is done once for each. Machines that it shares with the family
// before count nothing.
const FAMILY_EFFORT: u64 = 64;

fn explored_states(meetings: &[MetPart]) -> u64 {
    let mut sum = 0u64;
    for meeting in meetings {
        sum = sum.saturating_add(u64::from(meeting.both.machine.states()));
    }
    sum
}

// The states that were explored for a family.
fn effort_of(made: &FamilyOrigin) -> u64 {
    match made {
        FamilyOrigin::First => 0,
        FamilyOrigin::Cut(meetings) => explored_states(meetings.as_slice()),
        FamilyOrigin::Through(_, before, meeting) => u64::from(
            before.built.machine.states(),
        ).saturating_add(u64::from(meeting.both.machine.states())),
    }
}

/// Counts the states that were explored for a family. `States` comes where that is more than is allowed, which only
/// a search of a bounded effort is refused.
pub fn spend(allowance: Allowance, spent: &mut u64, family: &LeafState) -> Result<(), BuildFault>
    ensures { (n : ℕ) → result ≡ Err (States n) → (allowance ≡ Part) ⊎ ((effort : ℕ) × (allowance ≡ Little effort)) }
{
    *spent = spent
        .saturating_add(FAMILY_EFFORT)
        .saturating_add(effort_of(&family.made));
    if *spent > allowance.most_effort() {
        return Err(BuildFault::States(*spent));
    }
    Ok(())
}
