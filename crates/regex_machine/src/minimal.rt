//! Machines made least.
ghost use Rattle.std.specs.Prelude.{◌≡◌, ◌≤◌, ◌^◌, reverse, IfOk, IfSome};
ghost use Rattle.regex_machine.specs.Built.{Builds};
ghost use Rattle.regex_machine.specs.Joined.{HasWords, WordsOf};
ghost use Rattle.regex_machine.specs.Reversed.{ReadsBackWithin, ReadsSameWithin};

use crate::explored::list_states;
use crate::reversal::reversed;
use machine_core::Explicit;
use std::alloc::{AllocError, Global};
use subset_machine::Subset;
use trim_search::BuildFault;

// On the way a machine may have so many times the states of the one that is made least.
const WAY_GROWTH: u64 = 4;

// The same words by the sets of states after what was read.
fn same_by_sets(alloc: Global, part: &Explicit, limit: u64) -> Result<Explicit, BuildFault>
    requires { part.now.registers ≡ 0 }
    ensures { Builds (WordsOf part.now) (2 ^ part.now.states) limit result }
{
    let subset = Subset::of(part, false);
    list_states(alloc, &subset, limit)
}

// The words of the part from their ends on, by a deterministic machine, where that takes no more states than the limit.
fn from_sets(alloc: Global, part: &Explicit, limit: u64) -> Result<Option<Explicit>, AllocError>
    requires { part.now.registers ≡ 0 }
    ensures { IfOk result (λ o. IfSome o (ReadsBackWithin part.now limit)) }
{
    let turned = reversed(alloc, part)?;
    match same_by_sets(alloc, &turned, limit) {
        Ok(machine) => Ok(Some(machine)),
        Err(BuildFault::States(_)) => Ok(None),
        Err(BuildFault::Memory(e)) => Err(e),
    }
}

// The words of the part, where `back` reads them from their ends on.
fn back_again(
    alloc: Global,
    part: &Explicit,
    back: &Explicit,
    limit: u64,
) -> Result<Option<Explicit>, AllocError>
    requires { HasWords (λ w. WordsOf part.now (reverse w)) back.now }
    ensures { IfOk result (λ o. IfSome o (ReadsSameWithin part.now limit)) }
{
    match from_sets(alloc, back, limit)? {
        Some(machine) => Ok(Some(machine)),
        None => Ok(None),
    }
}

/// The deterministic machine of the same words with the fewest states, where it has no more states than the part: by
/// the sets of states of its reversal, reversed, and the sets of that one's (Brzozowski, 1962). None where it has more,
/// or where the reversal takes more than four times as many.
pub fn least(alloc: Global, part: &Explicit) -> Result<Option<Explicit>, AllocError>
    requires { part.now.registers ≡ 0 }
    ensures { IfOk result (λ o. IfSome o (ReadsSameWithin part.now part.now.states)) }
{
    let states = u64::from(part.states());
    match from_sets(alloc, part, states * WAY_GROWTH)? {
        Some(back) => back_again(alloc, part, &back, states),
        None => Ok(None),
    }
}
