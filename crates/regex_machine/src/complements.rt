//! The words that a machine doesn't read, by the sets of states in which it may be at a place of the word: after what
//! stands before that place, or before what stands behind it.
ghost use Rattle.std.specs.Prelude.{◌≡◌, ◌≤◌, ◌<◌, ◌^◌, IfOk, IfSome};
ghost use Rattle.sv_word.specs.Words.{IsWord};
ghost use Rattle.regex_machine.specs.Built.{Builds};
ghost use Rattle.regex_machine.specs.Joined.{WordsOf};
ghost use Rattle.regex_machine.specs.Reversed.{IsReversed, ReadsOthersWithin};

use crate::explored::list_states;
use crate::reversal::reversed;
use machine_core::Explicit;
use std::alloc::{AllocError, Global};
use subset_machine::Subset;
use sv_terms::power_of_two;
use trim_search::BuildFault;

// The first try takes at most so many times the states of the machine.
const FIRST_TRY: u64 = 2;

// Each further one takes so many times the states of the one before it. None takes more than this part of the limit, so
// that all tries together cost less than the last construction.
const TRY_GROWTH: u64 = 4;

// The other words, by the sets of states after what was read.
fn by_sets(alloc: Global, part: &Explicit, limit: u64) -> Result<Explicit, BuildFault>
    requires { part.now.registers ≡ 0 }
    ensures { Builds (λ w. IsWord w × (WordsOf part.now w → ⊥)) (2 ^ part.now.states) limit result }
{
    let subset = Subset::of(part, true);
    list_states(alloc, &subset, limit)
}

// The same, where that takes no more states than the limit.
fn from_start(alloc: Global, part: &Explicit, limit: u64) -> Result<Option<Explicit>, AllocError>
    requires { part.now.registers ≡ 0 }
    ensures { IfOk result (λ o. IfSome o (ReadsOthersWithin part.now limit)) }
{
    match by_sets(alloc, part, limit) {
        Ok(others) => Ok(Some(others)),
        Err(BuildFault::States(_)) => Ok(None),
        Err(BuildFault::Memory(e)) => Err(e),
    }
}

// The other words, by the sets of states before what is still to be read, where that takes no more states than the
// limit: `turned` reads the words from their ends on, and its other words are turned once more.
fn from_end(
    alloc: Global,
    part: &Explicit,
    turned: &Explicit,
    limit: u64,
) -> Result<Option<Explicit>, AllocError>
    requires { IsReversed part.now turned.now }
    ensures { IfOk result (λ o. IfSome o (ReadsOthersWithin part.now limit)) }
{
    if limit == 0 {
        return Ok(None);
    }
    match by_sets(alloc, turned, limit - 1) {
        Ok(others) => {
            let back = reversed(alloc, &others)?;
            Ok(Some(back))
        }
        Err(BuildFault::States(_)) => Ok(None),
        Err(BuildFault::Memory(e)) => Err(e),
    }
}

// The one or the other, where either takes no more states than the limit.
fn from_either(
    alloc: Global,
    part: &Explicit,
    turned: &Explicit,
    limit: u64,
) -> Result<Option<Explicit>, AllocError>
    requires plain { part.now.registers ≡ 0 }
    requires turned { IsReversed part.now turned.now }
    ensures { IfOk result (λ o. IfSome o (ReadsOthersWithin part.now limit)) }
{
    match from_start(alloc, part, limit)? {
        Some(others) => Ok(Some(others)),
        None => from_end(alloc, part, turned, limit),
    }
}

// The one or the other, by tries of more and more states, each below a quarter of `most`.
fn by_tries(
    alloc: Global,
    part: &Explicit,
    turned: &Explicit,
    most: u64,
) -> Result<Option<Explicit>, AllocError>
    requires plain { part.now.registers ≡ 0 }
    requires turned { IsReversed part.now turned.now }
    ensures { IfOk result (λ o. IfSome o (ReadsOthersWithin part.now most)) }
{
    let mut limit = u64::from(part.states()) * FIRST_TRY;
    while limit < most / TRY_GROWTH {
        if let Some(others) = from_either(alloc, part, turned, limit)? {
            return Ok(Some(others));
        }
        limit = limit.saturating_mul(TRY_GROWTH);
    }
    Ok(None)
}

/// The words that aren't in the part, by the subset construction (Rabin and Scott, 1959) of the part, or of the part that
/// reads words from their ends on, whichever ends first where both are tried with more and more states: of
/// `(a|b)*a(a|b){n}` the one has 2^n states and the other n.
///
/// Takes at most eight times the states of the smaller one where that is within a quarter of the limit, and else below three
/// times the limit.
#[inline(never)]
pub fn complement(alloc: Global, part: &Explicit, limit: u64) -> Result<Explicit, BuildFault>
    requires { part.now.registers ≡ 0 }
    ensures { Builds (λ w. IsWord w × (WordsOf part.now w → ⊥)) (2 ^ part.now.states) limit result }
{
    let turned = reversed(alloc, part)?;
    let most = limit.min(power_of_two(u64::from(part.states())));
    if let Some(others) = by_tries(alloc, part, &turned, most)? {
        return Ok(others);
    }
    match by_sets(alloc, part, limit) {
        Ok(others) => Ok(others),
        Err(BuildFault::Memory(e)) => Err(BuildFault::Memory(e)),
        Err(BuildFault::States(n)) => match from_end(alloc, part, &turned, most)? {
            Some(others) => Ok(others),
            None => Err(BuildFault::States(n)),
        },
    }
}
