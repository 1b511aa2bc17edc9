//! The words of one machine that no other reads, read from their beginnings on or from their ends on.
ghost use Rattle.std.specs.Prelude.{◌≡◌, ◌≤◌, IfOk, IfSome, map};
ghost use Rattle.sv_terms.specs.Bounds.{from_left, without_size};
ghost use Rattle.sv_terms.specs.Language.{InFirstOnly};
ghost use Rattle.regex_machine.specs.Built.{Builds};
ghost use Rattle.regex_machine.specs.Joined.{WordsOf, HaveNoRegisters};
ghost use Rattle.regex_machine.specs.Kinds.{states_of};
ghost use Rattle.regex_machine.specs.Reversed.{AreReversed, ReadsFirstOnlyWithin};

use crate::emptiness::none_in_first_only;
use crate::joining::difference;
use crate::letters::nothing;
use crate::reversal::reversed;
use machine_core::Explicit;
use std::alloc::{AllocError, Global};
use sv_list::Items;
use sv_terms::power_of_two;
use trim_search::BuildFault;

// The first try takes at most so many states.
const FIRST_TRY: u64 = 256;

// Each further one takes so many times the states of the one before it. None takes more than this part of the limit, so
// that all tries together cost less than the last product.
const TRY_GROWTH: u64 = 4;

// So many places of a product are looked at for whether it reads any word.
const FEW_PLACES: usize = 1_024;

// Machines that read the words from their ends on, one for each part.
fn reversed_all(alloc: Global, parts: &[Explicit]) -> Result<Items<Explicit>, AllocError>
    requires { HaveNoRegisters parts.now }
    ensures { IfOk result (AreReversed parts.now) }
{
    let mut turned = Items::new(alloc);
    for part in parts {
        let back = reversed(alloc, part)?;
        turned.push(back)?;
    }
    Ok(turned)
}

// The words of the first part that are in no other, where the product takes no more states than the limit.
fn from_start(alloc: Global, parts: &[Explicit], limit: u64) -> Result<Option<Explicit>, AllocError>
    requires { HaveNoRegisters parts.now }
    ensures { IfOk result (λ o. IfSome o (ReadsFirstOnlyWithin parts.now limit)) }
{
    match difference(alloc, parts, limit) {
        Ok(machine) => Ok(Some(machine)),
        Err(BuildFault::States(_)) => Ok(None),
        Err(BuildFault::Memory(e)) => Err(e),
    }
}

// The same by machines that read the words from their ends on: what they read is turned once more.
fn from_end(
    alloc: Global,
    parts: &[Explicit],
    turned: &[Explicit],
    limit: u64,
) -> Result<Option<Explicit>, AllocError>
    requires { AreReversed parts.now turned.now }
    ensures { IfOk result (λ o. IfSome o (ReadsFirstOnlyWithin parts.now limit)) }
{
    if limit == 0 {
        return Ok(None);
    }
    match difference(alloc, turned, limit - 1) {
        Ok(machine) => {
            let back = reversed(alloc, &machine)?;
            Ok(Some(back))
        }
        Err(BuildFault::States(_)) => Ok(None),
        Err(BuildFault::Memory(e)) => Err(e),
    }
}

// The one or the other, where either takes no more states than the limit.
fn from_either(
    alloc: Global,
    parts: &[Explicit],
    turned: &[Explicit],
    limit: u64,
) -> Result<Option<Explicit>, AllocError>
    requires plain { HaveNoRegisters parts.now }
    requires turned { AreReversed parts.now turned.now }
    ensures { IfOk result (λ o. IfSome o (ReadsFirstOnlyWithin parts.now limit)) }
{
    match from_end(alloc, parts, turned, limit)? {
        Some(machine) => Ok(Some(machine)),
        None => from_start(alloc, parts, limit),
    }
}

// The machine of no word, where few places of the product, of the one or of the other, show that there is none.
fn from_places(
    alloc: Global,
    parts: &[Explicit],
    turned: &[Explicit],
    most: u64,
) -> Result<Option<Explicit>, AllocError>
    requires plain { HaveNoRegisters parts.now }
    requires turned { AreReversed parts.now turned.now }
    requires most { 1 ≤ most }
    ensures { IfOk result (λ o. IfSome o (ReadsFirstOnlyWithin parts.now most)) }
{
    if none_in_first_only(alloc, turned, FEW_PLACES)? {
        return Ok(Some(nothing(alloc)?));
    }
    if none_in_first_only(alloc, parts, FEW_PLACES)? {
        return Ok(Some(nothing(alloc)?));
    }
    Ok(None)
}

// The one or the other, by tries of more and more states, each below a quarter of `most`.
fn by_tries(
    alloc: Global,
    parts: &[Explicit],
    turned: &[Explicit],
    most: u64,
) -> Result<Option<Explicit>, AllocError>
    requires plain { HaveNoRegisters parts.now }
    requires turned { AreReversed parts.now turned.now }
    ensures { IfOk result (λ o. IfSome o (ReadsFirstOnlyWithin parts.now most)) }
{
    let mut limit = FIRST_TRY;
    while limit < most / TRY_GROWTH {
        if let Some(machine) = from_either(alloc, parts, turned, limit)? {
            return Ok(Some(machine));
        }
        limit = limit.saturating_mul(TRY_GROWTH);
    }
    Ok(None)
}

// The most states for which both ends are tried: no more than the sets of the second part's states.
fn most_tried(parts: &[Explicit], limit: u64) -> u64
    requires { HaveNoRegisters parts.now }
    ensures within { result ≤ limit }
    ensures few { result ≤ from_left without_size (map states_of parts.now) }
{
    if parts.len() < 2 {
        return 0;
    }
    let sets = power_of_two(u64::from(parts[1].states()));
    limit.min(sets)
}

/// The words of the first part that are in no other, and none where there is no part. The sets of states of the others
/// are made as those of the first part lead to them, from the words' beginnings on or from their ends on, whichever
/// ends first where both are tried with more and more states; and where few places of either product show that there is no
/// such word, nothing more is made.
///
/// Takes at most eight times the states of the smaller product where that is within a quarter of the limit, and else below
/// three times the limit.
#[inline(never)]
pub fn only_first(alloc: Global, parts: &[Explicit], limit: u64) -> Result<Explicit, BuildFault>
    requires { HaveNoRegisters parts.now }
    ensures { Builds (InFirstOnly WordsOf parts.now) (from_left without_size (map states_of parts.now)) limit result }
{
    let most = most_tried(parts, limit);
    if most <= FIRST_TRY {
        return difference(alloc, parts, limit);
    }
    if let Some(machine) = from_start(alloc, parts, FIRST_TRY)? {
        return Ok(machine);
    }
    let turned = reversed_all(alloc, parts)?;
    let list = turned.as_slice();
    if let Some(machine) = from_places(alloc, parts, list, most)? {
        return Ok(machine);
    }
    if let Some(machine) = by_tries(alloc, parts, list, most)? {
        return Ok(machine);
    }
    match difference(alloc, parts, limit) {
        Ok(machine) => Ok(machine),
        Err(BuildFault::Memory(e)) => Err(BuildFault::Memory(e)),
        Err(BuildFault::States(n)) => match from_end(alloc, parts, list, most)? {
            Some(machine) => Ok(machine),
            None => Err(BuildFault::States(n)),
        },
    }
}
