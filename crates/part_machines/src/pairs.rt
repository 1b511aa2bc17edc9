//! Machines met in pairs ahead of the product of all.
ghost use Rattle.std.specs.Prelude.{◌≡◌, ◌+◌, ◌≤◌, ◌<◌, drop, length, take, IfOk, IfSome};
ghost use Rattle.regex_machine.specs.Joined.{HaveNoRegisters};
ghost use Rattle.part_machines.specs.Pairs.{AreMet, IsMet};

use crate::part::MOST_STATES;
use machine_core::Explicit;
use regex_machine::all_of;
use std::alloc::{AllocError, Global};
use sv_list::{Copied, Items};
use trim_search::BuildFault;

// So few machines are left to the product of all.
const FEW_MACHINES: usize = 4;

// Two machines are met ahead of the others where that reaches at most so many times the states that they have together.
const TURN_GROWTH: u64 = 16;

// The machine of the words of both machines from this place on. None where there are no two, or where it takes more
// than so many times the states that they have together.
fn meet_two(
    alloc: Global,
    machines: &[Explicit],
    at: usize,
    times: u64,
) -> Result<Option<Explicit>, AllocError>
    requires plain { HaveNoRegisters machines.now }
    requires at { at < length machines.now }
    ensures { IfOk result (λ o. IfSome o (λ m. (at + 2 ≤ length machines.now) × IsMet (take 2 (drop at machines.now)) m)) }
{
    if machines.len() - at < 2 {
        return Ok(None);
    }
    let together = u64::from(machines[at].states()) + u64::from(machines[at + 1].states());
    let limit = together.saturating_mul(times);
    match all_of(alloc, &machines[at..at + 2], limit.min(MOST_STATES)) {
        Ok(both) => Ok(Some(both)),
        Err(BuildFault::States(_)) => Ok(None),
        Err(BuildFault::Memory(e)) => Err(e),
    }
}

// Machines of the same words together: each is met with the next one, where that takes few states.
fn meet_neighbours(alloc: Global, machines: &[Explicit]) -> Result<Items<Explicit>, AllocError>
    requires { HaveNoRegisters machines.now }
    ensures { IfOk result (AreMet machines.now) }
{
    let mut met = Items::new(alloc);
    let mut at = 0;
    while at < machines.len() {
        match meet_two(alloc, machines, at, 1)? {
            Some(both) => {
                met.push(both)?;
                at += 2;
            }
            None => {
                met.push(machines[at].copy(alloc)?)?;
                at += 1;
            }
        }
    }
    Ok(met)
}

/// Machines that read the same words together, fewer where there are many: pairs of neighbours are met as long as that
/// takes few states and makes them fewer by a quarter. A state of a product has a state of each machine, so that of
/// many machines, such as those of the words that a variable isn't, it would take time and memory in the square of
/// their number.
pub fn meet_pairs(alloc: Global, machines: Items<Explicit>) -> Result<Items<Explicit>, AllocError>
    requires { HaveNoRegisters machines }
    ensures { IfOk result (AreMet machines) }
{
    let mut met = machines;
    'rounds: while met.len() > FEW_MACHINES {
        let count = met.len();
        met = meet_neighbours(alloc, met.as_slice())?;
        if met.len() >= count - count / 4 {
            return Ok(met);
        }
    }
    Ok(met)
}

// The machines with this one in place of the last two, which reads what both read.
fn replace_last(
    machines: Items<Explicit>,
    at: usize,
    both: Explicit,
) -> Result<Items<Explicit>, AllocError>
    requires plain { HaveNoRegisters machines }
    requires at { at + 2 ≡ length machines }
    requires met { IsMet (take 2 (drop at machines)) both }
    ensures met { IfOk result (AreMet machines) }
    ensures fewer { IfOk result (λ met. length met < length machines) }
{
    let mut met = machines;
    met.truncate(at);
    met.push(both)?;
    Ok(met)
}

/// Machines that read the same words together, fewer of them: the last one is met with the one before it, and what comes
/// of that with the one before, as long as that reaches few states. What leads to no end is left out between two such
/// products; in one product of all it is only left out at the end.
pub fn meet_in_turn(alloc: Global, machines: Items<Explicit>) -> Result<Items<Explicit>, AllocError>
    requires { HaveNoRegisters machines }
    ensures { IfOk result (AreMet machines) }
{
    let mut met = machines;
    'turns: while met.len() > 1 {
        let at = met.len() - 2;
        match meet_two(alloc, met.as_slice(), at, TURN_GROWTH)? {
            Some(both) => met = replace_last(met, at, both)?,
            None => return Ok(met),
        }
    }
    Ok(met)
}
