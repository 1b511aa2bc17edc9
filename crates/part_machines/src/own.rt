//! The machine of all parts of a variable.
ghost use Rattle.std.specs.Prelude.{◌≡◌, ℕ, ◌<◌, ◌∷◌, false, map, Err, IfOk, IfSome, OnOk};
ghost use Rattle.regex_machine.specs.Built.{Builds};
ghost use Rattle.regex_machine.specs.Joined.{HaveNoRegisters, WordsOf};
ghost use Rattle.regex_machine.specs.Kinds.{states_of};
ghost use Rattle.sv_terms.specs.Bounds.{from_left, without_size};
ghost use Rattle.sv_terms.specs.Language.{InFirstOnly};
ghost use Rattle.cube_bounds.specs.Bounds.{part_bound, product_by};
ghost use Rattle.flat_cubes.specs.declared.variable.Own.TheVariants.{InRe};
ghost use Rattle.trim_search.specs.declared.build_fault.BuildFault.TheVariants.{States};
ghost use Rattle.part_machines.specs.Pairs.{AreMet};
ghost use Rattle.part_machines.specs.Parts.{IsOfParts, ReadsParts};
ghost use Rattle.part_machines.specs.Sides.{AddsSide, AreSides, ReadsOthers};

use crate::machines::Machines;
use crate::pairs::{meet_in_turn, meet_pairs};
use crate::part::{MOST_STATES, least_machine, machine_to_meet, part_machine};
use crate::pricing::price;
use flat_cubes::Own;
use machine_core::{Cost, Explicit};
use regex_machine::{all_of, complement, only_first};
use std::alloc::{AllocError, Global};
use sv_list::Items;
use sv_terms::Regex;
use trim_search::BuildFault;

// A complement is made ahead of the product where it takes at most so many times the states of what it is of.
const COMPLEMENT_GROWTH: u64 = 4;

// The machines of some parts: one for each part that is met as it stands, and for each other expression that no word
// may be in that of the expression.
#[derive(Drop)]
struct PartSides {
    within: Items<Explicit>,
    outside: Items<Explicit>,
}

// Whether a part is a word that is to be: then a product reaches few states, and nothing is made ahead of it.
fn is_word(part: &(Own, bool)) -> bool {
    part.1 && matches!(part.0, Own::Word(_))
}

// The expression that no word may be in, if the part is of that kind.
fn barred_regex(part: &(Own, bool)) -> Option<&Regex>
    ensures { IfSome result (λ regex. part.now ≡ (InRe regex.now, false)) }
{
    if part.1 {
        return None;
    }
    match &part.0 {
        Own::InRe(regex) => Some(regex),
        _ => None,
    }
}

// The words that the machine doesn't read, where that is asked for and doesn't take many states. Unlike the sets of
// states of which it is made it has no state that leads to no end, of which a product of many would have one for each
// choice.
fn complement_of(
    alloc: Global,
    machine: &Explicit,
    ahead: bool,
) -> Result<Option<Explicit>, AllocError>
    requires { machine.now.registers ≡ 0 }
    ensures { IfOk result (λ o. IfSome o (ReadsOthers machine.now)) }
{
    if !ahead {
        return Ok(None);
    }
    let limit = u64::from(machine.states()) * COMPLEMENT_GROWTH;
    match complement(alloc, machine, limit.min(MOST_STATES)) {
        Ok(others) => Ok(Some(others)),
        Err(BuildFault::States(_)) => Ok(None),
        Err(BuildFault::Memory(e)) => Err(e),
    }
}

// Whether complements are made ahead of the product: where several expressions bar words, and none of the parts is a
// word that is to be.
fn makes_complements(parts: &[(Own, bool)]) -> bool {
    let barred = parts
        .iter()
        .filter(|part| barred_regex(part).is_some())
        .count();
    barred > 1 && !parts.iter().any(is_word)
}

// One part more, with its complement where these are made ahead.
fn add_side(
    alloc: Global,
    within: &mut Items<Explicit>,
    outside: &mut Items<Explicit>,
    part: &(Own, bool),
    kept: &Machines,
    ahead: bool,
) -> Result<(), BuildFault>
    ensures added { OnOk result (AddsSide part.now within.old within.new outside.old outside.new) }
    ensures refused { (n : ℕ) → result ≡ Err (States n) → MOST_STATES < part_bound part.now }
{
    if let Some(regex) = barred_regex(part) {
        let machine = least_machine(alloc, regex, kept)?;
        match complement_of(alloc, &machine, ahead)? {
            Some(others) => within.push(others)?,
            None => outside.push(machine)?,
        }
        return Ok(());
    }
    let machine = machine_to_meet(alloc, part, kept)?;
    within.push(machine)?;
    Ok(())
}

// The machines of all parts.
fn sides_of(alloc: Global, parts: &[(Own, bool)], kept: &Machines) -> Result<PartSides, BuildFault>
    ensures sides { IfOk result (λ sides. AreSides parts.now sides.within sides.outside) }
    ensures refused { (n : ℕ) → result ≡ Err (States n) → MOST_STATES < product_by part_bound parts.now }
{
    let mut within = Items::new(alloc);
    let mut outside = Items::new(alloc);
    let ahead = makes_complements(parts);
    for part in parts {
        add_side(alloc, &mut within, &mut outside, part, kept, ahead)?;
    }
    Ok(PartSides { within, outside })
}

// The words of the machine that none of the others reads: their subsets are made as they are met with its states.
fn exclude(
    alloc: Global,
    machine: Explicit,
    others: Items<Explicit>,
) -> Result<Explicit, BuildFault>
    requires plain { machine.registers ≡ 0 }
    requires others { HaveNoRegisters others }
    ensures { Builds (InFirstOnly WordsOf (machine ∷ others)) (from_left without_size (map states_of (machine ∷ others))) MOST_STATES result }
{
    let mut all = Items::new(alloc);
    all.push(machine)?;
    all.append(others)?;
    only_first(alloc, all.as_slice(), MOST_STATES)
}

// Machines that read the same words together, met in pairs and in turn unless a part is a word that is to be.
fn meet_ahead(
    alloc: Global,
    parts: &[(Own, bool)],
    machines: Items<Explicit>,
) -> Result<Items<Explicit>, AllocError>
    requires { HaveNoRegisters machines }
    ensures { IfOk result (AreMet machines) }
{
    if parts.iter().any(is_word) {
        return Ok(machines);
    }
    let few = meet_pairs(alloc, machines)?;
    meet_in_turn(alloc, few)
}

// The words that meet all parts.
fn joint_machine(
    alloc: Global,
    parts: &[(Own, bool)],
    kept: &Machines,
) -> Result<Explicit, BuildFault>
    ensures machine { IfOk result (ReadsParts parts.now) }
    ensures refused { (n : ℕ) → result ≡ Err (States n) → MOST_STATES < product_by part_bound parts.now }
{
    if parts.len() == 1 {
        return part_machine(alloc, &parts[0], kept);
    }
    let PartSides { within, outside } = sides_of(alloc, parts, kept)?;
    let few = meet_ahead(alloc, parts, within)?;
    let met = all_of(alloc, few.as_slice(), MOST_STATES)?;
    if outside.is_empty() {
        return Ok(met);
    }
    exclude(alloc, met, outside)
}

/// The machine of a variable's own parts: it reads exactly the words that meet all of them, each character
/// at the cost `each`, which has a number for each register. It has at most as many states as the parts'
/// bounds make multiplied.
///
/// `States` comes only where that is above [`MOST_STATES`](crate::MOST_STATES), and not always then: what isn't
/// reached takes no state.
///
/// A single part takes no product. An expression that no word may be in has its own complement where it is the single
/// part, or one of several such whose complement has few states, and is else met with the other parts by the subset
/// construction as far as these lead, from the words' beginnings or from their ends on. Where a part is a word that is to
/// be, a product reaches few states, and neither complements nor pairs are made ahead of it. Machines of regular expressions are asked of `kept`.
pub fn own_machine(
    alloc: Global,
    parts: &[(Own, bool)],
    each: &Cost,
    kept: &Machines,
) -> Result<Explicit, BuildFault>
    ensures machine { IfOk result (IsOfParts parts.now each.now) }
    ensures refused { (n : ℕ) → result ≡ Err (States n) → MOST_STATES < product_by part_bound parts.now }
{
    let machine = joint_machine(alloc, parts, kept)?;
    Ok(price(alloc, &machine, each)?)
}
