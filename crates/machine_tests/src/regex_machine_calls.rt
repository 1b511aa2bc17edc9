ghost use Rattle.std.specs.Prelude.{◌≡◌, IfOk};

use crate::subset_machine_calls::machine_of_many_lists;
use crate::trim_search_calls::{has_shortest, two_letters};
use machine_core::Explicit;
use regex_machine::{build, complement, least, only_first, reversed};
use std::alloc::{AllocError, Global};
use sv_list::{Boxed, Items};
use sv_terms::Regex;
use sv_word::Word;
use trim_search::{BuildFault, shortest};

fn reads_backward(alloc: Global) -> Result<bool, BuildFault> {
    let machine = two_letters(alloc)?;
    let back = reversed(alloc, &machine)?;
    Ok(has_shortest(alloc, &back, &[0x62, 0x61])?)
}

#[test]
fn a_reversal_reads_from_the_end(rt: HostRuntime) -> Result<(), BuildFault> {
    assert!(rt; reads_backward(rt.alloc())?);
    Ok(())
}

// Of these words there are 2^20 sets of states, and few from their ends on.
fn others_are_few(alloc: Global) -> Result<bool, BuildFault> {
    let machine = machine_of_many_lists(alloc)?;
    let others = complement(alloc, &machine, 100)?;
    Ok(has_shortest(alloc, &others, &[])?)
}

#[test]
fn a_complement_from_the_end(rt: HostRuntime) -> Result<(), BuildFault> {
    assert!(rt; others_are_few(rt.alloc())?);
    Ok(())
}

fn nothing_is_in_itself_alone(alloc: Global) -> Result<bool, BuildFault> {
    let first = machine_of_many_lists(alloc)?;
    let second = machine_of_many_lists(alloc)?;
    let left = only_first(alloc, &[first, second], 1_000)?;
    Ok(shortest(alloc, &left)?.is_none())
}

#[test]
fn a_difference_from_the_end(rt: HostRuntime) -> Result<(), BuildFault> {
    assert!(rt; nothing_is_in_itself_alone(rt.alloc())?);
    Ok(())
}

// An `a`, twenty letters and a `b`, with any letters around them where `within`.
fn far_apart(alloc: Global, within: bool) -> Result<Regex, AllocError> {
    let mut parts = Items::new(alloc);
    if within {
        parts.push(Regex::Star(Boxed::new(alloc, Regex::Range(0x61, 0x62))?))?;
    }
    parts.push(Regex::Range(0x61, 0x61))?;
    parts.push(Regex::Loop(Boxed::new(alloc, Regex::Range(0x61, 0x62))?, 20, 20))?;
    parts.push(Regex::Range(0x62, 0x62))?;
    if within {
        parts.push(Regex::Star(Boxed::new(alloc, Regex::Range(0x61, 0x62))?))?;
    }
    Ok(Regex::Concat(parts))
}

fn machine_far_apart(alloc: Global, within: bool) -> Result<Explicit, BuildFault>
    ensures { IfOk result (λ m. m.registers ≡ 0) }
{
    let regex = far_apart(alloc, within)?;
    build(alloc, &regex, 100)
}

// From neither end a product has few states; few of its places stand for all.
fn nothing_is_outside(alloc: Global) -> Result<bool, BuildFault> {
    let alone = machine_far_apart(alloc, false)?;
    let within = machine_far_apart(alloc, true)?;
    let left = only_first(alloc, &[alone, within], 1_000)?;
    Ok(shortest(alloc, &left)?.is_none())
}

#[test]
fn a_difference_by_few_places(rt: HostRuntime) -> Result<(), BuildFault> {
    assert!(rt; nothing_is_outside(rt.alloc())?);
    Ok(())
}

// `a` or `aa`, once or more: two states tell these words.
fn letters_in_two_ways(alloc: Global) -> Result<Regex, AllocError> {
    let mut one = Word::new(alloc);
    one.push(0x61)?;
    let mut two = one.copy(alloc)?;
    two.push(0x61)?;
    let mut ways = Items::new(alloc);
    ways.push(Regex::Text(one))?;
    ways.push(Regex::Text(two))?;
    Ok(Regex::Plus(Boxed::new(alloc, Regex::Union(ways))?))
}

fn fewest_states(alloc: Global) -> Result<Option<u32>, BuildFault> {
    let regex = letters_in_two_ways(alloc)?;
    let machine = build(alloc, &regex, 100)?;
    Ok(least(alloc, &machine)?.map(|fewest| fewest.states()))
}

#[test]
fn a_least_machine_has_the_fewest_states(rt: HostRuntime) -> Result<(), BuildFault> {
    assert!(rt; fewest_states(rt.alloc())? == Some(2));
    Ok(())
}
