//! Places of regular expressions whose machines are shared, and a meeting of parts, explored as far as one leads.

use flat_cubes::Own;
use lang_pool::PoolValue;
use machine_core::Cost;
use part_machines::{Machines, digest, digest_of_others, own_machine};
use std::alloc::{AllocError, Global};
use sv_list::{Boxed, Items};
use sv_terms::Regex;
use trim_search::BuildFault;

// Whether the machine of the expression is kept.
fn is_kept(alloc: Global, kept: &Machines, expression: &Regex) -> Result<bool, BuildFault> {
    let found = kept.find_or_build(alloc, expression)?;
    Ok(matches!(found, PoolValue::Shared(_)))
}

fn digests_of(alloc: Global, expressions: &[Regex]) -> Result<Vec<u64>, AllocError> {
    let mut digests = Vec::new(alloc);
    for expression in expressions {
        digests.push(digest(expression))?;
    }
    Ok(digests)
}

fn keep_for(alloc: Global, expressions: &[Regex]) -> Result<Machines, AllocError> {
    let digests = digests_of(alloc, expressions)?;
    Machines::new(alloc, digests)
}

// An expression is kept though others were before it: its place is its own. One without a place isn't kept.
#[test]
fn each_expression_has_one_place(rt: HostRuntime) -> Result<(), BuildFault> {
    let expressions = [Regex::All, Regex::Empty, Regex::All];
    let kept = keep_for(rt.alloc(), &expressions)?;
    assert!(rt; is_kept(rt.alloc(), &kept, &Regex::All)?);
    assert!(rt; is_kept(rt.alloc(), &kept, &Regex::Empty)?);
    assert!(rt; !is_kept(rt.alloc(), &kept, &Regex::AnyChar)?);
    Ok(())
}

// The digest of what isn't one character.
fn others_digest(alloc: Global) -> Result<u64, AllocError> {
    let others = Regex::Comp(Boxed::new(alloc, Regex::AnyChar)?);
    Ok(digest(&others))
}

// The complement of an expression has the place that its own digest has.
#[test]
fn complements_have_their_place(rt: HostRuntime) -> Result<(), AllocError> {
    assert!(rt; digest_of_others(&Regex::AnyChar) == others_digest(rt.alloc())?);
    Ok(())
}

// The words whose last character but 20 is `a`: a complete machine of sets has 2^21 states.
fn a_before_twenty(alloc: Global) -> Result<Regex, AllocError> {
    let twenty = Regex::Loop(Boxed::new(alloc, Regex::AnyChar)?, 20, 20);
    let mut parts = Items::new(alloc);
    parts.push(Regex::All)?;
    parts.push(Regex::Range(97, 97))?;
    parts.push(twenty)?;
    Ok(Regex::Concat(parts))
}

// A digit, which may not be one of these.
fn parts_of_digit(alloc: Global) -> Result<Items<(Own, bool)>, AllocError> {
    let mut parts = Items::new(alloc);
    parts.push((Own::InRe(a_before_twenty(alloc)?), false))?;
    parts.push((Own::Digit, true))?;
    Ok(parts)
}

fn states_of_digit(alloc: Global) -> Result<u32, BuildFault> {
    let parts = parts_of_digit(alloc)?;
    let kept = Machines::new(alloc, Vec::new(alloc))?;
    let machine = own_machine(alloc, parts.as_slice(), &Cost::new(alloc), &kept)?;
    Ok(machine.states())
}

// A word that may not be in an expression takes the sets that it leads to alone.
#[test]
fn others_are_met_as_far_as_a_digit_leads(rt: HostRuntime) -> Result<(), BuildFault> {
    assert!(rt; states_of_digit(rt.alloc())? <= 3);
    Ok(())
}
