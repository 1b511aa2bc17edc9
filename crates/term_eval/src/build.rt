//! Regular expressions made of others, with unions and intersections flat, in order and without
//! repeats, so that few of them differ.
//!
//! What isn't needed is given to `drop`: at the end of its scope it would be dropped in place, with
//! a branch for each form.
ghost use Rattle.std.specs.Prelude.{◌≡◌, ◌≤◌, [], ◌∷◌, IfOk, IsTrue, OnOk, length};
ghost use Rattle.term_eval.specs.Derivative.{SameWords};
ghost use Rattle.sv_terms.specs.declared.regex.Regex.TheVariants.{Comp, Concat, Diff, Empty, Inter, Loop, All, Star, Text, Union};

use crate::ordered::order;
use std::alloc::{AllocError, Global};
use std::cmp::Ordering;
use sv_list::{Boxed, Items};
use sv_terms::{Regex, membership_is_decided};
use sv_word::Word;

pub(crate) fn empty_word(alloc: Global) -> Regex
    ensures { result ≡ Text [] }
{
    Regex::Text(Word::new(alloc))
}

fn is_none(r: &Regex) -> bool
    ensures { IsTrue result → r.now ≡ Empty }
{
    match r {
        Regex::Empty => true,
        _ => false,
    }
}

fn is_all(r: &Regex) -> bool
    ensures { IsTrue result → r.now ≡ All }
{
    match r {
        Regex::All => true,
        _ => false,
    }
}

fn is_empty_word(r: &Regex) -> bool
    ensures { IsTrue result → r.now ≡ Text [] }
{
    match r {
        Regex::Text(text) => text.len() == 0,
        _ => false,
    }
}

/// A word of the first and then one of the second.
#[tactic(auto, using(crate::proofs::Builds::thens))]
pub(crate) fn then(alloc: Global, first: Regex, rest: Regex) -> Result<Regex, AllocError>
    ensures { IfOk result (λ d. SameWords d (Concat (first ∷ rest ∷ []))) }
{
    if is_none(&first) {
        drop((first, rest));
        return Ok(Regex::Empty);
    }
    if is_none(&rest) {
        drop((first, rest));
        return Ok(Regex::Empty);
    }
    if is_empty_word(&first) {
        drop(first);
        return Ok(rest);
    }
    if is_empty_word(&rest) {
        drop(rest);
        return Ok(first);
    }
    join(alloc, first, rest)
}

/// A word of the first and then any number of words of `r`.
#[tactic(auto, using(crate::proofs::Builds::thens))]
pub(crate) fn then_any(alloc: Global, first: Regex, r: &Regex) -> Result<Regex, AllocError>
    ensures { IfOk result (λ d. SameWords d (Concat (first ∷ Star r.now ∷ []))) }
{
    let rest = star(alloc, r)?;
    then(alloc, first, rest)
}

/// A word of the first and then from `i` to `j` words of `r`.
#[tactic(auto, using(crate::proofs::Builds::behinds))]
pub(crate) fn then_times(
    alloc: Global,
    first: Regex,
    r: &Regex,
    i: u32,
    j: u32,
) -> Result<Regex, AllocError>
    ensures { IfOk result (λ d. SameWords d (Concat (first ∷ Loop r.now i j ∷ []))) }
{
    let rest = times(alloc, r, i, j)?;
    then(alloc, first, rest)
}

fn star(alloc: Global, r: &Regex) -> Result<Regex, AllocError>
    ensures { IfOk result (λ d. d ≡ Star r.now) }
{
    Ok(Regex::Star(Boxed::new(alloc, r.copy(alloc)?)?))
}

// The parts of the first and then those of the second.
#[tactic(auto, using(crate::proofs::Builds::thens))]
fn join(alloc: Global, first: Regex, rest: Regex) -> Result<Regex, AllocError>
    ensures { IfOk result (λ d. SameWords d (Concat (first ∷ rest ∷ []))) }
{
    let mut all = in_turn(alloc, first)?;
    all.append(in_turn(alloc, rest)?)?;
    Ok(Regex::Concat(all))
}

#[tactic(auto, using(crate::proofs::Builds::thens))]
fn in_turn(alloc: Global, r: Regex) -> Result<Items<Regex>, AllocError>
    ensures { IfOk result (λ rs. SameWords (Concat rs) r) }
{
    match r {
        Regex::Concat(rs) => Ok(rs),
        r => {
            let mut rs = Items::new(alloc);
            rs.push(r)?;
            Ok(rs)
        }
    }
}

fn place(parts: &[Regex], r: &Regex) -> usize
    ensures { result ≤ length parts.now }
{
    parts.partition_point(|part: &Regex| -> bool { order(part, r) == Ordering::Less })
}

/// One more part of a union.
#[tactic(auto, using(crate::proofs::Builds::unions))]
fn insert_part(parts: &mut Items<Regex>, r: Regex) -> Result<(), AllocError>
    ensures { OnOk result (SameWords (Union parts.new) (Union (r ∷ parts.old))) }
{
    let at = place(parts.as_slice(), &r);
    if at < parts.len() && parts.as_slice()[at].same(&r) {
        drop(r);
        return Ok(());
    }
    parts.insert(at, r)
}

#[tactic(auto, using(crate::proofs::Builds::unions))]
pub(crate) fn add_part(parts: &mut Items<Regex>, r: Regex) -> Result<(), AllocError>
    ensures { OnOk result (SameWords (Union parts.new) (Union (r ∷ parts.old))) }
{
    match r {
        Regex::Empty => Ok(()),
        Regex::Union(more) => add_parts(parts, more),
        r => insert_part(parts, r),
    }
}

#[tactic(auto, using(crate::proofs::Builds::unions))]
fn add_parts(parts: &mut Items<Regex>, mut more: Items<Regex>) -> Result<(), AllocError>
    ensures { OnOk result (SameWords (Union parts.new) (Union (Union more ∷ parts.old))) }
{
    if parts.is_empty() {
        return parts.append(more);
    }
    while let Some(r) = more.pop() {
        insert_part(parts, r)?;
    }
    Ok(())
}

#[tactic(auto, using(crate::proofs::Builds::unions))]
pub(crate) fn one_of(mut parts: Items<Regex>) -> Regex
    ensures { SameWords result (Union parts) }
{
    for part in parts.as_slice() {
        if is_all(part) {
            return Regex::All;
        }
    }
    if parts.len() == 1 {
        match parts.pop() {
            Some(r) => return r,
            None => return Regex::Empty,
        }
    }
    if parts.is_empty() {
        return Regex::Empty;
    }
    Regex::Union(parts)
}

/// One more part of an intersection.
#[tactic(auto, using(crate::proofs::Builds::inters))]
fn insert_need(parts: &mut Items<Regex>, r: Regex) -> Result<(), AllocError>
    ensures { OnOk result (SameWords (Inter parts.new) (Inter (r ∷ parts.old))) }
{
    let at = place(parts.as_slice(), &r);
    if at < parts.len() && parts.as_slice()[at].same(&r) {
        drop(r);
        return Ok(());
    }
    parts.insert(at, r)
}

#[tactic(auto, using(crate::proofs::Builds::inters))]
pub(crate) fn add_need(parts: &mut Items<Regex>, r: Regex) -> Result<(), AllocError>
    ensures { OnOk result (SameWords (Inter parts.new) (Inter (r ∷ parts.old))) }
{
    match r {
        Regex::All => Ok(()),
        Regex::Inter(more) => add_needs(parts, more),
        r => insert_need(parts, r),
    }
}

#[tactic(auto, using(crate::proofs::Builds::inters))]
fn add_needs(parts: &mut Items<Regex>, mut more: Items<Regex>) -> Result<(), AllocError>
    ensures { OnOk result (SameWords (Inter parts.new) (Inter (Inter more ∷ parts.old))) }
{
    while let Some(r) = more.pop() {
        insert_need(parts, r)?;
    }
    Ok(())
}

#[tactic(auto, using(crate::proofs::Builds::inters))]
pub(crate) fn all_of(mut parts: Items<Regex>) -> Regex
    ensures { SameWords result (Inter parts) }
{
    for part in parts.as_slice() {
        if is_none(part) {
            return Regex::Empty;
        }
    }
    if parts.len() == 1 {
        match parts.pop() {
            Some(r) => return r,
            None => return Regex::All,
        }
    }
    if parts.is_empty() {
        return Regex::All;
    }
    Regex::Inter(parts)
}

#[tactic(auto, using(crate::proofs::Builds::others))]
pub(crate) fn minus(alloc: Global, a: Regex, b: Regex) -> Result<Regex, AllocError>
    ensures { IfOk result (λ d. SameWords d (Diff (a ∷ b ∷ []))) }
{
    if is_none(&a) {
        drop((a, b));
        return Ok(Regex::Empty);
    }
    if is_none(&b) {
        drop(b);
        return Ok(a);
    }
    let parts = Vec::from_array(alloc, [a, b])?;
    Ok(Regex::Diff(Items::from_vec(parts)))
}

#[tactic(auto, using(crate::proofs::Builds::others))]
pub(crate) fn complement(alloc: Global, r: Regex) -> Result<Regex, AllocError>
    ensures { IfOk result (λ d. SameWords d (Comp r)) }
{
    match r {
        Regex::Empty => Ok(Regex::All),
        Regex::All => Ok(Regex::Empty),
        Regex::Comp(r) => {
            membership_is_decided();
            Ok(r.into_inner())
        }
        r => Ok(Regex::Comp(Boxed::new(alloc, r)?)),
    }
}

// From `i` to `j` words of `r`, which is copied only where it is needed.
#[tactic(auto, using(crate::proofs::Builds::others))]
fn times(alloc: Global, r: &Regex, i: u32, j: u32) -> Result<Regex, AllocError>
    ensures { IfOk result (λ d. SameWords d (Loop r.now i j)) }
{
    if j < i {
        return Ok(Regex::Empty);
    }
    if j == 0 {
        return Ok(empty_word(alloc));
    }
    let part = r.copy(alloc)?;
    if i == 1 && j == 1 {
        return Ok(part);
    }
    Ok(Regex::Loop(Boxed::new(alloc, part)?, i, j))
}
