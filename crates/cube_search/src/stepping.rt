//! The definitions of a flat cube, one at a time, on the way to its leaves.
ghost use Rattle.std.specs.Prelude.{◌≡◌, ℕ, ◌+◌, ◌<◌, ◌^◌, [], Ok, Err, None, Some, IfOk, IfSome, MatchOption, Option, length, slice_get};
ghost use Rattle.machine_core.specs.declared.graph.Graph.{Graph};
ghost use Rattle.trim_search.specs.declared.build_fault.BuildFault.TheVariants.{States};
ghost use Rattle.flat_cubes.specs.Straight.{IsStraight};
ghost use Rattle.flat_cubes.specs.declared.definition.Definition.{Definition as AnyDefinition};
ghost use Rattle.backward.specs.Families.{HasMachine};
ghost use Rattle.backward.specs.States.{IsState};
ghost use Rattle.backward.specs.Steps.{CanPassAt, IsMadeAt};
ghost use Rattle.backward.specs.Ways.{AreLive, AreNext};
ghost use Rattle.cube_search.specs.Searches.{AreFoundRuns, IsSearch};
ghost use Rattle.flat_cubes.specs.Using.{used};
ghost use Rattle.cube_search.specs.Conflicts.{HasOwnNamed, IsTakenBack, NamesOwn};
ghost use Rattle.cube_search.specs.declared.below.Below.{Below as AnyBelow};
ghost use Rattle.cube_search.specs.declared.below.Below.TheVariants.{Found};
ghost use Rattle.cube_search.specs.declared.found.FoundRuns.{FoundRuns as AnyFound};
ghost use Rattle.cube_search.specs.Steps.{AreExact, CanStep, IsCutting, IsNextFamily};

use crate::below::Below;
use crate::found::FoundRuns;
use crate::names::{add_name, names_any};
use crate::searching::Search;
use backward::{
    LeafState, cuts_are_exact, lift_step, live_cuts, lookup_effort, next_can_be_carried, next_cuts,
    step_concat, step_through,
};
use flat_cubes::{By, Definition, Flat};
use std::alloc::{AllocError, Global};
use sv_list::Items;
use trim_search::BuildFault;

// The definition at this place, which there is.
fn definition_at(flat: &Flat, at: u32) -> &Definition
    requires { at < length flat.now.definitions }
    ensures { slice_get flat.now.definitions at ≡ Some result.now }
{
    &flat.definitions.as_slice()[at as usize]
}

/// The pieces of the definition at this place, the last that is left of the family; none where it is
/// no concatenation. It can be carried.
pub fn pieces_at<'a>(search: &Search<'a>, state: &LeafState, at: u32) -> Option<&'a [u32]>
    requires search { IsSearch search.now }
    requires at { at < length search.now.flat.now.definitions }
    requires state { IsState search.now.flat.now (at + 1) state.now }
    ensures step { MatchOption result (CanPassAt search.now.flat.now at state.now.machines) (λ pieces. IsCutting search.now.flat.now at pieces.now state.now.machines []) }
    ensures exact { AreExact state.now.registers state.now.machines }
{
    next_can_be_carried(state);
    cuts_are_exact(state);
    let definition = definition_at(search.flat, at);
    match &definition.by {
        By::Concat(pieces) => Some(pieces.as_slice()),
        _ => None,
    }
}

/// A row of marks for each piece of the concatenation at this place, as [`live_cuts`] says. What that takes is added to
/// `spent`.
pub fn live_at(
    alloc: Global,
    flat: &Flat,
    state: &LeafState,
    at: u32,
    pieces: &[u32],
    spent: &mut u64,
) -> Result<Items<Items<bool>>, AllocError>
    requires at { at < length flat.now.definitions }
    requires cutting { IsCutting flat.now at pieces.now state.now.machines [] }
    ensures { IfOk result (λ live. (d : AnyDefinition) (m : Graph) → slice_get flat.now.definitions at ≡ Some d → HasMachine state.now.machines d.variable m → AreLive state.now.machines m pieces.now live) }
{
    let definition = definition_at(flat, at);
    for piece in pieces {
        add_lookup(state, definition.variable, *piece, spent);
    }
    live_cuts(alloc, state, definition.variable, pieces)
}

// Adds what a look-up of this piece of `x` takes.
fn add_lookup(state: &LeafState, x: u32, piece: u32, spent: &mut u64) {
    *spent = spent.saturating_add(lookup_effort(state, x, piece));
}

/// Marks of the states in which the next cut of the concatenation at this place may lie, as [`next_cuts`] says. What
/// that takes is added to `spent`.
pub fn next_at(
    alloc: Global,
    flat: &Flat,
    state: &LeafState,
    at: u32,
    pieces: &[u32],
    cuts: &[u32],
    spent: &mut u64,
) -> Result<Items<bool>, AllocError>
    requires at { at < length flat.now.definitions }
    requires cutting { IsCutting flat.now at pieces.now state.now.machines cuts.now }
    ensures { IfOk result (λ next. (d : AnyDefinition) (m : Graph) → slice_get flat.now.definitions at ≡ Some d → HasMachine state.now.machines d.variable m → AreNext state.now.machines m pieces.now cuts.now next) }
{
    let definition = definition_at(flat, at);
    if let Some(piece) = pieces.get(cuts.len()) {
        add_lookup(state, definition.variable, *piece, spent);
    }
    next_cuts(alloc, state, definition.variable, pieces, cuts)
}

/// The number of states of the machine of the variable that is defined at this place.
pub fn states_at(flat: &Flat, state: &LeafState, at: u32) -> u32
    requires at { at < length flat.now.definitions }
    requires machine { (d : AnyDefinition) → slice_get flat.now.definitions at ≡ Some d → (m : Graph) × HasMachine state.now.machines d.variable m }
    ensures { (d : AnyDefinition) (m : Graph) → slice_get flat.now.definitions at ≡ Some d → HasMachine state.now.machines d.variable m → result ≡ m.states }
{
    let definition = definition_at(flat, at);
    match &state.machines.as_slice()[definition.variable as usize] {
        Some(machine) => machine.get().states(),
        None => 0,
    }
}

/// The family with the definition at this place carried, at these cuts where it is a concatenation. `States`
/// comes where a machine on the way has more than `limit` states.
pub fn step(
    alloc: Global,
    flat: &Flat,
    state: &LeafState,
    at: u32,
    cuts: &[u32],
    limit: u64,
) -> Result<LeafState, BuildFault>
    requires { CanStep flat.now at state.now.machines cuts.now }
    ensures next { IfOk result (IsNextFamily flat.now at cuts.now state.now) }
    ensures state { IfOk result (λ s. IsStraight flat.now → IsState flat.now (at + 1) state.now → IsState flat.now at s) }
    ensures refused { (n : ℕ) → result ≡ Err (States n) → limit < 2 ^ 32 }
{
    let definition = definition_at(flat, at);
    match &definition.by {
        By::Concat(_) => {
            let next = step_concat(alloc, flat, state, at, cuts, limit)?;
            Ok(next)
        }
        _ => {
            let next = step_through(alloc, flat, state, at, limit)?;
            Ok(next)
        }
    }
}

/// What is below the family after a step, in the one before it: runs are taken back. The family after the step goes.
#[inline(never)]
pub fn leave(
    alloc: Global,
    flat: &Flat,
    before: &LeafState,
    at: u32,
    cuts: &[u32],
    after: LeafState,
    below: Result<Below, BuildFault>,
) -> Result<Below, BuildFault>
    requires straight { IsStraight flat.now }
    requires at { at < length flat.now.definitions }
    requires made { IsMadeAt flat.now at cuts.now before.now.machines after }
    requires found { (f : AnyFound) → below ≡ Ok (Found f) → AreFoundRuns flat.now at after.machines f }
    ensures back { IfOk result (λ new. (old : AnyBelow) × (below ≡ Ok old) × IsTakenBack flat.now at before.now.machines old new) }
    ensures refused { (n : ℕ) → result ≡ Err (States n) → below ≡ Err (States n) }
{
    take_back(alloc, flat, before, at, cuts, &after, below)
}

// The same, where the family after the step stays.
fn take_back(
    alloc: Global,
    flat: &Flat,
    before: &LeafState,
    at: u32,
    cuts: &[u32],
    after: &LeafState,
    below: Result<Below, BuildFault>,
) -> Result<Below, BuildFault>
    requires straight { IsStraight flat.now }
    requires at { at < length flat.now.definitions }
    requires made { IsMadeAt flat.now at cuts.now before.now.machines after.now }
    requires found { (f : AnyFound) → below ≡ Ok (Found f) → AreFoundRuns flat.now at after.now.machines f }
    ensures back { IfOk result (λ new. (old : AnyBelow) × (below ≡ Ok old) × IsTakenBack flat.now at before.now.machines old new) }
    ensures refused { (n : ℕ) → result ≡ Err (States n) → below ≡ Err (States n) }
{
    match below? {
        Below::Left => Ok(Below::Left),
        Below::Refuted(names) => Ok(Below::Refuted(names)),
        Below::Found(found) => {
            let FoundRuns { runs, integers } = found;
            let runs = lift_step(alloc, flat, before, at, cuts, after, runs)?;
            Ok(Below::Found(FoundRuns { runs, integers }))
        }
    }
}

/// What is below a definition that was carried, where a refutation names the variable too that is defined, if it names
/// one that the definition uses.
pub fn name_own(flat: &Flat, at: u32, below: Below) -> Result<Below, AllocError>
    requires at { at < length flat.now.definitions }
    ensures { IfOk result (λ new. (d : AnyDefinition) → slice_get flat.now.definitions at ≡ Some d → HasOwnNamed d.variable (used d.by) below new) }
{
    let definition = definition_at(flat, at);
    match below {
        Below::Refuted(names) => {
            let more = name_defined(names, definition)?;
            Ok(Below::Refuted(more))
        }
        Below::Found(found) => Ok(Below::Found(found)),
        Below::Left => Ok(Below::Left),
    }
}

// The names, with the variable that is defined if one is named that the definition uses.
fn name_defined(names: Items<bool>, definition: &Definition) -> Result<Items<bool>, AllocError>
    ensures { IfOk result (NamesOwn definition.now.variable (used definition.now.by) names) }
{
    if !names_any(names.as_slice(), definition.by.uses()) {
        return Ok(names);
    }
    let mut names = names;
    add_name(&mut names, definition.variable as usize)?;
    Ok(names)
}
