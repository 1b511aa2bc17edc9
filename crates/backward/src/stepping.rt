//! One definition of a flat cube carried backward, and runs taken back over it.
ghost use Rattle.std.specs.Prelude.{◌≡◌, ◌<◌, ◌+◌, ◌^◌, ℕ, [], length, slice_get, Some, Err, IfOk};
ghost use Rattle.flat_cubes.specs.Straight.{IsFormedBy, IsStraight};
ghost use Rattle.trim_search.specs.declared.build_fault.BuildFault.TheVariants.{States};
ghost use Rattle.backward.specs.Back.{AreBack};
ghost use Rattle.backward.specs.Definitions.{IsFor, reads};
ghost use Rattle.backward.specs.Runs.{AreRuns, run_words};
ghost use Rattle.backward.specs.States.{IsState};
ghost use Rattle.backward.specs.Steps.{AreBackAt, CanCutAt, CanPassAt, IsCutAt, IsMadeAt, IsMadeBy, IsPassedAt};
ghost use Rattle.flat_cubes.specs.Satisfying.{ComesBy};

use crate::carrying::carry_concat;
use crate::cut_lifting::lift_cut;
use crate::leaf_state::LeafState;
use crate::lifting::lift_through;
use crate::through::carry_through;
use cube_bounds::{growth_goes_along, growth_is_solved, states_are_solved};
use flat_cubes::{By, Definition, Flat};
use machine_core::Run;
use replace_machines::{replace_all, replace_first};
use std::alloc::{AllocError, Global};
use sv_list::{Copied, Items};
use sv_terms::Transducer;
use trim_search::BuildFault;

/// The family in which the definition at the place `at`, a concatenation, is carried: the machine of
/// its variable is cut at these states, one for each border between two pieces. A family that the
/// cube's text leads to leads on to such a family. It takes what [`carry_concat`] takes, and refuses what that does.
pub fn step_concat(
    alloc: Global,
    flat: &Flat,
    state: &LeafState,
    at: u32,
    cuts: &[u32],
    limit: u64,
) -> Result<LeafState, BuildFault>
    requires { CanCutAt flat.now at state.now.machines cuts.now }
    ensures registers { IfOk result (λ s. s.registers ≡ state.now.registers) }
    ensures conf { IfOk result (IsCutAt flat.now at cuts.now state.now) }
    ensures state { IfOk result (λ s. IsStraight flat.now → IsState flat.now (at + 1) state.now → IsState flat.now at s) }
    ensures made { IfOk result (IsMadeAt flat.now at cuts.now state.now.machines) }
    ensures refused { (n : ℕ) → result ≡ Err (States n) → limit < 2 ^ 32 }
{
    states_are_solved();
    growth_is_solved();
    let definition = definition_at(flat, at);
    let By::Concat(pieces) = &definition.by else {
        unreachable!();
    };
    carry_concat(
        alloc,
        state,
        definition.variable,
        pieces.as_slice(),
        cuts,
        limit,
    )
}

/// The family in which the definition at the place `at`, no concatenation, is carried: the pre-image
/// of the machine of its variable is met with that of the variable that it reads. A family that the
/// cube's text leads to leads on to such a family. It takes what [`carry_through`] takes, and refuses what that does.
pub fn step_through(
    alloc: Global,
    flat: &Flat,
    state: &LeafState,
    at: u32,
    limit: u64,
) -> Result<LeafState, BuildFault>
    requires { CanPassAt flat.now at state.now.machines }
    ensures registers { IfOk result (λ s. s.registers ≡ state.now.registers) }
    ensures conf { IfOk result (IsPassedAt flat.now at state.now) }
    ensures state { IfOk result (λ s. IsStraight flat.now → IsState flat.now (at + 1) state.now → IsState flat.now at s) }
    ensures made { IfOk result (IsMadeAt flat.now at [] state.now.machines) }
    ensures refused { (n : ℕ) → result ≡ Err (States n) → limit < 2 ^ 32 }
{
    states_are_solved();
    growth_goes_along();
    let definition = definition_at(flat, at);
    let read = read_by(&definition.by);
    let through = transducer_for(alloc, &definition.by)?;
    carry_through(alloc, state, definition.variable, read, through, limit)
}

/// Runs of the family before a step, of runs of the family after it: they cost the same together, and
/// the word of the variable that was carried comes by its definition from the words of the others,
/// which stay. It takes what [`lift_cut`] or [`lift_through`] takes.
pub fn lift_step(
    alloc: Global,
    flat: &Flat,
    before: &LeafState,
    at: u32,
    cuts: &[u32],
    after: &LeafState,
    runs: Items<Option<Run<u32>>>,
) -> Result<Items<Option<Run<u32>>>, AllocError>
    requires at { at < length flat.now.definitions }
    requires made { IsMadeAt flat.now at cuts.now before.now.machines after.now }
    requires runs { AreRuns after.now.machines runs }
    ensures { IfOk result (AreBackAt flat.now at before.now.machines runs) }
{
    let definition = definition_at(flat, at);
    lift_by(
        alloc,
        before,
        definition.variable,
        &definition.by,
        cuts,
        after,
        runs,
    )
}

// Runs of the family before a step, by the definition of `x`.
fn lift_by(
    alloc: Global,
    before: &LeafState,
    x: u32,
    by: &By,
    cuts: &[u32],
    after: &LeafState,
    runs: Items<Option<Run<u32>>>,
) -> Result<Items<Option<Run<u32>>>, AllocError>
    requires made { IsMadeBy by.now x cuts.now before.now.machines after.now }
    requires runs { AreRuns after.now.machines runs }
    ensures back { IfOk result (AreBack before.now.machines x runs) }
    ensures defined { IfOk result (λ rs. ComesBy (run_words rs) (run_words rs x) by.now) }
{
    if let By::Concat(pieces) = by {
        return lift_cut(alloc, before, x, pieces.as_slice(), cuts, after, runs);
    }
    let read = read_by(by);
    lift_through(alloc, before, x, read, after, runs)
}

// The definition at this place, which there is.
fn definition_at(flat: &Flat, at: u32) -> &Definition
    requires { at < length flat.now.definitions }
    ensures { slice_get flat.now.definitions at ≡ Some result.now }
{
    &flat.definitions.as_slice()[at as usize]
}

// The variable that the definition reads through a transducer.
fn read_by(by: &By) -> u32
    requires { (v : ℕ) × (reads by.now ≡ Some v) }
    ensures { reads by.now ≡ Some result }
{
    match by {
        By::Concat(_) => unreachable!(),
        By::First(_, _, read) => *read,
        By::All(_, _, read) => *read,
        By::Through(_, read) => *read,
    }
}

// A transducer for the definition.
fn transducer_for(alloc: Global, by: &By) -> Result<Transducer, AllocError>
    requires reads { (v : ℕ) × (reads by.now ≡ Some v) }
    requires formed { IsFormedBy by.now }
    ensures { IfOk result (IsFor by.now) }
{
    match by {
        By::Concat(_) => unreachable!(),
        By::First(pattern, other, _) => replace_first(alloc, pattern, other),
        By::All(pattern, other, _) => replace_all(alloc, pattern, other),
        By::Through(through, _) => through.copy(alloc),
    }
}
