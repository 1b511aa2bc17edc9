ghost use Rattle.std.specs.Prelude.{◌≡◌, ◌+◌, ◌++◌, ◌∷◌, ◌≤◌, ℕ, [], Ok, Err, Some, IfOk, OnOk, length, slice_get, true};
ghost use Rattle.machine_core.specs.declared.graph.Graph.{Graph};
ghost use Rattle.flat_cubes.specs.declared.definition.Definition.{Definition as AnyDefinition};
ghost use Rattle.backward.specs.Families.{HasMachine};
ghost use Rattle.backward.specs.Ways.{AreLive};
ghost use Rattle.trim_search.specs.declared.build_fault.BuildFault.TheVariants.{States};
ghost use Rattle.backward.specs.States.{IsState};
ghost use Rattle.cube_search.specs.Allowances.{is_bounded};
ghost use Rattle.cube_search.specs.Conflicts.{AreNamesOf, IsBelow, IsBelowCuts, IsBelowStep};
ghost use Rattle.cube_search.specs.Searches.{IsSearch};
ghost use Rattle.cube_search.specs.Steps.{CanStep, IsCutting, IsNextFamily};
ghost use Rattle.flat_cubes.specs.Straight.{IsStraight};
ghost use Rattle.cube_search.specs.Tallies.{IsTally, Keeps};

use crate::allowance::Allowance;
use crate::below::Below;
use crate::dead_ends::dead_end;
use crate::gathered::{Gathered, gather};
use crate::leaves::answer_leaf;
use crate::names::{names_of, only};
use crate::spending::spend;
use crate::stepping::{leave, live_at, name_own, next_at, pieces_at, states_at, step};
use crate::tally::LeafTally;
use backward::{LeafState, may_cut};
use flat_cubes::Flat;
use search_hits::Region;
use std::alloc::{AllocError, Global};
use sv_list::Items;
use trim_search::BuildFault;

/// A flat cube and how its leaves are answered.
#[derive(Drop)]
pub struct Search<'a> {
    pub flat: &'a Flat,
    pub region: Region,
    pub small: bool,
    pub reach: i64,
    pub allowance: Allowance,
}

/// Answers all leaves below a family in which `left` definitions are still to be carried; none where some
/// machine of it reads nothing. The first runs that satisfy the cube end it. `spent` counts what the families on
/// the way took. `States` comes only where the search isn't allowed to take whatever it takes.
#[cycle(search)]
pub fn descend(
    search: &Search,
    alloc: Global,
    state: &LeafState,
    left: u32,
    tally: &mut LeafTally,
    spent: &mut u64,
) -> Result<Below, BuildFault>
    requires search { IsSearch search.now }
    requires state { IsState search.now.flat.now left state.now }
    requires left { left ≤ length search.now.flat.now.definitions }
    requires tally { IsTally search.now.flat.now tally.old }
    ensures tally { OnOk result (IsTally search.now.flat.now tally.new) }
    ensures kept { OnOk result (Keeps tally.old tally.new) }
    ensures below { IfOk result (IsBelow search.now.flat.now search.now.region left state.now.machines tally.new) }
    ensures refused { (n : ℕ) → result ≡ Err (States n) → is_bounded search.now.allowance ≡ true }
{
    if let Some(v) = dead_end(state) {
        let names = only(alloc, v)?;
        return Ok(Below::Refuted(names));
    }
    if left == 0 {
        let found = answer_leaf(search, alloc, state, tally)?;
        return Ok(Below::of_leaf(found));
    }
    let at = left - 1;
    match pieces_at(search, state, at) {
        Some(pieces) => {
            let live = live_at(alloc, search.flat, state, at, pieces, spent)?;
            let own = names_of(alloc, pieces)?;
            let below = try_cuts(
                search,
                alloc,
                state,
                at,
                pieces,
                &[],
                live.as_slice(),
                own.as_slice(),
                tally,
                spent,
            )?;
            let named = name_own(search.flat, at, below)?;
            Ok(named)
        }
        None => {
            let below = carry_definition(search, alloc, state, at, &[], tally, spent)?;
            let named = name_own(search.flat, at, below)?;
            Ok(named)
        }
    }
}

/// The same, where the definition at `at` is the concatenation of the pieces and its machine is cut at
/// these states first: for all lists of cuts that begin with them, one after another. A cut is left out to which no word
/// of its piece leads from the cut before it, or from which no words of the later pieces lead on to an end; those that
/// lead on are marked in `live`. A refutation that names neither of the two pieces beside a cut is one for all lists.
/// `own` names the pieces.
#[cycle(search)]
fn try_cuts(
    search: &Search,
    alloc: Global,
    state: &LeafState,
    at: u32,
    pieces: &[u32],
    cuts: &[u32],
    live: &[Items<bool>],
    own: &[bool],
    tally: &mut LeafTally,
    spent: &mut u64,
) -> Result<Below, BuildFault>
    requires search { IsSearch search.now }
    requires state { IsState search.now.flat.now (at + 1) state.now }
    requires cuts { IsCutting search.now.flat.now at pieces.now state.now.machines cuts.now }
    requires live { (d : AnyDefinition) (m : Graph) → slice_get search.now.flat.now.definitions at ≡ Some d → HasMachine state.now.machines d.variable m → AreLive state.now.machines m pieces.now live.now }
    requires own { AreNamesOf pieces.now own.now }
    requires tally { IsTally search.now.flat.now tally.old }
    ensures tally { OnOk result (IsTally search.now.flat.now tally.new) }
    ensures kept { OnOk result (Keeps tally.old tally.new) }
    ensures below { IfOk result (IsBelowCuts search.now.flat.now search.now.region at pieces.now state.now.machines cuts.now tally.new) }
    ensures refused { (n : ℕ) → result ≡ Err (States n) → is_bounded search.now.allowance ≡ true }
{
    let place = cuts.len();
    if place + 1 == pieces.len() {
        return carry_definition(search, alloc, state, at, cuts, tally, spent);
    }
    let next = next_at(alloc, search.flat, state, at, pieces, cuts, spent)?;
    let mut gathered = Gathered {
        names: Items::from_slice(alloc, own)?,
        all: true,
    };
    for s in 0..states_at(search.flat, state, at) {
        if !may_cut(next.as_slice(), live, place + 1, s) {
            continue;
        }
        let more = add_cut(alloc, cuts, s)?;
        let cuts = more.as_slice();
        let below = try_cuts(
            search, alloc, state, at, pieces, cuts, live, own, tally, spent,
        )?;
        if let Some(answer) = gather(&mut gathered, below, pieces[place], pieces[place + 1])? {
            return Ok(answer);
        }
    }
    Ok(gathered.into_below())
}

/// The same, where the definition at `at` is carried, at all these cuts where it is a concatenation.
#[cycle(search)]
fn carry_definition(
    search: &Search,
    alloc: Global,
    state: &LeafState,
    at: u32,
    cuts: &[u32],
    tally: &mut LeafTally,
    spent: &mut u64,
) -> Result<Below, BuildFault>
    requires search { IsSearch search.now }
    requires state { IsState search.now.flat.now (at + 1) state.now }
    requires step { CanStep search.now.flat.now at state.now.machines cuts.now }
    requires tally { IsTally search.now.flat.now tally.old }
    ensures tally { OnOk result (IsTally search.now.flat.now tally.new) }
    ensures kept { OnOk result (Keeps tally.old tally.new) }
    ensures below { IfOk result (IsBelowStep search.now.flat.now search.now.region at cuts.now state.now tally.new) }
    ensures refused { (n : ℕ) → result ≡ Err (States n) → is_bounded search.now.allowance ≡ true }
{
    let next = next_family(search, alloc, state, at, cuts, spent)?;
    let below = descend(search, alloc, &next, at, tally, spent);
    let lifted = leave(alloc, search.flat, state, at, cuts, next, below)?;
    Ok(lifted)
}

/// The family with the definition at this place carried, counted as [`spend`] says.
#[inline(never)]
fn next_family(
    search: &Search,
    alloc: Global,
    state: &LeafState,
    at: u32,
    cuts: &[u32],
    spent: &mut u64,
) -> Result<LeafState, BuildFault>
    requires { CanStep search.now.flat.now at state.now.machines cuts.now }
    ensures next { IfOk result (IsNextFamily search.now.flat.now at cuts.now state.now) }
    ensures state { IfOk result (λ s. IsStraight search.now.flat.now → IsState search.now.flat.now (at + 1) state.now → IsState search.now.flat.now at s) }
    ensures refused { (n : ℕ) → result ≡ Err (States n) → is_bounded search.now.allowance ≡ true }
{
    let limit = search.allowance.most_states();
    let next = step(alloc, search.flat, state, at, cuts, limit)?;
    spend(search.allowance, spent, &next)?;
    Ok(next)
}

/// One cut more.
fn add_cut(alloc: Global, cuts: &[u32], state: u32) -> Result<Items<u32>, AllocError>
    ensures { IfOk result (λ more. more ≡ cuts.now ++ state ∷ []) }
{
    let mut more = Items::from_slice(alloc, cuts)?;
    more.push(state)?;
    Ok(more)
}
