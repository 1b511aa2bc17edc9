//! Runs taken back over a concatenation.
ghost use Rattle.std.specs.Prelude.{◌≡◌, ◌<◌, ◌+◌, [], ◌∷◌, map, drop, length, get_or, slice_get, Some, IfOk};
ghost use Rattle.machine_core.specs.declared.graph.Graph.{Graph};
ghost use Rattle.machine_core.specs.Costs.{zeros};
ghost use Rattle.sv_terms.specs.Meaning.{joined};
ghost use Rattle.backward.specs.Families.{without};
ghost use Rattle.backward.specs.Made.{IsCut};
ghost use Rattle.backward.specs.Back.{AreBack};
ghost use Rattle.backward.specs.PiecesBack.{HasMet, AreTakenBack};
ghost use Rattle.backward.specs.Runs.{Runs, AreRuns, run_words};

use crate::carrying::{start_at, stop_at};
use crate::family::machine_at;
use crate::leaf_state::{FamilyOrigin, LeafState};
use crate::lifting::run_at;
use crate::meeting::{Apart, MetPart, take_apart};
use crate::shared::Shared;
use machine_core::{Cost, Explicit, Machine, Run};
use pre_image::{Slice, joined_runs_are_runs, lift_concat};
use std::alloc::{AllocError, Global};
use sv_list::Items;
use sv_word::Word;

// A concatenation that was carried: the machines before it, its variable with the machine that was
// cut, the pieces, the cuts, and the meetings of the pieces, the last piece first.
#[derive(Drop)]
struct CarriedCut<'a> {
    machines: &'a [Option<Shared<Explicit>>],
    x: u32,
    target: &'a Explicit,
    pieces: &'a [u32],
    cuts: &'a [u32],
    meetings: &'a [MetPart],
}

// The runs once some pieces are taken back, and the run of the machine that was cut on their words.
#[derive(Drop)]
struct TakenBack {
    runs: Items<Option<Run<u32>>>,
    whole: Run<u32>,
}

/// Runs of the family before a concatenation was carried, of runs of the family after it. Linear in
/// the runs, but for the moves that are looked at, and quadratic in the pieces.
pub fn lift_cut(
    alloc: Global,
    before: &LeafState,
    x: u32,
    pieces: &[u32],
    cuts: &[u32],
    after: &LeafState,
    runs: Items<Option<Run<u32>>>,
) -> Result<Items<Option<Run<u32>>>, AllocError>
    requires cut { IsCut before.now.machines x pieces.now cuts.now after.now }
    requires runs { AreRuns after.now.machines runs }
    ensures back { IfOk result (AreBack before.now.machines x runs) }
    ensures defined { IfOk result (λ rs. run_words rs x ≡ joined (map (run_words rs) pieces.now)) }
{
    let FamilyOrigin::Cut(meetings) = &after.made else {
        unreachable!();
    };
    let machines = before.machines.as_slice();
    let target = machine_at(machines, x);
    let cut = CarriedCut {
        machines,
        x,
        target,
        pieces,
        cuts,
        meetings: meetings.as_slice(),
    };
    let whole = standing_run(alloc, target.registers())?;
    let taken = TakenBack { runs, whole };
    let all = lift_pieces(alloc, &cut, taken)?;
    let TakenBack { runs, whole } = all;
    let mut runs = runs;
    runs.set(x as usize, Some(whole));
    Ok(runs)
}

// The run on no character, which stands at the start.
fn standing_run(alloc: Global, registers: usize) -> Result<Run<u32>, AllocError>
    ensures word { IfOk result (λ r. r.word ≡ []) }
    ensures states { IfOk result (λ r. r.states ≡ 0 ∷ []) }
    ensures costs { IfOk result (λ r. r.costs ≡ []) }
    ensures last { IfOk result (λ r. r.last ≡ zeros registers) }
{
    let mut states = Items::new(alloc);
    states.push(0)?;
    let last = Cost::zeros(alloc, registers)?;
    Ok(Run {
        word: Word::new(alloc),
        states,
        costs: Items::new(alloc),
        last,
    })
}

// All pieces, from the first to the last.
fn lift_pieces(alloc: Global, cut: &CarriedCut, first: TakenBack) -> Result<TakenBack, AllocError>
    requires { (old : Runs) × AreTakenBack cut.now.target.now (without cut.now.machines.now cut.now.x) cut.now.cuts.now cut.now.pieces.now cut.now.meetings.now old 0 first.runs first.whole }
    ensures { IfOk result (λ t. (old : Runs) → AreTakenBack cut.now.target.now (without cut.now.machines.now cut.now.x) cut.now.cuts.now cut.now.pieces.now cut.now.meetings.now old 0 first.runs first.whole
        → AreTakenBack cut.now.target.now (without cut.now.machines.now cut.now.x) cut.now.cuts.now cut.now.pieces.now cut.now.meetings.now old (length cut.now.pieces.now) t.runs t.whole) }
{
    let mut taken = first;
    for place in 0..cut.pieces.len() {
        taken = lift_piece(alloc, cut, place, taken)?;
    }
    Ok(taken)
}

// One piece more: its run is one of the machine that it had before, and a part of one of the machine
// that was cut, which goes behind the parts so far.
fn lift_piece(
    alloc: Global,
    cut: &CarriedCut,
    place: usize,
    taken: TakenBack,
) -> Result<TakenBack, AllocError>
    requires place { place < length cut.now.pieces.now }
    requires taken { (old : Runs) × AreTakenBack cut.now.target.now (without cut.now.machines.now cut.now.x) cut.now.cuts.now cut.now.pieces.now cut.now.meetings.now old place taken.runs taken.whole }
    ensures { IfOk result (λ t. (old : Runs) → AreTakenBack cut.now.target.now (without cut.now.machines.now cut.now.x) cut.now.cuts.now cut.now.pieces.now cut.now.meetings.now old place taken.runs taken.whole
        → AreTakenBack cut.now.target.now (without cut.now.machines.now cut.now.x) cut.now.cuts.now cut.now.pieces.now cut.now.meetings.now old (place + 1) t.runs t.whole) }
{
    let piece = cut.pieces[place];
    let from = start_at(cut.cuts, place);
    let to = stop_at(cut.cuts, place);
    let meeting = meeting_at(cut.meetings, cut.pieces.len() - 1 - place);
    let machine = machine_before(cut, place);
    let run = run_at(taken.runs.as_slice(), piece);
    let apart = take_apart(alloc, machine, cut.target, from, to, meeting, run)?;
    let Apart { whole: read, part } = apart;
    let slice = Slice::of(cut.target, 0, to);
    joined_runs_are_runs(&slice);
    let TakenBack { runs, whole } = taken;
    let longer = lift_concat(alloc, &whole, &part)?;
    let mut runs = runs;
    runs.set(piece as usize, Some(read));
    Ok(TakenBack {
        runs,
        whole: longer,
    })
}

// The meeting at this place, which there is.
fn meeting_at(meetings: &[MetPart], place: usize) -> &MetPart
    requires { place < length meetings.now }
    ensures { slice_get meetings.now place ≡ Some result.now }
{
    &meetings[place]
}

// The machine with which the piece at this place was met: what the next such piece behind it was met
// to, or else the machine of the family.
fn machine_before<'a>(cut: &CarriedCut<'a>, place: usize) -> &'a Explicit
    requires place { place < length cut.now.pieces.now }
    requires meetings { length cut.now.meetings.now ≡ length cut.now.pieces.now }
    requires machine { (k : Graph) × HasMet cut.now.machines.now (get_or cut.now.pieces.now place 0) (drop (place + 1) cut.now.pieces.now) cut.now.meetings.now k }
    ensures { HasMet cut.now.machines.now (get_or cut.now.pieces.now place 0) (drop (place + 1) cut.now.pieces.now) cut.now.meetings.now result.now }
{
    let piece = cut.pieces[place];
    for later in place + 1..cut.pieces.len() {
        if cut.pieces[later] == piece {
            return &meeting_at(cut.meetings, cut.pieces.len() - 1 - later)
                .small
                .machine;
        }
    }
    machine_at(cut.machines, piece)
}
