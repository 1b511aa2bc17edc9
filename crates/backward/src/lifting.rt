//! Runs taken back over a transducer.
ghost use Rattle.std.specs.Prelude.{◌≡◌, ℕ, ◌<◌, length, slice_get, slice_set, Some, None, IfOk};
ghost use Rattle.machine_core.specs.declared.run.Run.{Run as AnyRun};
ghost use Rattle.machine_core.specs.Graphs.{IsRunOf};
ghost use Rattle.sv_terms.specs.Transduction.{Pairs};
ghost use Rattle.sv_terms.specs.declared.transducer.Transducer.{Transducer as AnyTransducer};
ghost use Rattle.backward.specs.Kept.{IsKeptMeeting};
ghost use Rattle.backward.specs.Made.{IsPassed};
ghost use Rattle.backward.specs.PreBuilt.{IsPreKept};
ghost use Rattle.backward.specs.Back.{AreBack, IsReadRun};
ghost use Rattle.backward.specs.Runs.{AreRuns, run_words};

use crate::family::machine_at;
use crate::leaf_state::{FamilyOrigin, LeafState};
use crate::meeting::{Apart, MetPart, take_apart};
use crate::through::PreBuilt;
use machine_core::{Explicit, Run};
use pre_image::{Pre, lift_pre};
use std::alloc::{AllocError, Global};
use sv_list::Items;
use sv_terms::Transducer;

/// A run of the machine that reads, and one of the machine that was carried, on a word that the
/// transducer may write.
#[derive(Drop)]
pub struct ReadRun {
    pub read: Run<u32>,
    pub written: Run<u32>,
}

/// The run of this variable, which has one.
pub fn run_at(runs: &[Option<Run<u32>>], v: u32) -> &Run<u32>
    requires { (r : AnyRun ℕ) × (slice_get runs.now v ≡ Some (Some r)) }
    ensures { slice_get runs.now v ≡ Some (Some result.now) }
{
    runs[v as usize].as_ref().unwrap()
}

/// Runs of the family before a step through a transducer, of runs of the family after it. Linear in
/// the runs, but for the moves that are looked at.
pub fn lift_through(
    alloc: Global,
    before: &LeafState,
    x: u32,
    v: u32,
    after: &LeafState,
    runs: Items<Option<Run<u32>>>,
) -> Result<Items<Option<Run<u32>>>, AllocError>
    requires passed { (t : AnyTransducer) × IsPassed before.now.machines x v t after.now }
    requires runs { AreRuns after.now.machines runs }
    ensures back { IfOk result (AreBack before.now.machines x runs) }
    ensures defined { IfOk result (λ rs. (t : AnyTransducer) → IsPassed before.now.machines x v t after.now → Pairs t (run_words rs v) (run_words rs x)) }
{
    let FamilyOrigin::Through(through, pre, meeting) = &after.made else {
        unreachable!();
    };
    let target = machine_at(before.machines.as_slice(), x);
    let reader = machine_at(before.machines.as_slice(), v);
    let run = run_at(runs.as_slice(), v);
    let lifted = lift_read(alloc, through, target, reader, pre, meeting, run)?;
    let ReadRun { read, written } = lifted;
    Ok(put_runs(runs, v, read, x, written))
}

// What the run of the meeting came of: a run of the reader, and one of the target on what is written.
fn lift_read(
    alloc: Global,
    through: &Transducer,
    target: &Explicit,
    reader: &Explicit,
    pre: &PreBuilt,
    meeting: &MetPart,
    run: &Run<u32>,
) -> Result<ReadRun, AllocError>
    requires pre { IsPreKept through.now target.now pre.now }
    requires kept { IsKeptMeeting reader.now pre.now.built.machine 0 None meeting.now }
    requires run { IsRunOf meeting.now.small.machine run.now }
    ensures { IfOk result (IsReadRun through.now target.now reader.now run.now) }
{
    let apart = take_apart(alloc, reader, &pre.built.machine, 0, None, meeting, run)?;
    let pairs = pre.built.lift(alloc, &apart.part)?;
    let whole = Pre::of(alloc, through, target)?;
    let lifted = lift_pre(alloc, &whole, &pairs)?;
    let Apart {
        whole: read,
        part: _,
    } = apart;
    let (_, written) = lifted;
    Ok(ReadRun { read, written })
}

// The runs with these two in their places.
fn put_runs(
    runs: Items<Option<Run<u32>>>,
    v: u32,
    first: Run<u32>,
    x: u32,
    second: Run<u32>,
) -> Items<Option<Run<u32>>>
    requires first { v < length runs }
    requires second { x < length runs }
    ensures { result ≡ slice_set (slice_set runs v (Some first)) x (Some second) }
{
    let mut runs = runs;
    runs.set(v as usize, Some(first));
    runs.set(x as usize, Some(second));
    runs
}
