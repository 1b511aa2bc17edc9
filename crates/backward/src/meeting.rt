//! A machine met with a part of another one's runs, and its runs taken apart.
ghost use Rattle.std.specs.Prelude.{◌≡◌, ℕ, ◌<◌, ◌+◌, ◌^◌, Err, IfOk};
ghost use Rattle.machine_core.specs.Graphs.{graph_top, IsRunOf};
ghost use Rattle.trim_search.specs.declared.build_fault.BuildFault.TheVariants.{States};
ghost use Rattle.backward.specs.Kept.{IsKeptMeeting, IsApart};

use machine_core::{Explicit, Run};
use machine_meet::{Meet, costs_of_meets_are_bounded, split_run};
use pre_image::Slice;
use std::alloc::{AllocError, Global};
use sv_list::Items;
use trim_search::{BuildFault, Built, lifted_runs_are_runs, materialise, trim_named};

/// A machine met with a part of another one's runs: the product with the pair of each state, and what
/// was left of it, with the product's state of each state.
pub struct MetPart {
    pub both: Built<Items<u32>>,
    pub small: Built<u32>,
}

// A drop by hand is one call where a derived one is a call for each vector inside.
impl Drop for MetPart {
    fn drop(self) {
        let Self { both: _, small: _ } = self;
    }
}

/// A run of the machine, and one of the part that it was met with.
#[derive(Drop)]
pub struct Apart {
    pub whole: Run<u32>,
    pub part: Run<u32>,
}

/// The words of `machine` on which `target` has a run from the state `from` to the state `to`, or to
/// an end, at what both cost together. Time and memory are those of the states that are reached, at
/// most the product of both numbers. `States` comes where more than `limit` are reached, and never for a limit
/// of 2^32 or more.
pub fn meet_slice(
    alloc: Global,
    machine: &Explicit,
    target: &Explicit,
    from: u32,
    to: Option<u32>,
    limit: u64,
) -> Result<MetPart, BuildFault>
    requires from { from < target.now.states }
    requires registers { machine.now.registers ≡ target.now.registers }
    requires fits { graph_top machine.now + graph_top target.now < 2 ^ 64 }
    ensures kept { IfOk result (IsKeptMeeting machine.now target.now from to) }
    ensures refused { (n : ℕ) → result ≡ Err (States n) → limit < 2 ^ 32 }
{
    let whole = Slice::of(machine, 0, None);
    let part = Slice::of(target, from, to);
    let parts = [whole, part];
    let meet = Meet::of(&parts);
    costs_of_meets_are_bounded(&meet);
    let both = materialise(alloc, &meet, limit)?;
    lifted_runs_are_runs(&meet, &both);
    let small = trim_named(alloc, &both.machine)?;
    Ok(MetPart { both, small })
}

/// A run of the machine and one of the part that it was met with, which the run of the meeting came
/// of. Linear in the run, but for the moves of both machines that are looked at in each step.
pub fn take_apart(
    alloc: Global,
    machine: &Explicit,
    target: &Explicit,
    from: u32,
    to: Option<u32>,
    meeting: &MetPart,
    run: &Run<u32>,
) -> Result<Apart, AllocError>
    requires kept { IsKeptMeeting machine.now target.now from to meeting.now }
    requires run { IsRunOf meeting.now.small.machine run.now }
    ensures { IfOk result (IsApart machine.now target.now from to run.now) }
{
    let whole = Slice::of(machine, 0, None);
    let part = Slice::of(target, from, to);
    let parts = [whole, part];
    let meet = Meet::of(&parts);
    let inside = meeting.small.lift(alloc, run)?;
    let pairs = meeting.both.lift(alloc, &inside)?;
    let mut runs = split_run(alloc, &meet, &pairs)?;
    let second = runs.pop().unwrap();
    let first = runs.pop().unwrap();
    Ok(Apart {
        whole: first,
        part: second,
    })
}
