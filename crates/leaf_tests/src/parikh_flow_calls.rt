//! Counts of a machine with a cycle that lies apart from its start.
ghost use Rattle.std.specs.Prelude.{◌≡◌, ◌<◌, [], ◌∷◌, ◌++◌, map, OnOk, IfOk};
ghost use Rattle.machine_core.specs.Edges.{from_of, at_of};
ghost use Rattle.parikh_flow.specs.Counts.{to_of};

use farkas_check::Cutter;
use machine_core::{Cost, Explicit};
use parikh_flow::{FlowFault, NetCutter, flow_of, nets_are_within, run_of, system_of};
use std::alloc::{AllocError, Global};
use sv_list::Items;
use sv_word::Ranges;

// Adds an edge on one letter.
fn add_edge(
    alloc: Global,
    machine: &mut Explicit,
    from: u32,
    letter: u8,
    to: u32,
) -> Result<(), AllocError>
    requires from { from < machine.old.states }
    requires to { to < machine.old.states }
    requires registers { machine.old.registers ≡ 0 }
    ensures states { machine.new.states ≡ machine.old.states }
    ensures registers { machine.new.registers ≡ 0 }
    ensures ends { machine.new.ends ≡ machine.old.ends }
    ensures sources { OnOk result (map from_of machine.new.edges ≡ map from_of machine.old.edges ++ from ∷ []) }
    ensures targets { OnOk result (map to_of machine.new.edges ≡ map to_of machine.old.edges ++ to ∷ []) }
{
    let on = Ranges::of(alloc, u32::from(letter), u32::from(letter))?;
    machine.add_edge(from, on, Cost::new(alloc), to)
}

// The words `a`, and `bb` with any number of `ccc` behind it.
fn sample(alloc: Global) -> Result<Explicit, AllocError>
    ensures sources { IfOk result (λ m. map from_of m.edges ≡ 0 ∷ 0 ∷ 2 ∷ 3 ∷ 4 ∷ 5 ∷ []) }
    ensures targets { IfOk result (λ m. map to_of m.edges ≡ 1 ∷ 2 ∷ 3 ∷ 4 ∷ 5 ∷ 3 ∷ []) }
    ensures ends { IfOk result (λ m. map at_of m.ends ≡ 1 ∷ 3 ∷ []) }
    ensures registers { IfOk result (λ m. m.registers ≡ 0) }
{
    let mut machine = Explicit::new(alloc, 6, 0)?;
    add_edge(alloc, &mut machine, 0, b'a', 1)?;
    add_edge(alloc, &mut machine, 0, b'b', 2)?;
    add_edge(alloc, &mut machine, 2, b'b', 3)?;
    add_edge(alloc, &mut machine, 3, b'c', 4)?;
    add_edge(alloc, &mut machine, 4, b'c', 5)?;
    add_edge(alloc, &mut machine, 5, b'c', 3)?;
    machine.add_end(1, Cost::new(alloc))?;
    machine.add_end(3, Cost::new(alloc))?;
    Ok(machine)
}

// The states that lie apart from the start where `a` is read, and `ccc` beside it.
fn apart(alloc: Global) -> Result<Option<Items<u32>>, AllocError> {
    let machine = sample(alloc)?;
    match run_of(alloc, &machine, &[1, 0, 0, 1, 1, 1, 1, 0]) {
        Ok(_) => Ok(None),
        Err(FlowFault::Apart(set)) => Ok(Some(set)),
        Err(FlowFault::Memory(e)) => Err(e),
    }
}

// The machine and the states that a cutter of its system finds to lie apart at the same counts.
fn cut(alloc: Global) -> Result<Option<(u32, Items<u32>)>, AllocError> {
    let mut machines = Items::new(alloc);
    machines.push(sample(alloc)?)?;
    let system = system_of(alloc, machines.as_slice(), 0, 0, &[], None)?;
    nets_are_within(machines.as_slice(), &system);
    let point = [1, 0, 0, 1, 1, 1, 1, 0];
    if system.unknowns != 8 {
        return Ok(None);
    }
    NetCutter::of(&system).cut(alloc, &point)
}

// The counts of a run that is made of the counts of `bb` with `ccc` twice behind it.
fn count_edges(alloc: Global) -> Result<Items<u64>, FlowFault> {
    let machine = sample(alloc)?;
    let run = run_of(alloc, &machine, &[0, 1, 1, 2, 2, 2, 0, 1])?;
    Ok(flow_of(alloc, &machine, &run)?)
}

// Whether these are the states of the cycle.
fn is_cycle(set: Option<Items<u32>>) -> bool {
    match set {
        Some(set) => set.as_slice() == [2, 3, 4, 5].as_slice(),
        None => false,
    }
}

// Whether the cycle of the first machine is found.
fn finds_cycle(found: Option<(u32, Items<u32>)>) -> bool {
    match found {
        Some((at, set)) => at == 0 && is_cycle(Some(set)),
        None => false,
    }
}

#[test]
fn a_cycle_lies_apart(rt: HostRuntime) -> Result<(), AllocError> {
    assert!(rt; is_cycle(apart(rt.alloc())?));
    assert!(rt; finds_cycle(cut(rt.alloc())?));
    Ok(())
}

#[test]
fn a_run_has_the_counts_that_it_is_made_of(rt: HostRuntime) -> Result<(), FlowFault> {
    let counts = count_edges(rt.alloc())?;
    assert!(rt; counts.as_slice() == [0, 1, 1, 2, 2, 2, 0, 1].as_slice());
    Ok(())
}
