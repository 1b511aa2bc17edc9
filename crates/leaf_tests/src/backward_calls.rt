//! A family of concrete machines, cut along a concatenation.
ghost use Rattle.std.specs.Prelude.{◌≡◌, ◌<◌, [], ◌∷◌, max, Some, IfOk, OnOk};
ghost use Rattle.machine_core.specs.Costs.{cost_top};
ghost use Rattle.machine_core.specs.Graphs.{graph_top};

use backward::{LeafState, carry_concat};
use machine_core::{Cost, Explicit};
use std::alloc::{AllocError, Global};
use sv_list::Items;
use sv_word::Ranges;
use trim_search::{BuildFault, shortest};

// Adds an edge on one letter at this cost.
fn add_edge(
    alloc: Global,
    machine: &mut Explicit,
    from: u32,
    letter: u8,
    cost: u64,
    to: u32,
) -> Result<(), AllocError>
    requires from { from < machine.old.states }
    requires to { to < machine.old.states }
    requires registers { machine.old.registers ≡ 1 }
    ensures states { machine.new.states ≡ machine.old.states }
    ensures registers { machine.new.registers ≡ 1 }
    ensures top { OnOk result (graph_top machine.new ≡ max (graph_top machine.old) (cost_top (cost ∷ []))) }
{
    let on = Ranges::of(alloc, u32::from(letter), u32::from(letter))?;
    machine.add_edge(from, on, Cost::from_slice(alloc, &[cost])?, to)
}

// All words of the letter, at no cost.
fn any_count(alloc: Global, letter: u8) -> Result<Explicit, AllocError>
    ensures registers { IfOk result (λ m. m.registers ≡ 1) }
    ensures top { IfOk result (λ m. graph_top m ≡ 0) }
{
    let mut machine = Explicit::new(alloc, 1, 1)?;
    add_edge(alloc, &mut machine, 0, letter, 0, 0)?;
    machine.add_end(0, Cost::from_slice(alloc, &[0])?)?;
    Ok(machine)
}

// The word of the one letter, at no cost.
fn one_letter(alloc: Global, letter: u8) -> Result<Explicit, AllocError>
    ensures states { IfOk result (λ m. m.states ≡ 2) }
    ensures registers { IfOk result (λ m. m.registers ≡ 1) }
    ensures top { IfOk result (λ m. graph_top m ≡ 0) }
{
    let mut machine = Explicit::new(alloc, 2, 1)?;
    add_edge(alloc, &mut machine, 0, letter, 0, 1)?;
    machine.add_end(1, Cost::from_slice(alloc, &[0])?)?;
    Ok(machine)
}

// The family of three machines.
fn family(alloc: Global, y: Explicit, x: Explicit, z: Explicit) -> Result<LeafState, AllocError>
    requires y { y.registers ≡ 1 }
    requires x { x.registers ≡ 1 }
    requires z { z.registers ≡ 1 }
    ensures { IfOk result (λ s. s.machines ≡ Some y ∷ Some x ∷ Some z ∷ []) }
{
    let mut machines = Items::new(alloc);
    machines.push(y)?;
    machines.push(x)?;
    machines.push(z)?;
    LeafState::of(alloc, 1, machines)
}

// The length of a shortest word of the machine at this place, which is there.
fn least_length(alloc: Global, state: &LeafState, v: usize) -> Result<Option<usize>, AllocError> {
    match state.machines.as_slice().get(v) {
        Some(Some(machine)) => match shortest(alloc, machine.get())? {
            Some(run) => Ok(Some(run.word.len())),
            None => Ok(None),
        },
        _ => Ok(None),
    }
}

// What is left of `b` as y and z, cut at this state.
fn end_of_cut(alloc: Global, cut: u32) -> Result<LeafState, BuildFault>
    requires { cut < 2 }
{
    let piece = any_count(alloc, b'b')?;
    let whole = one_letter(alloc, b'b')?;
    let other = one_letter(alloc, b'b')?;
    let state = family(alloc, piece, whole, other)?;
    carry_concat(alloc, &state, 1, &[0, 2], &[cut], u64::MAX)
}

// The length of a shortest word that is left for the variable at this place.
fn least_end(alloc: Global, cut: u32, v: usize) -> Result<Option<usize>, BuildFault>
    requires { cut < 2 }
{
    let after = end_of_cut(alloc, cut)?;
    Ok(least_length(alloc, &after, v)?)
}

#[test]
fn a_cut_at_the_start_leaves_the_empty_word(rt: HostRuntime) -> Result<(), BuildFault> {
    let alloc = rt.alloc();
    assert!(rt; least_end(alloc, 0, 0)? == Some(0));
    assert!(rt; least_end(alloc, 0, 2)? == Some(1));
    Ok(())
}
