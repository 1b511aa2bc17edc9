ghost use Rattle.std.specs.Prelude.{◌≡◌, ◌<◌, ◌^◌, IfOk};
ghost use Rattle.machine_core.specs.Graphs.{graph_top};

use crate::trim_search_calls::has_shortest;
use machine_core::{Cost, Explicit};
use machine_meet::{concat, star, union};
use std::alloc::{AllocError, Global};
use sv_word::Ranges;

const A: u32 = 0x61;

const B: u32 = 0x62;

// The word `ab`, without registers.
fn plain(alloc: Global) -> Result<Explicit, AllocError>
    ensures { IfOk result (λ m. m.registers ≡ 0) }
{
    let mut machine = Explicit::new(alloc, 3, 0)?;
    machine.add_edge(0, Ranges::of(alloc, A, A)?, Cost::new(alloc), 1)?;
    machine.add_edge(1, Ranges::of(alloc, B, B)?, Cost::new(alloc), 2)?;
    machine.add_end(2, Cost::new(alloc))?;
    Ok(machine)
}

// The word `ab`, at no cost.
fn once(alloc: Global) -> Result<Explicit, AllocError>
    ensures registers { IfOk result (λ m. m.registers ≡ 1) }
    ensures top { IfOk result (λ m. graph_top m < 2 ^ 32) }
{
    let once = plain(alloc)?;
    once.widen(alloc, 1)
}

// The words `ab`, any number of them, at no cost.
fn many(alloc: Global) -> Result<Explicit, AllocError>
    ensures registers { IfOk result (λ m. m.registers ≡ 1) }
    ensures top { IfOk result (λ m. graph_top m < 2 ^ 32) }
{
    let once = plain(alloc)?;
    let many = star(alloc, &once)?;
    many.widen(alloc, 1)
}

fn either(alloc: Global, a: &Explicit, b: &Explicit) -> Result<Explicit, AllocError>
    requires { b.now.registers ≡ a.now.registers }
{
    union(alloc, a, b)
}

fn after(alloc: Global, a: &Explicit, b: &Explicit) -> Result<Explicit, AllocError>
    requires registers { b.now.registers ≡ a.now.registers }
    requires first { graph_top a.now < 2 ^ 32 }
    requires second { graph_top b.now < 2 ^ 32 }
{
    concat(alloc, a, b)
}

fn once_or_many(alloc: Global) -> Result<Explicit, AllocError> {
    let once = once(alloc)?;
    let many = many(alloc)?;
    either(alloc, &many, &once)
}

fn once_and_many(alloc: Global) -> Result<Explicit, AllocError> {
    let once = once(alloc)?;
    let many = many(alloc)?;
    after(alloc, &many, &once)
}

// Whether a shortest word of either is empty, and one of both in turn is `ab`.
fn joins_tell(alloc: Global) -> Result<bool, AllocError> {
    let either = once_or_many(alloc)?;
    let both = once_and_many(alloc)?;
    Ok(has_shortest(alloc, &either, &[])? && has_shortest(alloc, &both, &[A, B])?)
}

#[test]
fn machines_are_joined(rt: HostRuntime) -> Result<(), AllocError> {
    assert!(rt; joins_tell(rt.alloc())?);
    Ok(())
}
