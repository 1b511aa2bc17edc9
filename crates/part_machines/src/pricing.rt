//! Machines whose characters all cost the same.
ghost use Rattle.std.specs.Prelude.{◌≡◌, ◌<◌, [], ◌∷◌, ◌++◌, length, IfOk, OnOk, OnErr};
ghost use Rattle.part_machines.specs.Parts.{IsPriced, priced_edge};
ghost use Rattle.sv_word.specs.Ranges.{IsInhabited};

use machine_core::{Cost, Edge, Explicit, Machine};
use std::alloc::{AllocError, Global};
use sv_list::Copied;

/// The machine without registers, with a register for each number of `each`: each of its characters costs
/// `each`, and its ends cost nothing. Linear in the machine and the registers.
pub fn price(alloc: Global, machine: &Explicit, each: &Cost) -> Result<Explicit, AllocError>
    requires { machine.now.registers ≡ 0 }
    ensures { IfOk result (IsPriced each.now machine.now) }
{
    let registers = each.as_slice().len();
    let mut priced = Explicit::new(alloc, machine.states(), registers)?;
    for edge in machine.edges() {
        add_priced(alloc, &mut priced, edge, each)?;
    }
    for end in machine.finals() {
        priced.add_free_end(alloc, end)?;
    }
    Ok(priced)
}

// Adds the edge at the cost `each`.
fn add_priced(
    alloc: Global,
    priced: &mut Explicit,
    edge: &Edge,
    each: &Cost,
) -> Result<(), AllocError>
    requires from { edge.now.from < priced.old.states }
    requires to { edge.now.to < priced.old.states }
    requires on { IsInhabited edge.now.on }
    requires each { length each.now ≡ priced.old.registers }
    ensures states { priced.new.states ≡ priced.old.states }
    ensures registers { priced.new.registers ≡ priced.old.registers }
    ensures ends { priced.new.ends ≡ priced.old.ends }
    ensures ok { OnOk result (priced.new.edges ≡ priced.old.edges ++ priced_edge each.now edge.now ∷ []) }
    ensures err { OnErr result (priced.new.edges ≡ priced.old.edges) }
{
    let on = edge.on.copy(alloc)?;
    let cost = each.copy(alloc)?;
    priced.add_edge(edge.from, on, cost, edge.to)?;
    Ok(())
}
