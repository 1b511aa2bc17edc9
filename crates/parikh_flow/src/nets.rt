//! The nets of machines.
ghost use Rattle.std.specs.Prelude.{◌≡◌, ◌+◌, ◌<◌, ◌^◌, length, IfOk};
ghost use Rattle.parikh_flow.specs.Counts.{size_of};
ghost use Rattle.parikh_flow.specs.Nets.{net_edges, net_of, nets_of};
ghost use Rattle.parikh_flow.specs.Rows.{unknowns_after};

use crate::sizes::next_base;
use farkas_check::{Net, NetEdge};
use machine_core::{Edge, Explicit};
use std::alloc::{AllocError, Global};
use sv_list::Items;

// The edges, counted by the unknowns from `base` on.
fn net_edges(alloc: Global, edges: &[Edge], base: u32) -> Result<Items<NetEdge>, AllocError>
    requires { base + length edges.now < 2 ^ 32 }
    ensures { IfOk result (λ list. list ≡ net_edges base edges.now) }
{
    let mut list = Items::new(alloc);
    let mut unknown = base;
    for edge in edges {
        list.push(NetEdge {
            from: edge.from,
            to: edge.to,
            unknown,
        })?;
        unknown += 1;
    }
    Ok(list)
}

// The net of a machine.
fn net_of(alloc: Global, machine: &Explicit, base: u32) -> Result<Net, AllocError>
    requires { base + size_of machine.now < 2 ^ 32 }
    ensures { IfOk result (λ net. net ≡ net_of base machine.now) }
{
    let edges = net_edges(alloc, machine.edges(), base)?;
    Ok(Net {
        states: machine.states(),
        start: 0,
        edges,
    })
}

/// The net of each machine, whose unknowns begin at `base`. Linear in the machines.
pub fn nets_of(alloc: Global, machines: &[Explicit], base: u32) -> Result<Items<Net>, AllocError>
    requires { unknowns_after base machines.now < 2 ^ 32 }
    ensures { IfOk result (λ nets. nets ≡ nets_of base machines.now) }
{
    let mut nets = Items::new(alloc);
    let mut next = base;
    for machine in machines {
        nets.push(net_of(alloc, machine, next)?)?;
        next = next_base(machine, next);
    }
    Ok(nets)
}
