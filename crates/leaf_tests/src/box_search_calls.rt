//! Totals of one register over three machines.
ghost use Rattle.std.specs.Prelude.{◌≡◌, ◌<◌, [], IfOk};
ghost use Rattle.search_hits.specs.Regions.{IsQuestion};

use box_search::search;
use machine_core::{Cost, Explicit};
use search_hits::Region;
use std::alloc::{AllocError, Global};
use sv_list::Items;
use sv_word::Ranges;

#[derive(Drop)]
struct Pieces {
    machines: Items<Explicit>,
    region: Region,
}

// The words over one character whose length is a multiple of `states`, each character at this cost at the one
// register.
fn multiples(alloc: Global, states: u32, cost: u64) -> Result<Explicit, AllocError>
    requires { 0 < states }
    ensures { IfOk result (λ m. m.registers ≡ 1) }
{
    let mut machine = Explicit::new(alloc, states, 1)?;
    for from in 0..states {
        let to = if from + 1 == states { 0 } else { from + 1 };
        let on = Ranges::of(alloc, 0x61, 0x61)?;
        machine.add_edge(from, on, Cost::from_slice(alloc, &[cost])?, to)?;
    }
    machine.add_end(0, Cost::zeros(alloc, 1)?)?;
    Ok(machine)
}

// Words that cost 3 a piece, words that cost 5 a piece and words that cost nothing, which are to cost so much together.
fn make_pieces(alloc: Global, total: u64) -> Result<Pieces, AllocError>
    ensures { IfOk result (λ p. IsQuestion p.machines 0 [] p.region) }
{
    let mut machines = Items::new(alloc);
    machines.push(multiples(alloc, 3, 1)?)?;
    machines.push(multiples(alloc, 2, 0)?)?;
    machines.push(multiples(alloc, 1, 5)?)?;
    let region = Region {
        empty: false,
        registers: Items::from_slice(alloc, &[(total, total)])?,
        integers: Items::new(alloc),
    };
    Ok(Pieces { machines, region })
}

// Whether there are such words.
fn is_reached(alloc: Global, total: u64) -> Result<bool, AllocError> {
    let pieces = make_pieces(alloc, total)?;
    let machines = pieces.machines.as_slice();
    match search(alloc, machines, 0, &[], &pieces.region)? {
        Some(hit) => Ok(hit.runs.len() == 3),
        None => Ok(false),
    }
}

#[test]
fn totals_of_pieces_of_3_and_5(rt: HostRuntime) -> Result<(), AllocError> {
    let alloc = rt.alloc();
    for (total, reached) in [
        (0, true),
        (1, false),
        (2, false),
        (3, true),
        (4, false),
        (5, true),
        (6, true),
        (7, false),
        (8, true),
        (63, true),
        (64, true),
        (65, true),
        (127, true),
        (128, true),
        (1000, true),
    ] {
        assert!(rt; is_reached(alloc, total)? == reached);
    }
    Ok(())
}
