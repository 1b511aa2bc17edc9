ghost use Rattle.std.specs.Prelude.{◌≡◌, ◌≤◌, ◌<◌, IfOk};
ghost use Rattle.sv_word.specs.Words.{greatest_character};

use machine_core::{Cost, Explicit};
use regex_machine::build;
use std::alloc::{AllocError, Global};
use sv_terms::Regex;
use sv_word::{Ranges, Word};
use trim_search::{BuildFault, materialise, shortest, trim};

// Whether this is a shortest word of the machine.
pub(crate) fn has_shortest(
    alloc: Global,
    machine: &Explicit,
    text: &[u32],
) -> Result<bool, AllocError> {
    match shortest(alloc, machine)? {
        None => Ok(false),
        Some(run) => Ok(run.word.as_slice() == text),
    }
}

// The machine of the word `ab`.
pub(crate) fn two_letters(alloc: Global) -> Result<Explicit, BuildFault>
    ensures { IfOk result (λ m. m.registers ≡ 0) }
{
    let mut word = Word::new(alloc);
    word.push(0x61)?;
    word.push(0x62)?;
    build(alloc, &Regex::Text(word), 3)
}

// The number with which a machine is refused.
fn refusal(alloc: Global, machine: &Explicit, limit: u64) -> Option<u64> {
    match materialise(alloc, machine, limit) {
        Err(BuildFault::States(n)) => Some(n),
        _ => None,
    }
}

#[test]
fn more_states_than_the_limit(rt: HostRuntime) -> Result<(), BuildFault> {
    let machine = two_letters(rt.alloc())?;
    assert!(rt;
        refusal(rt.alloc(), &machine, 2) == Some(3) && refusal(rt.alloc(), &machine, 3).is_none()
    );
    Ok(())
}

fn add_edge(
    alloc: Global,
    machine: &mut Explicit,
    from: u32,
    on: u32,
    to: u32,
) -> Result<(), AllocError>
    requires from { from < machine.old.states }
    requires to { to < machine.old.states }
    requires on { on ≤ greatest_character }
    requires registers { machine.old.registers ≡ 0 }
    ensures states { machine.new.states ≡ machine.old.states }
    ensures registers { machine.new.registers ≡ 0 }
{
    let on = Ranges::of(alloc, on, on)?;
    machine.add_edge(from, on, Cost::new(alloc), to)
}

// `a` and `c` are read, by an edge each.
fn letters(alloc: Global) -> Result<Explicit, AllocError>
    ensures states { IfOk result (λ m. m.states ≡ 2) }
    ensures registers { IfOk result (λ m. m.registers ≡ 0) }
{
    let mut machine = Explicit::new(alloc, 2, 0)?;
    add_edge(alloc, &mut machine, 0, 0x61, 1)?;
    add_edge(alloc, &mut machine, 0, 0x63, 1)?;
    machine.add_end(1, Cost::new(alloc))?;
    Ok(machine)
}

#[test]
fn edges_to_one_state_are_one(rt: HostRuntime) -> Result<(), BuildFault> {
    let machine = letters(rt.alloc())?;
    let built = materialise(rt.alloc(), &machine, 2)?;
    assert!(rt; built.machine.edges().len() == 1);
    assert!(rt; trim(rt.alloc(), &machine)?.edges().len() == 1);
    Ok(())
}
