ghost use Rattle.std.specs.Prelude.{◌≡◌, IfOk};

use crate::trim_search_calls::{has_shortest, two_letters};
use machine_core::Explicit;
use regex_machine::build;
use std::alloc::{AllocError, Global};
use subset_machine::Subset;
use sv_list::{Boxed, Items};
use sv_terms::Regex;
use sv_word::Word;
use trim_search::{BuildFault, materialise};

// Whether the lists of states have the word `ab` as the machine does.
fn lists_tell(alloc: Global) -> Result<bool, BuildFault> {
    let machine = two_letters(alloc)?;
    let built = materialise(alloc, &Subset::of(&machine, false), 9)?;
    Ok(has_shortest(alloc, &built.machine, &[0x61, 0x62])?)
}

#[test]
fn lists_have_the_words_of_the_machine(rt: HostRuntime) -> Result<(), BuildFault> {
    assert!(rt; lists_tell(rt.alloc())?);
    Ok(())
}

// The words over `a` and `b` that have an `a` before their last twenty letters.
fn early_letter(alloc: Global) -> Result<Regex, AllocError> {
    let mut letter = Word::new(alloc);
    letter.push(0x61)?;
    let mut parts = Items::new(alloc);
    parts.push(Regex::Star(Boxed::new(alloc, Regex::Range(0x61, 0x62))?))?;
    parts.push(Regex::Text(letter))?;
    parts.push(Regex::Loop(Boxed::new(alloc, Regex::Range(0x61, 0x62))?, 20, 20))?;
    Ok(Regex::Concat(parts))
}

pub(crate) fn machine_of_many_lists(alloc: Global) -> Result<Explicit, BuildFault>
    ensures { IfOk result (λ m. m.registers ≡ 0) }
{
    let regex = early_letter(alloc)?;
    build(alloc, &regex, 100)
}

// The number with which the lists of states of a machine are refused.
fn refusal(alloc: Global, machine: &Explicit, limit: u64) -> Option<u64>
    requires { machine.now.registers ≡ 0 }
{
    let lists = Subset::of(machine, false);
    match materialise(alloc, &lists, limit) {
        Err(BuildFault::States(n)) => Some(n),
        _ => None,
    }
}

#[test]
fn few_states_have_many_lists(rt: HostRuntime) -> Result<(), BuildFault> {
    let machine = machine_of_many_lists(rt.alloc())?;
    assert!(rt; refusal(rt.alloc(), &machine, 100) == Some(101));
    Ok(())
}
