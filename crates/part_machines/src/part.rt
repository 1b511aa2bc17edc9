//! The machine of one part.
ghost use Rattle.std.specs.Prelude.{◌≡◌, ℕ, ◌+◌, ◌≤◌, ◌<◌, Err, IfOk, if◌then◌else◌, length};
ghost use Rattle.trim_search.specs.declared.build_fault.BuildFault.TheVariants.{States};
ghost use Rattle.cube_bounds.specs.Bounds.{part_bound};
ghost use Rattle.flat_cubes.specs.declared.variable.Own.TheVariants.{InRe};
ghost use Rattle.sv_terms.specs.Bounds.{size};
ghost use Rattle.sv_terms.specs.declared.regex.Regex.TheVariants.{Comp};
ghost use Rattle.part_machines.specs.Chains.{follows, ranges_of as ranges_of_word};
ghost use Rattle.part_machines.specs.Kept.{IsMachineOf};
ghost use Rattle.part_machines.specs.Parts.{Decides, IsOfPart};
ghost use Rattle.part_machines.specs.Patterns.{finds};

use crate::chains::{chain, ranges_of};
use crate::machines::Machines;
use crate::pattern::pattern_machine;
use flat_cubes::Own;
use machine_core::Explicit;
use std::alloc::{AllocError, Global};
use sv_list::{Boxed, Copied};
use sv_terms::{Regex, languages_are_words};
use sv_word::Word;
use trim_search::BuildFault;

/// No machine that is made for a variable has more states.
pub const MOST_STATES: u64 = 262_144;

// Whether a machine along the characters of the word is within the limit.
fn check_length(word: &Word) -> Result<(), BuildFault>
    ensures fits { IfOk result (λ _. length word.now + 1 ≤ MOST_STATES) }
    ensures refused { (n : ℕ) → result ≡ Err (States n) → MOST_STATES < length word.now + 1 }
{
    let length = word.len() as u64;
    if length >= MOST_STATES {
        return Err(BuildFault::States(length));
    }
    Ok(())
}

/// The machine of the expression, as it is kept.
pub fn kept_machine(
    alloc: Global,
    regex: &Regex,
    machines: &Machines,
) -> Result<Explicit, BuildFault>
    ensures machine { IfOk result (IsMachineOf regex.now) }
    ensures refused { (n : ℕ) → result ≡ Err (States n) → MOST_STATES < size regex.now }
{
    let found = machines.find_or_build(alloc, regex)?;
    match found.value().machine() {
        Some(machine) => Ok(machine.copy(alloc)?),
        None => Err(BuildFault::States(MOST_STATES + 1)),
    }
}

/// The machine of the expression for a product with others: the least one, where that is sought.
pub fn least_machine(
    alloc: Global,
    regex: &Regex,
    machines: &Machines,
) -> Result<Explicit, BuildFault>
    ensures machine { IfOk result (IsMachineOf regex.now) }
    ensures refused { (n : ℕ) → result ≡ Err (States n) → MOST_STATES < size regex.now }
{
    let found = machines.find_or_make_least(alloc, regex)?;
    match found.value().machine() {
        Some(machine) => Ok(machine.copy(alloc)?),
        None => Err(BuildFault::States(MOST_STATES + 1)),
    }
}

// All words that aren't of the expression, as an expression.
fn others_of(alloc: Global, regex: &Regex) -> Result<Regex, AllocError>
    ensures { IfOk result (λ others. others ≡ Comp regex.now) }
{
    let part = Boxed::new(alloc, regex.copy(alloc)?)?;
    Ok(Regex::Comp(part))
}

// The words of the expression, or without `holds` all others.
fn language(
    alloc: Global,
    regex: &Regex,
    holds: bool,
    machines: &Machines,
) -> Result<Explicit, BuildFault>
    ensures machine { IfOk result (IsOfPart (InRe regex.now, holds)) }
    ensures refused { (n : ℕ) → result ≡ Err (States n) → MOST_STATES < part_bound (InRe regex.now, holds) }
{
    if holds {
        return kept_machine(alloc, regex, machines);
    }
    languages_are_words();
    let others = others_of(alloc, regex)?;
    kept_machine(alloc, &others, machines)
}

// Of the word's characters one after the other, with `longer` and whatever follows; within the limit.
fn word_chain(alloc: Global, word: &Word, longer: bool, holds: bool) -> Result<Explicit, BuildFault>
    ensures machine { IfOk result (Decides (follows longer (ranges_of_word word.now)) holds (length (ranges_of_word word.now) + (if holds then 1 else 2))) }
    ensures refused { (n : ℕ) → result ≡ Err (States n) → MOST_STATES < length word.now + 1 }
{
    check_length(word)?;
    let ranges = ranges_of(alloc, word)?;
    Ok(chain(alloc, ranges.as_slice(), longer, holds)?)
}

// Of the words where the word occurs, with `stays` anywhere, or else at the end; within the limit.
fn word_pattern(
    alloc: Global,
    word: &Word,
    stays: bool,
    holds: bool,
) -> Result<Explicit, BuildFault>
    ensures machine { IfOk result (Decides (finds stays word.now) holds (length word.now + 1)) }
    ensures refused { (n : ℕ) → result ≡ Err (States n) → MOST_STATES < length word.now + 1 }
{
    check_length(word)?;
    Ok(pattern_machine(alloc, word, stays, holds)?)
}

/// The machine of a part: without registers, it reads exactly the words that meet the part, and has at most
/// as many states as its bound.
///
/// `States` comes only where the bound is above [`MOST_STATES`]. What isn't reached takes no state, so that a
/// regular expression may have its machine though its bound is above it.
///
/// All but a regular expression takes time linear in the part's word, but for a factor logarithmic in it
/// where the word is sought; a regular expression takes that of its exploration where `machines` has no machine
/// of it yet, and of a copy of it.
pub fn part_machine(
    alloc: Global,
    part: &(Own, bool),
    machines: &Machines,
) -> Result<Explicit, BuildFault>
    ensures machine { IfOk result (IsOfPart part.now) }
    ensures refused { (n : ℕ) → result ≡ Err (States n) → MOST_STATES < part_bound part.now }
{
    let holds = part.1;
    match &part.0 {
        Own::Word(word) => word_chain(alloc, word, false, holds),
        Own::Prefix(word) => word_chain(alloc, word, true, holds),
        Own::Digit => Ok(chain(alloc, &[(0x30, 0x39)], false, holds)?),
        Own::Contains(word) => word_pattern(alloc, word, true, holds),
        Own::Suffix(word) => word_pattern(alloc, word, false, holds),
        Own::InRe(regex) => language(alloc, regex, holds, machines),
    }
}

/// The machine of a part for a product with others: that of an expression is the least one, where that is sought. Refusals
/// and time are as for [`part_machine`], and the least machine is made once.
pub fn machine_to_meet(
    alloc: Global,
    part: &(Own, bool),
    machines: &Machines,
) -> Result<Explicit, BuildFault>
    ensures machine { IfOk result (IsOfPart part.now) }
    ensures refused { (n : ℕ) → result ≡ Err (States n) → MOST_STATES < part_bound part.now }
{
    match part {
        (Own::InRe(regex), true) => least_machine(alloc, regex, machines),
        _ => part_machine(alloc, part, machines),
    }
}
