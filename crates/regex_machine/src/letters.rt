//! Machines of single words and characters, without registers.
ghost use Rattle.std.specs.Prelude.{◌≡◌, ℕ, ◌≤◌, ◌+◌, [], ◌∷◌, length, min, nat_le, ◌&&◌, IsTrue, IfOk};
ghost use Rattle.sv_word.specs.Ranges.{in_ranges};
ghost use Rattle.sv_word.specs.Words.{IsWord, greatest_character};
ghost use Rattle.regex_machine.specs.Built.{FitsStates};
ghost use Rattle.regex_machine.specs.Joined.{HasWords};

use machine_core::{Cost, Explicit};
use std::alloc::{AllocError, Global};
use sv_word::{GREATEST_CHARACTER, Ranges, Word};
use trim_search::BuildFault;

/// What was made, and `States` where it has more than `limit` states.
#[inline(never)]
pub fn fit(made: Result<Explicit, AllocError>, limit: u64) -> Result<Explicit, BuildFault>
    ensures { FitsStates limit made result }
{
    match made {
        Ok(machine) => {
            if machine.states() as u64 > limit {
                return Err(BuildFault::States(limit + 1));
            }
            Ok(machine)
        }
        Err(e) => Err(BuildFault::Memory(e)),
    }
}

/// No word.
#[inline(never)]
pub fn nothing(alloc: Global) -> Result<Explicit, AllocError>
    ensures reads { IfOk result (HasWords (λ w. ⊥)) }
    ensures states { IfOk result (λ m. m.states ≤ 1) }
{
    Explicit::new(alloc, 1, 0)
}

/// Every word.
#[inline(never)]
pub fn everything(alloc: Global) -> Result<Explicit, AllocError>
    ensures reads { IfOk result (HasWords IsWord) }
    ensures states { IfOk result (λ m. m.states ≤ 1) }
{
    let mut machine = Explicit::new(alloc, 1, 0)?;
    let on = Ranges::all(alloc)?;
    let cost = Cost::new(alloc);
    machine.add_edge(0, on, cost, 0)?;
    let last = Cost::new(alloc);
    machine.add_end(0, last)?;
    Ok(machine)
}

/// The words of one character of the set.
pub fn one_of(alloc: Global, on: Ranges) -> Result<Explicit, AllocError>
    ensures reads { IfOk result (HasWords (λ w. (c : ℕ) × IsTrue (in_ranges on c) × (w ≡ c ∷ []))) }
    ensures states { IfOk result (λ m. m.states ≤ 2) }
{
    if on.is_empty() {
        return nothing(alloc);
    }
    let mut machine = Explicit::new(alloc, 2, 0)?;
    let cost = Cost::new(alloc);
    machine.add_edge(0, on, cost, 1)?;
    let last = Cost::new(alloc);
    machine.add_end(1, last)?;
    Ok(machine)
}

/// The words of one character.
#[inline(never)]
pub fn any_character(alloc: Global) -> Result<Explicit, AllocError>
    ensures reads { IfOk result (HasWords (λ w. (c : ℕ) × (c ≤ greatest_character) × (w ≡ c ∷ []))) }
    ensures states { IfOk result (λ m. m.states ≤ 2) }
{
    let on = Ranges::all(alloc)?;
    one_of(alloc, on)
}

// The number, or the last character where it is above that.
fn cut_off_at_last(n: u32) -> u32
    ensures { result ≡ min n greatest_character }
{
    n.min(GREATEST_CHARACTER)
}

/// The characters between two.
#[inline(never)]
pub fn between(alloc: Global, lo: u32, hi: u32) -> Result<Ranges, AllocError>
    ensures { IfOk result (λ on. (c : ℕ) → in_ranges on c ≡ (nat_le lo c && nat_le c (min hi greatest_character))) }
{
    let top = cut_off_at_last(hi);
    Ranges::of(alloc, lo, top)
}

/// The words of one character between two.
#[inline(never)]
pub fn range(alloc: Global, lo: u32, hi: u32) -> Result<Explicit, AllocError>
    ensures reads { IfOk result (HasWords (λ w. (c : ℕ) × (lo ≤ c) × (c ≤ hi) × (c ≤ greatest_character) × (w ≡ c ∷ []))) }
    ensures states { IfOk result (λ m. m.states ≤ 2) }
{
    let top = cut_off_at_last(hi);
    let on = Ranges::of(alloc, lo, top)?;
    one_of(alloc, on)
}

/// The empty word alone.
#[inline(never)]
pub fn empty_word(alloc: Global) -> Result<Explicit, AllocError>
    ensures reads { IfOk result (HasWords (λ w. w ≡ [])) }
    ensures states { IfOk result (λ m. m.states ≤ 1) }
{
    let none = Word::new(alloc);
    text(alloc, &none)
}

/// This word alone. Linear in its length.
#[inline(never)]
pub fn text(alloc: Global, word: &Word) -> Result<Explicit, AllocError>
    ensures reads { IfOk result (HasWords (λ w. (w ≡ word.now) × IsWord w)) }
    ensures states { IfOk result (λ m. m.states ≤ length word.now + 1) }
{
    let characters = word.as_slice();
    word.is_word();
    let length = characters.len();
    if length >= u32::MAX as usize {
        return Err(AllocError);
    }
    let mut machine = Explicit::new(alloc, length as u32 + 1, 0)?;
    for place in 0..length {
        let on = Ranges::of(alloc, characters[place], characters[place])?;
        let cost = Cost::new(alloc);
        machine.add_edge(place as u32, on, cost, place as u32 + 1)?;
    }
    let last = Cost::new(alloc);
    machine.add_end(length as u32, last)?;
    Ok(machine)
}
