//! Machines of single words and characters within a limit. Each is a function of its own, which keeps the frames of the
//! recursion over expressions small.
ghost use Rattle.std.specs.Prelude.{◌≡◌, ℕ, ◌≤◌, ◌+◌, [], ◌∷◌, length};
ghost use Rattle.sv_word.specs.Words.{IsWord, greatest_character};
ghost use Rattle.regex_machine.specs.Built.{Builds};

use crate::letters::{any_character, empty_word, everything, fit, nothing, range, text};
use machine_core::Explicit;
use std::alloc::Global;
use sv_word::Word;
use trim_search::BuildFault;

/// No word.
#[inline(never)]
pub fn no_word(alloc: Global, limit: u64) -> Result<Explicit, BuildFault>
    ensures { Builds (λ w. ⊥) 1 limit result }
{
    fit(nothing(alloc), limit)
}

/// Every word.
#[inline(never)]
pub fn any_word(alloc: Global, limit: u64) -> Result<Explicit, BuildFault>
    ensures { Builds IsWord 1 limit result }
{
    fit(everything(alloc), limit)
}

/// The empty word alone.
#[inline(never)]
pub fn no_character(alloc: Global, limit: u64) -> Result<Explicit, BuildFault>
    ensures { Builds (λ w. w ≡ []) 1 limit result }
{
    fit(empty_word(alloc), limit)
}

/// The words of one character.
#[inline(never)]
pub fn one_character(alloc: Global, limit: u64) -> Result<Explicit, BuildFault>
    ensures { Builds (λ w. (c : ℕ) × (c ≤ greatest_character) × (w ≡ c ∷ [])) 2 limit result }
{
    fit(any_character(alloc), limit)
}

/// This word alone. Linear in its length.
#[inline(never)]
pub fn one_word(alloc: Global, word: &Word, limit: u64) -> Result<Explicit, BuildFault>
    ensures { Builds (λ w. (w ≡ word.now) × IsWord w) (length word.now + 1) limit result }
{
    fit(text(alloc, word), limit)
}

/// The words of one character between two.
#[inline(never)]
pub fn one_between(alloc: Global, lo: u32, hi: u32, limit: u64) -> Result<Explicit, BuildFault>
    ensures { Builds (λ w. (c : ℕ) × (lo ≤ c) × (c ≤ hi) × (c ≤ greatest_character) × (w ≡ c ∷ [])) 2 limit result }
{
    fit(range(alloc, lo, hi), limit)
}
