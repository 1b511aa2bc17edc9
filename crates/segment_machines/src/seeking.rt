//! Marking up to an occurrence, or where there is none.
ghost use Rattle.std.specs.Prelude.{◌≡◌, ◌↔◌, ◌+◌, ◌*◌, ◌<◌, ◌≤◌, ◌^◌, ℕ, List, [], length, IfOk};
ghost use Rattle.sv_word.specs.Words.{IsWord};
ghost use Rattle.sv_terms.specs.TransducerSizes.{edges_most, ends_most};
ghost use Rattle.sv_terms.specs.Transduction.{IsFormed, Pairs, WritesWithin};
ghost use Rattle.segment_machines.specs.Marked.{IsMarkAbsent, IsMarkFound};
ghost use Rattle.segment_machines.specs.Relating.{Relates};

use crate::edges::{empty_ends, seek_edges};
use std::alloc::{AllocError, Global};
use sv_list::Items;
use sv_terms::Transducer;
use sv_word::Word;

fn found_machine(alloc: Global, pattern: &Word) -> Result<Transducer, AllocError>
    requires filled { pattern.now ≡ [] → ⊥ }
    requires size { length pattern.now + 2 < 2 ^ 32 }
    ensures states { IfOk result (λ t. t.states ≡ length pattern.now + 2) }
    ensures relates { IfOk result (λ t. Relates t (IsMarkFound pattern.now) 2 (λ n. 2 * n)) }
{
    let after = pattern.len() as u32;
    let first = after + 1;
    let edges = seek_edges(alloc, pattern, first)?;
    let mut ends = Items::new(alloc);
    ends.push((after, Word::new(alloc)))?;
    Ok(Transducer {
        states: after + 2,
        start: first,
        edges,
        ends,
    })
}

fn absent_machine(alloc: Global, pattern: &Word) -> Result<Transducer, AllocError>
    requires filled { pattern.now ≡ [] → ⊥ }
    requires size { length pattern.now + 2 < 2 ^ 32 }
    ensures states { IfOk result (λ t. t.states ≡ length pattern.now + 1) }
    ensures relates { IfOk result (λ t. Relates t (IsMarkAbsent pattern.now) 2 (λ n. 2 * n)) }
{
    let first = pattern.len() as u32;
    let edges = seek_edges(alloc, pattern, first)?;
    let ends = empty_ends(alloc, first + 1)?;
    Ok(Transducer {
        states: first + 1,
        start: first,
        edges,
        ends,
    })
}

/// The transducer that puts into phase 1 the shortest piece that ends with an occurrence of the pattern,
/// from any place on, what is before it into phase 0 and what is after it into phase 2. An occurrence that
/// begins in phase 0 doesn't count, and a word without the pattern is related to nothing. The pattern isn't
/// empty. There are two states more than it has characters. Fails only for lack of memory; a pattern of
/// 2^32 - 2 characters and more, for which states can't be numbered, counts as such. Linear in the pattern.
pub fn mark_found(alloc: Global, pattern: &Word) -> Result<Transducer, AllocError>
    requires { pattern.now ≡ [] → ⊥ }
    ensures formed { IfOk result IsFormed }
    ensures states { IfOk result (λ t. t.states ≡ length pattern.now + 2) }
    ensures exact { IfOk result (λ t. (read written : List ℕ) → Pairs t read written ↔ (IsWord read × IsMarkFound pattern.now read written)) }
    ensures growth { IfOk result (λ t. WritesWithin t (λ n. 2 * n)) }
    ensures most { IfOk result (λ t. edges_most t.edges ≤ 2) }
    ensures nothing { IfOk result (λ t. ends_most t.ends ≡ 0) }
{
    if pattern.len() >= u32::MAX as usize - 1 {
        return Err(AllocError);
    }
    Ok(found_machine(alloc, pattern)?)
}

/// The transducer that puts an end of a word in which the pattern doesn't occur into phase 1, and what is
/// before it into phase 0. The end may be empty, and the pattern isn't. There is one state more than the
/// pattern has characters. Fails as [`mark_found`] does. Linear in the pattern.
pub fn mark_absent(alloc: Global, pattern: &Word) -> Result<Transducer, AllocError>
    requires { pattern.now ≡ [] → ⊥ }
    ensures formed { IfOk result IsFormed }
    ensures states { IfOk result (λ t. t.states ≡ length pattern.now + 1) }
    ensures exact { IfOk result (λ t. (read written : List ℕ) → Pairs t read written ↔ (IsWord read × IsMarkAbsent pattern.now read written)) }
    ensures growth { IfOk result (λ t. WritesWithin t (λ n. 2 * n)) }
    ensures most { IfOk result (λ t. edges_most t.edges ≤ 2) }
    ensures nothing { IfOk result (λ t. ends_most t.ends ≡ 0) }
{
    if pattern.len() >= u32::MAX as usize - 1 {
        return Err(AllocError);
    }
    Ok(absent_machine(alloc, pattern)?)
}
