//! Marking a part, and picking it.
ghost use Rattle.std.specs.Prelude.{◌≡◌, ◌↔◌, ◌*◌, ◌≤◌, ℕ, List, IfOk};
ghost use Rattle.sv_word.specs.Words.{IsWord};
ghost use Rattle.sv_terms.specs.TransducerSizes.{edges_most, ends_most};
ghost use Rattle.sv_terms.specs.Transduction.{IsFormed, Pairs, WritesWithin};
ghost use Rattle.segment_machines.specs.Marked.{IsMark, IsMarkEnd, IsPicked};
ghost use Rattle.segment_machines.specs.Relating.{Relates};

use crate::edges::{any_edge, pass_edge, phase_edge, take_edge};
use std::alloc::{AllocError, Global};
use sv_list::Items;
use sv_terms::Transducer;
use sv_word::Word;

fn mark_machine(alloc: Global) -> Result<Transducer, AllocError>
    ensures states { IfOk result (λ t. t.states ≡ 3) }
    ensures relates { IfOk result (λ t. Relates t IsMark 2 (λ n. 2 * n)) }
{
    let mut edges = Items::new(alloc);
    edges.push(any_edge(alloc, 0, 0, 0)?)?;
    edges.push(any_edge(alloc, 0, 1, 1)?)?;
    edges.push(any_edge(alloc, 1, 1, 1)?)?;
    edges.push(any_edge(alloc, 1, 2, 2)?)?;
    edges.push(any_edge(alloc, 2, 2, 2)?)?;
    let mut ends = Items::new(alloc);
    ends.push((1, Word::new(alloc)))?;
    ends.push((2, Word::new(alloc)))?;
    Ok(Transducer {
        states: 3,
        start: 0,
        edges,
        ends,
    })
}

fn end_machine(alloc: Global) -> Result<Transducer, AllocError>
    ensures states { IfOk result (λ t. t.states ≡ 2) }
    ensures relates { IfOk result (λ t. Relates t IsMarkEnd 2 (λ n. 2 * n)) }
{
    let mut edges = Items::new(alloc);
    edges.push(any_edge(alloc, 0, 0, 0)?)?;
    edges.push(any_edge(alloc, 0, 1, 1)?)?;
    edges.push(any_edge(alloc, 1, 1, 1)?)?;
    let mut ends = Items::new(alloc);
    ends.push((1, Word::new(alloc)))?;
    Ok(Transducer {
        states: 2,
        start: 0,
        edges,
        ends,
    })
}

fn pick_machine(alloc: Global, s: u32) -> Result<Transducer, AllocError>
    ensures states { IfOk result (λ t. t.states ≡ 3) }
    ensures relates { IfOk result (λ t. Relates t (IsPicked s) 1 (λ n. n)) }
{
    let mut edges = Items::new(alloc);
    edges.push(phase_edge(alloc, s, 0))?;
    edges.push(phase_edge(alloc, s, 1))?;
    edges.push(phase_edge(alloc, s, 2))?;
    edges.push(take_edge(alloc)?)?;
    edges.push(pass_edge(alloc))?;
    let mut ends = Items::new(alloc);
    ends.push((0, Word::new(alloc)))?;
    Ok(Transducer {
        states: 3,
        start: 0,
        edges,
        ends,
    })
}

/// The transducer that puts a part of a word into phase 1, at least one character, and what is before and
/// after it into phases 0 and 2. It relates each word to one marked word for each such part. It has 3
/// states, and fails only for lack of memory. Constant time.
pub fn mark(alloc: Global) -> Result<Transducer, AllocError>
    ensures formed { IfOk result IsFormed }
    ensures states { IfOk result (λ t. t.states ≡ 3) }
    ensures exact { IfOk result (λ t. (read written : List ℕ) → Pairs t read written ↔ (IsWord read × IsMark read written)) }
    ensures growth { IfOk result (λ t. WritesWithin t (λ n. 2 * n)) }
    ensures most { IfOk result (λ t. edges_most t.edges ≤ 2) }
    ensures nothing { IfOk result (λ t. ends_most t.ends ≡ 0) }
{
    Ok(mark_machine(alloc)?)
}

/// The transducer that puts an end of a word into phase 1, at least one character, and what is before it
/// into phase 0. It has 2 states, and fails only for lack of memory. Constant time.
pub fn mark_end(alloc: Global) -> Result<Transducer, AllocError>
    ensures formed { IfOk result IsFormed }
    ensures states { IfOk result (λ t. t.states ≡ 2) }
    ensures exact { IfOk result (λ t. (read written : List ℕ) → Pairs t read written ↔ (IsWord read × IsMarkEnd read written)) }
    ensures growth { IfOk result (λ t. WritesWithin t (λ n. 2 * n)) }
    ensures most { IfOk result (λ t. edges_most t.edges ≤ 2) }
    ensures nothing { IfOk result (λ t. ends_most t.ends ≡ 0) }
{
    Ok(end_machine(alloc)?)
}

/// The transducer that relates a marked word to its characters in the phase `s`, which is at most 2. It
/// doesn't look whether phases fall: it takes any word with a phase before each character. It has 3 states,
/// and fails only for lack of memory. Constant time.
pub fn pick(alloc: Global, s: u32) -> Result<Transducer, AllocError>
    requires { s ≤ 2 }
    ensures formed { IfOk result IsFormed }
    ensures states { IfOk result (λ t. t.states ≡ 3) }
    ensures exact { IfOk result (λ t. (read written : List ℕ) → Pairs t read written ↔ (IsWord read × IsPicked s read written)) }
    ensures growth { IfOk result (λ t. WritesWithin t (λ n. n)) }
    ensures most { IfOk result (λ t. edges_most t.edges ≤ 1) }
    ensures nothing { IfOk result (λ t. ends_most t.ends ≡ 0) }
{
    Ok(pick_machine(alloc, s)?)
}
