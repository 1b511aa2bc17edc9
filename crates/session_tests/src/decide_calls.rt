//! Two cubes of small assertions on a word, which two threads refute at once.
ghost use Rattle.std.specs.Prelude.{◌≡◌, ◌≤◌, ◌∷◌, [], IfOk};
ghost use Rattle.sv_terms.specs.declared.sort.Sort.TheVariants as sort;
ghost use Rattle.decide.specs.Samples.{IsSample};

use decide::{Verdict, check};
use par_phase::Gate;
use std::alloc::{AllocError, Global};
use std::sync::atomic::{AtomicBool, Ordering};
use std::test::Fail;
use std::thread::Threads;
use sv_list::{Boxed, Items};
use sv_terms::{Name, Op, Regex, Sort, Term};
use sv_word::Word;

// The one constant, x.
fn constant(alloc: Global) -> Result<Term, AllocError>
    ensures { IfOk result (IsSample sort.String) }
{
    let name = Name::of(alloc, b"x")?;
    Ok(Term::Constant(name, Sort::String))
}

fn word_of(alloc: Global, letter: u8) -> Result<Word, AllocError> {
    let mut word = Word::new(alloc);
    word.push(u32::from(letter))?;
    Ok(word)
}

fn pair(alloc: Global, first: Term, second: Term) -> Result<Items<Term>, AllocError>
    ensures { IfOk result (λ terms. terms ≡ first ∷ second ∷ []) }
{
    let mut terms = Items::new(alloc);
    terms.push(first)?;
    terms.push(second)?;
    Ok(terms)
}

// x is the letter.
fn is_letter(alloc: Global, letter: u8) -> Result<Term, AllocError>
    ensures { IfOk result (IsSample sort.Bool) }
{
    let constant = constant(alloc)?;
    let word = word_of(alloc, letter)?;
    let terms = pair(alloc, constant, Term::Text(word))?;
    Ok(Term::Apply(Op::Equal, terms))
}

fn either(alloc: Global, first: Term, second: Term) -> Result<Term, AllocError>
    requires first { IsSample sort.Bool first }
    requires second { IsSample sort.Bool second }
    ensures { IfOk result (IsSample sort.Bool) }
{
    let terms = pair(alloc, first, second)?;
    Ok(Term::Apply(Op::Or, terms))
}

// x is one of the two letters from this one on.
fn one_of_two(alloc: Global, first: u8) -> Result<Term, AllocError>
    ensures { IfOk result (IsSample sort.Bool) }
{
    let left = is_letter(alloc, first)?;
    let right = is_letter(alloc, first.wrapping_add(1))?;
    Ok(either(alloc, left, right)?)
}

fn is_in(alloc: Global, regex: Regex) -> Result<Term, AllocError>
    ensures { IfOk result (IsSample sort.Bool) }
{
    let constant = constant(alloc)?;
    let boxed = Boxed::new(alloc, constant)?;
    Ok(Term::InRe(boxed, regex))
}

fn verdict_on<R: Threads + Sync, G: Gate + Sync>(
    rt: &R,
    alloc: Global,
    first: Term,
    second: Term,
    workers: u32,
    gate: &G,
) -> Result<Verdict, AllocError>
    requires workers { 1 ≤ workers }
    requires first { IsSample sort.Bool first }
    requires second { IsSample sort.Bool second }
{
    let terms = pair(alloc, first, second)?;
    let verdict = check(rt, alloc, terms.as_slice(), workers, gate)?;
    Ok(verdict)
}

// Holds the first cube until the second has arrived, for so many turns at the most.
#[derive(Drop)]
struct Meeting {
    arrived: AtomicBool,
    met: AtomicBool,
}

const TURNS: u64 = 1_000_000_000;

impl Gate for Meeting {
    fn arrive(&self, job: u64) {
        if job == 1 {
            self.arrived.store(true, Ordering::SeqCst);
            return;
        }
        for _ in 0..TURNS {
            if self.arrived.load(Ordering::SeqCst) {
                self.met.store(true, Ordering::SeqCst);
                return;
            }
        }
    }
}

// Whether two letters, of which none is in the regular expression, are refuted by two threads.
fn refutes_two<R: Threads + Sync>(
    rt: &R,
    alloc: Global,
    gate: &Meeting,
) -> Result<bool, AllocError> {
    let letters = one_of_two(alloc, b'a')?;
    let none = is_in(alloc, Regex::Empty)?;
    let verdict = verdict_on(rt, alloc, letters, none, 2, gate)?;
    Ok(matches!(verdict, Verdict::Unsat(_)))
}

#[test]
fn two_cubes_are_under_way_at_once(rt: HostRuntime) -> Result<(), Fail> {
    let gate = Meeting {
        arrived: AtomicBool::new(false),
        met: AtomicBool::new(false),
    };
    assert!(rt; refutes_two(&rt, rt.alloc(), &gate)?);
    assert!(rt; gate.met.load(Ordering::SeqCst));
    Ok(())
}
