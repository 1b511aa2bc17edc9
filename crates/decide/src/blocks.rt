//! Which cubes share literals, so that they need no work where these have no values, and when to ask for such.
ghost use Rattle.std.specs.Prelude.{◌≡◌, ◌<◌, ◌≤◌, ◌*◌, ◌+◌, ◌%◌, ◌||◌, ◌++◌, ◌∷◌, [], ℕ, IfOk, IfSome, OnOk, None, Some, true, false, drop, if◌then◌else◌, length, nat_lt, slice_get};
ghost use Rattle.std.specs.List.{AllByRecursion};
ghost use Rattle.bool_cubes.specs.Cubes.{cubes_of};
ghost use Rattle.bool_cubes.specs.Laws.{IsClearBool};
ghost use Rattle.bool_cubes.specs.Past.{HasNoPast};
ghost use Rattle.bool_cubes.specs.Refusing.{count_of, most_cubes};
ghost use Rattle.decide.specs.Passing.{GoesOn, is_single, shared_of};
ghost use Rattle.decide.specs.Tallies.{batch};

use crate::tally::BATCH;
use bool_cubes::{CubeFault, Cubes, count};
use literal_forms::Cube;
use std::alloc::{AllocError, Global};
use sv_list::Items;
use sv_terms::{MOST_CUBES, Term};

/// After how many batches literals that cubes share are asked about: after the next one, and after twice as many
/// whenever nothing came of it.
#[derive(Clone, Copy)]
pub struct Pace {
    left: u64,
    distance: u64,
}

impl Pace {
    /// Before the first batch.
    pub fn new() -> Pace {
        Pace {
            left: 1,
            distance: 1,
        }
    }

    /// One batch more: whether to ask now.
    pub fn is_due(&mut self) -> bool {
        self.left = self.left.saturating_sub(1);
        self.left == 0
    }

    /// What came of it: so many cubes are passed over.
    pub fn record(&mut self, cubes: u64) {
        self.distance = if cubes > 0 {
            1
        } else {
            self.distance.saturating_mul(2)
        };
        self.left = self.distance;
    }
}

/// Whether the term leaves no choice.
fn is_single(alloc: Global, term: &Term) -> Result<bool, AllocError>
    requires { IsClearBool term.now }
    ensures { IfOk result (λ single. single ≡ is_single term.now) }
{
    let cubes = count(alloc, std::slice::from_ref(term))?;
    Ok(cubes == 1)
}

/// Whether all cubes of one choice for the first terms share what the term at this place says.
fn is_shared(alloc: Global, term: &Term, at: usize, first: usize) -> Result<bool, AllocError>
    requires { IsClearBool term.now }
    ensures { IfOk result (λ shared. shared ≡ (nat_lt at first || is_single term.now)) }
{
    if at < first {
        return Ok(true);
    }
    is_single(alloc, term)
}

fn push_if_shared(
    alloc: Global,
    all: &mut Items<Term>,
    term: &Term,
    at: usize,
    first: usize,
) -> Result<(), AllocError>
    requires { IsClearBool term.now }
    ensures { OnOk result (all.new ≡ all.old ++ (if nat_lt at first || is_single term.now then term.now ∷ [] else [])) }
{
    if !is_shared(alloc, term, at, first)? {
        return Ok(());
    }
    all.push(term.copy(alloc)?)?;
    Ok(())
}

/// The first terms, and those of the others that leave no choice.
fn shared_terms(alloc: Global, terms: &[Term], first: usize) -> Result<Items<Term>, AllocError>
    requires { AllByRecursion IsClearBool terms.now }
    ensures { IfOk result (λ all. all ≡ shared_of first terms.now) }
{
    let mut all = Items::new(alloc);
    for at in 0..terms.len() {
        push_if_shared(alloc, &mut all, &terms[at], at, first)?;
    }
    Ok(all)
}

/// The literals that the cubes of this choice for the first terms share. `None` where there is no such choice.
pub fn shared_literals(
    alloc: Global,
    terms: &[Term],
    first: usize,
    choice: u64,
) -> Result<Option<Cube>, AllocError>
    requires { AllByRecursion IsClearBool terms.now }
    ensures some { IfOk result (λ o. IfSome o (λ cube. slice_get (cubes_of (shared_of first terms.now)) choice ≡ Some cube)) }
    ensures none { IfOk result (λ o. o ≡ None → choice < length (cubes_of (shared_of first terms.now)) → HasNoPast (shared_of first terms.now) → most_cubes < count_of (shared_of first terms.now)) }
{
    let shared = shared_terms(alloc, terms, first)?;
    match Cubes::new(alloc, shared.as_slice()) {
        Ok(mut cubes) => {
            cubes.skip(choice);
            let cube = cubes.next(alloc)?;
            Ok(cube)
        }
        Err(CubeFault::Memory(error)) => Err(error),
        Err(CubeFault::Past { left: _, right: _ }) => Ok(None),
        Err(CubeFault::TooMany(_)) => Ok(None),
    }
}

/// How many cubes make one choice for the first terms, one after another: 0 where they are too many.
pub fn block_of(alloc: Global, terms: &[Term], first: usize) -> Result<u64, AllocError>
    requires sorted { AllByRecursion IsClearBool terms.now }
    requires first { first ≤ length terms.now }
    ensures counted { IfOk result (λ block. 0 < block → block ≡ count_of (drop first terms.now)) }
    ensures few { IfOk result (λ block. count_of (drop first terms.now) ≤ most_cubes → block ≡ count_of (drop first terms.now)) }
    ensures most { IfOk result (λ block. block ≤ most_cubes) }
{
    let cubes = count(alloc, &terms[first..])?;
    if cubes > MOST_CUBES {
        return Ok(0);
    }
    Ok(cubes)
}

/// How many of the cubes behind so many are in the block in which the first of them is, in whole batches.
pub fn count_ahead(block: u64, given: u64) -> u64
    ensures whole { (batches : ℕ) × (result ≡ batches * batch) }
    ensures below { result ≤ block }
    ensures within { 0 < result → given % block + result ≤ block }
    ensures most { block < given % block + result + batch }
{
    if block == 0 {
        return 0;
    }
    (block - given % block) / (BATCH as u64) * (BATCH as u64)
}

/// Whether a block of one choice for so many first terms goes on for a whole batch.
fn goes_on(alloc: Global, terms: &[Term], given: u64, first: usize) -> Result<bool, AllocError>
    requires sorted { AllByRecursion IsClearBool terms.now }
    requires first { first ≤ length terms.now }
    ensures yes { IfOk result (λ goes. goes ≡ true → GoesOn terms.now given first) }
    ensures no { IfOk result (λ goes. goes ≡ false → GoesOn terms.now given first → ⊥) }
{
    let block = block_of(alloc, terms, first)?;
    Ok(count_ahead(block, given) > 0)
}

/// A number of first terms of which a block goes on for a whole batch, and with one more doesn't; 0 where none is
/// found. Found by halving.
pub fn longest_choice(alloc: Global, terms: &[Term], given: u64) -> Result<usize, AllocError>
    requires { AllByRecursion IsClearBool terms.now }
    ensures within { IfOk result (λ first. first ≤ length terms.now) }
    ensures some { IfOk result (λ first. 0 < first → GoesOn terms.now given first) }
    ensures most { IfOk result (λ first. first < length terms.now → GoesOn terms.now given (first + 1) → ⊥) }
{
    let mut least = 0;
    let mut most = terms.len();
    while least < most {
        let middle = most - (most - least) / 2;
        if goes_on(alloc, terms, given, middle)? {
            least = middle;
        } else {
            most = middle - 1;
        }
    }
    Ok(least)
}
