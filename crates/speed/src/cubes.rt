//! Cubes: all those of many choices, and the flat form of a long one.
ghost use Rattle.std.specs.Prelude.{◌≡◌, ◌∷◌, [], IfOk, IfSome};
ghost use Rattle.std.specs.List.{AllByRecursion};
ghost use Rattle.bool_cubes.specs.Laws.{IsFittingCube, IsClearBool};
ghost use Rattle.flat_cubes.specs.Straight.{IsStraight};

use crate::stopwatch::Stopwatch;
use crate::texts::word;
use bool_cubes::{CubeFault, Cubes, literals_fit};
use cube_bounds::numbers;
use flat_cubes::Flat;
use literal_forms::Cube;
use std::alloc::{AllocError, Global};
use straight_line::flatten;
use sv_list::{Boxed, Items};
use sv_terms::{Name, Op, Regex, Sort, Term};

const CHOICES: u32 = 20;

const LITERALS: u32 = 10_000;

// A letter and the four lowest digits of a number.
fn name(alloc: Global, letter: u8, number: u32) -> Result<Name, AllocError> {
    let mut text = Vec::from_slice(alloc, &[letter])?;
    for place in [1_000, 100, 10, 1] {
        text.push(b'0' + (number / place % 10) as u8)?;
    }
    Name::of(alloc, &text)
}

fn pair(alloc: Global, left: Term, right: Term) -> Result<Items<Term>, AllocError>
    ensures { IfOk result (λ ts. ts ≡ left ∷ right ∷ []) }
{
    let mut terms = Items::new(alloc);
    terms.push(left)?;
    terms.push(right)?;
    Ok(terms)
}

// One of two Bool constants.
fn choice(alloc: Global, number: u32) -> Result<Term, AllocError>
    ensures { IfOk result IsClearBool }
{
    let left = Term::Constant(name(alloc, b'p', number)?, Sort::Bool);
    let right = Term::Constant(name(alloc, b'q', number)?, Sort::Bool);
    Ok(Term::Apply(Op::Or, pair(alloc, left, right)?))
}

// A word of one character.
fn membership(alloc: Global, number: u32) -> Result<Term, AllocError>
    ensures { IfOk result IsClearBool }
{
    let text = Term::Constant(name(alloc, b'x', number)?, Sort::String);
    Ok(Term::InRe(Boxed::new(alloc, text)?, Regex::AnyChar))
}

// A word is the one four before it, and an `a`.
fn definition(alloc: Global, number: u32) -> Result<Term, AllocError>
    ensures { IfOk result IsClearBool }
{
    let before = Term::Constant(name(alloc, b'x', number.saturating_sub(4))?, Sort::String);
    let joined = Term::Apply(
        Op::Concat,
        pair(alloc, before, Term::Text(word(alloc, b"a")?))?,
    );
    let text = Term::Constant(name(alloc, b'x', number)?, Sort::String);
    Ok(Term::Apply(Op::Equal, pair(alloc, text, joined)?))
}

// One of fifty words has at most so many characters.
fn length(alloc: Global, number: u32) -> Result<Term, AllocError>
    ensures { IfOk result IsClearBool }
{
    let mut terms = Items::new(alloc);
    terms.push(Term::Constant(name(alloc, b'x', number % 50)?, Sort::String))?;
    let length = Term::Apply(Op::Length, terms);
    Ok(Term::Apply(
        Op::LessEqual,
        pair(alloc, length, Term::Number(i128::from(number)))?,
    ))
}

fn literal(alloc: Global, number: u32) -> Result<Term, AllocError>
    ensures { IfOk result IsClearBool }
{
    match number % 4 {
        0 => membership(alloc, number),
        1 => definition(alloc, number),
        2 => length(alloc, number),
        _ => Ok(Term::Constant(name(alloc, b'p', number)?, Sort::Bool)),
    }
}

#[tactic(auto, using(crate::proofs::Sorted::sorted_none, crate::proofs::Sorted::sorted_more))]
fn choices(alloc: Global) -> Result<Items<Term>, AllocError>
    ensures { IfOk result (λ ts. AllByRecursion IsClearBool ts) }
{
    let mut terms = Items::new(alloc);
    for number in 0..CHOICES {
        terms.push(choice(alloc, number)?)?;
    }
    Ok(terms)
}

#[tactic(auto, using(crate::proofs::Sorted::sorted_none, crate::proofs::Sorted::sorted_more))]
fn literals(alloc: Global) -> Result<Items<Term>, AllocError>
    ensures { IfOk result (λ ts. AllByRecursion IsClearBool ts) }
{
    let mut terms = Items::new(alloc);
    for number in 0..LITERALS {
        terms.push(literal(alloc, number)?)?;
    }
    Ok(terms)
}

// The literals of all cubes of the choices.
fn count_literals(alloc: Global) -> Result<u64, CubeFault> {
    let terms = choices(alloc)?;
    let mut cubes = Cubes::new(alloc, terms.as_slice())?;
    let mut literals = 0_u64;
    while let Some(cube) = cubes.next(alloc)? {
        literals = literals.saturating_add(cube.literals.len() as u64);
    }
    Ok(literals)
}

// The cube of the literals.
fn long_cube(alloc: Global) -> Result<Option<Cube>, CubeFault>
    ensures { IfOk result (λ o. IfSome o IsFittingCube) }
{
    literals_fit();
    let terms = literals(alloc)?;
    let mut cubes = Cubes::new(alloc, terms.as_slice())?;
    Ok(cubes.next(alloc)?)
}

fn measure_numbers(rt: HostRuntime, flat: &Flat)
    requires { IsStraight flat.now }
{
    let stopwatch = Stopwatch::start(rt);
    let growth = match numbers(rt.alloc(), flat) {
        Ok(numbers) => Some(numbers.growth),
        Err(_) => None,
    };
    stopwatch.stop(rt, "its growth", growth);
}

// The flat form of the cube, and its numbers.
fn measure_flat(rt: HostRuntime, cube: &Cube)
    requires { IsFittingCube cube.now }
{
    let work = "variables of a cube of 10,000 literals";
    let stopwatch = Stopwatch::start(rt);
    match flatten(rt.alloc(), cube) {
        Ok(flat) => {
            stopwatch.stop(rt, work, Some(flat.variables.len() as u64));
            measure_numbers(rt, &flat);
        }
        Err(_) => stopwatch.stop(rt, work, None),
    }
}

/// Prints the literals of all cubes of twenty choices, the variables of a long cube and its growth, and the time
/// that each takes.
pub fn measure(rt: HostRuntime) {
    let alloc = rt.alloc();
    let stopwatch = Stopwatch::start(rt);
    stopwatch.stop(
        rt,
        "literals of the cubes of twenty choices",
        count_literals(alloc).ok(),
    );
    if let Ok(Some(cube)) = long_cube(alloc) {
        measure_flat(rt, &cube);
    }
}
