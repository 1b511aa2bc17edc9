//! The table of the cubes of assertions.
ghost use Rattle.std.specs.Prelude.{◌≡◌, Some};
ghost use Rattle.std.specs.List.{AllByRecursion};
ghost use Rattle.bool_cubes.specs.Laws.{IsFittingCube, IsClearBool};
ghost use Rattle.literal_forms.specs.Past.{IsFitting};
ghost use Rattle.sv_terms.specs.Sorting.{sort_of};
ghost use Rattle.sv_terms.specs.declared.sort.Sort.TheVariants as sort;

use crate::stop::TableStop;
use crate::straight::straighten;
use crate::text::Text;
use assertion_parts::clear_terms;
use bool_cubes::{CubeFault, Cubes, count, literals_fit};
use literal_forms::Cube;
use std::alloc::{AllocError, Global};
use sv_terms::Term;

/// Prints the cubes of those assertions that have no opaque part, each with its literals, its flat form and the
/// numbers of that, or with why it isn't straight.
#[tactic(auto, using(crate::proofs::Cleared::clear_sorted))]
pub fn print_table(rt: HostRuntime, live: &[Term]) -> Result<(), TableStop>
    requires { AllByRecursion (λ t. sort_of t ≡ Some sort.Bool) live.now }
{
    let alloc = rt.alloc();
    let terms = clear_terms(alloc, live)?;
    let mut head = Text::new(alloc);
    if terms.len() < live.len() {
        head.add("left out: ")?;
        head.number(live.len() - terms.len())?;
        head.add("\n")?;
    }
    head.add("cubes: ")?;
    head.number(count(alloc, terms.as_slice())?)?;
    head.add("\n")?;
    head.print(rt)?;
    print_cubes(rt, terms.as_slice())
}

fn print_cubes(rt: HostRuntime, terms: &[Term]) -> Result<(), TableStop>
    requires { AllByRecursion IsClearBool terms.now }
{
    literals_fit();
    let alloc = rt.alloc();
    match Cubes::new(alloc, terms) {
        Ok(cubes) => print_all(rt, cubes),
        Err(fault) => {
            let mut text = Text::new(alloc);
            refuse(&mut text, fault)?;
            text.print(rt)
        }
    }
}

// Why there is no list of cubes.
fn refuse(text: &mut Text, fault: CubeFault) -> Result<(), AllocError> {
    match fault {
        CubeFault::Past { left, right } => {
            text.add("past 128 bits: ")?;
            text.number(left)?;
            text.add(" and ")?;
            text.number(right)?;
            text.add("\n")
        }
        CubeFault::TooMany(_) => text.add("too many\n"),
        CubeFault::Memory(error) => Err(error),
    }
}

fn print_all(rt: HostRuntime, cubes: Cubes) -> Result<(), TableStop>
    requires { AllByRecursion IsFittingCube cubes }
{
    let alloc = rt.alloc();
    let mut left = cubes;
    let mut number = 0_u64;
    while let Some(cube) = left.next(alloc)? {
        let mut text = Text::new(alloc);
        add_cube(&mut text, alloc, number, &cube)?;
        text.print(rt)?;
        number = number.saturating_add(1);
    }
    Ok(())
}

fn add_cube(text: &mut Text, alloc: Global, number: u64, cube: &Cube) -> Result<(), AllocError>
    requires { AllByRecursion IsFitting cube.now.literals }
{
    text.add("cube ")?;
    text.number(number)?;
    let literals = cube.literals.as_slice();
    for i in 0..literals.len() {
        text.separate(i)?;
        text.literal_of_cube(alloc, &literals[i])?;
    }
    text.add("\n")?;
    match straighten(alloc, cube) {
        Ok(straight) => {
            text.flat(alloc, &straight.flat)?;
            text.measures(&straight.numbers)
        }
        Err(fault) => text.flat_fault(alloc, fault),
    }
}
