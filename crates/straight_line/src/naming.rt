//! Definitions of places as definitions of variables.
ghost use Rattle.std.specs.Prelude.{◌≡◌, map, length, get_or, IfOk};
ghost use Rattle.flat_cubes.specs.Using.{used};
ghost use Rattle.flat_cubes.specs.Flattening.{renamed};
ghost use Rattle.straight_line.specs.Leading.{AreDefinitionsBelow, definition_by};
ghost use Rattle.flat_cubes.specs.Straight.{AreBelow};

use flat_cubes::{By, Definition};
use std::alloc::{AllocError, Global};
use sv_list::Items;

/// The definitions of variables, by the variables of places. Linear in all that the definitions use.
pub fn definitions(
    alloc: Global,
    of: &[u32],
    met: Items<(u32, By)>,
) -> Result<Items<Definition>, AllocError>
    requires { AreDefinitionsBelow (length of.now) met }
    ensures { IfOk result (λ ds. ds ≡ map (definition_by (λ i. get_or of.now i 0)) met) }
{
    let mut definitions = Items::new(alloc);
    for (place, by) in met.into_vec() {
        let variable = of[place as usize];
        let by = rename(alloc, of, by)?;
        definitions.push(Definition { variable, by })?;
    }
    Ok(definitions)
}

fn rename(alloc: Global, of: &[u32], by: By) -> Result<By, AllocError>
    requires { AreBelow (length of.now) (used by) }
    ensures { IfOk result (λ b. b ≡ renamed (λ i. get_or of.now i 0) by) }
{
    match by {
        By::Concat(places) => Ok(By::Concat(rename_all(alloc, of, places.as_slice())?)),
        By::First(pattern, new, place) => Ok(By::First(pattern, new, of[place as usize])),
        By::All(pattern, new, place) => Ok(By::All(pattern, new, of[place as usize])),
        By::Through(transducer, place) => Ok(By::Through(transducer, of[place as usize])),
    }
}

fn rename_all(alloc: Global, of: &[u32], places: &[u32]) -> Result<Items<u32>, AllocError>
    requires { AreBelow (length of.now) places.now }
    ensures { IfOk result (λ vs. vs ≡ map (λ i. get_or of.now i 0) places.now) }
{
    let mut variables = Items::new(alloc);
    for place in places {
        variables.push(of[*place as usize])?;
    }
    Ok(variables)
}
