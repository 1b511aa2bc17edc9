//! Variables with two definitions, and cycles of definitions.
ghost use Rattle.std.specs.Prelude.{◌≡◌, ◌<◌, ◌≤◌, drop, length, replicate, slice_get, Some, None, IfOk};
ghost use Rattle.flat_cubes.specs.Using.{used};
ghost use Rattle.flat_cubes.specs.Flattening.{IsCycle, Uses};
ghost use Rattle.flat_cubes.specs.Straight.{HaveVariablesBelow};
ghost use Rattle.straight_line.specs.Tracing.{HasPlaces, IsPlacedExactly};
ghost use Rattle.straight_line.specs.Waiting.{IsAhead, AheadUsesAhead};
ghost use Rattle.flat_cubes.specs.declared.definition.Definition.{Definition as AnyDefinition};

use crate::ordering::next_ahead;
use flat_cubes::{Definition, FlatFault};
use std::alloc::{AllocError, Global};
use sv_list::Items;

/// The place of each variable's definition, where it has one; or the first variable that has two. Linear.
pub fn places(
    alloc: Global,
    variables: u32,
    definitions: &[Definition],
) -> Result<Items<Option<usize>>, FlatFault>
    requires { HaveVariablesBelow variables definitions.now }
    ensures { IsPlacedExactly variables definitions.now result }
{
    let mut places = no_places(alloc, variables as usize)?;
    for i in 0..definitions.len() {
        let variable = definitions[i].variable;
        if let Some(_first) = places.as_slice()[variable as usize] {
            return Err(FlatFault::Twice(variable));
        }
        places.set(variable as usize, Some(i));
    }
    Ok(places)
}

fn no_places(alloc: Global, count: usize) -> Result<Items<Option<usize>>, AllocError>
    ensures { IfOk result (λ places. places ≡ replicate count None) }
{
    Ok(Items::from_vec(vec![in alloc; None; count]?))
}

/// A cycle, found from a variable that is ahead by going to what its definition uses, until a variable comes
/// again. Linear in what the definitions on the way use.
pub fn cycle(
    alloc: Global,
    definitions: &[Definition],
    places: &[Option<usize>],
    ahead: &[bool],
    start: u32,
) -> Result<Items<u32>, AllocError>
    requires within { HaveVariablesBelow (length ahead.now) definitions.now }
    requires count { length places.now ≡ length ahead.now }
    requires places { HasPlaces definitions.now places.now }
    requires closed { AheadUsesAhead definitions.now ahead.now }
    requires start { IsAhead ahead.now start }
    ensures { IfOk result (IsCycle definitions.now) }
{
    let mut path = Items::new(alloc);
    let mut seen = no_places(alloc, ahead.len())?;
    let mut at = start;
    loop {
        if let Some(place) = seen.as_slice()[at as usize] {
            return copy_from(alloc, path.as_slice(), place);
        }
        seen.set(at as usize, Some(path.len()));
        path.push(at)?;
        at = next(definitions, places, ahead, at);
    }
}

/// The first variable that is ahead among those that the definition of this one uses.
fn next(definitions: &[Definition], places: &[Option<usize>], ahead: &[bool], variable: u32) -> u32
    requires within { HaveVariablesBelow (length ahead.now) definitions.now }
    requires count { length places.now ≡ length ahead.now }
    requires places { HasPlaces definitions.now places.now }
    requires closed { AheadUsesAhead definitions.now ahead.now }
    requires ahead { IsAhead ahead.now variable }
    ensures ahead { IsAhead ahead.now result }
    ensures uses { Uses definitions.now variable result }
{
    let Some(place) = places[variable as usize] else {
        unreachable!()
    };
    let used = uses_at(definitions, place);
    used[next_ahead(ahead, used, 0)]
}

/// What the definition at a place uses.
fn uses_at(definitions: &[Definition], place: usize) -> &[u32]
    requires { place < length definitions.now }
    ensures { (d : AnyDefinition) → slice_get definitions.now place ≡ Some d → result.now ≡ used d.by }
{
    definitions[place].by.uses()
}

/// What stands from a place on.
fn copy_from(alloc: Global, path: &[u32], place: usize) -> Result<Items<u32>, AllocError>
    requires { place ≤ length path.now }
    ensures { IfOk result (λ vs. vs ≡ drop place path.now) }
{
    Items::from_slice(alloc, &path[place..])
}
