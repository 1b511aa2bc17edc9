//! Definitions moved to where their order has them.
ghost use Rattle.std.specs.Prelude.{◌≡◌, [], ◌++◌, map, get_or, slice_set, Some, None, IfOk, OnOk};
ghost use Rattle.straight_line.specs.Waiting.{AreDistinct, picked, with_one};

use flat_cubes::Definition;
use std::alloc::{AllocError, Global};
use sv_list::Items;

/// The definitions at these places, none of which stands twice. Each is moved, and none is copied.
pub fn arrange(
    alloc: Global,
    definitions: Items<Definition>,
    places: &[usize],
) -> Result<Items<Definition>, AllocError>
    requires { AreDistinct places.now }
    ensures { IfOk result (λ arranged. arranged ≡ picked definitions places.now) }
{
    let mut slots = slots(alloc, definitions)?;
    let mut arranged = Items::new(alloc);
    for place in places {
        transfer(&mut slots, *place, &mut arranged)?;
    }
    Ok(arranged)
}

/// Moves what is in a slot to the end of a list.
fn transfer(
    slots: &mut Vec<Option<Definition>>,
    place: usize,
    arranged: &mut Items<Definition>,
) -> Result<(), AllocError>
    ensures slots { OnOk result (slots.new.items ≡ slice_set slots.old.items place None) }
    ensures arranged { OnOk result (arranged.new ≡ arranged.old ++ with_one (get_or slots.old.items place None) []) }
{
    if place >= slots.len() {
        return Ok(());
    }
    match slots[place].take() {
        Some(definition) => arranged.push(definition),
        None => Ok(()),
    }
}

fn slots(
    alloc: Global,
    definitions: Items<Definition>,
) -> Result<Vec<Option<Definition>>, AllocError>
    ensures { IfOk result (λ slots. slots.items ≡ map Some definitions) }
{
    let mut slots = Vec::new(alloc);
    for definition in definitions.into_vec() {
        slots.push(Some(definition))?;
    }
    Ok(slots)
}
