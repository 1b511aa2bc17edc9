//! What was met of words: variables and definitions.
ghost use Rattle.std.specs.Prelude.{◌≡◌, ◌<◌, ◌^◌, map, length, IfOk};
ghost use Rattle.std.specs.List.{range_with_len};
ghost use Rattle.straight_line.specs.Leading.{ArePairsBelow, ordinal, roots_in};
ghost use Rattle.straight_line.specs.Wording.{ArePlacesBelow, AreWords, least_of};

use crate::filling::variables;
use crate::identifying::firsts;
use crate::naming::definitions as renamed;
use crate::numbering::{VariableNumbers, number};
use crate::straightening::straighten;
use flat_cubes::{By, Definition, FlatFault, Own, Variable};
use std::alloc::{AllocError, Global};
use sv_list::Items;
use sv_terms::Name;

/// Variables and their definitions in order.
#[derive(Drop)]
pub struct NumberedDefinitions {
    /// The number of each place's variable.
    pub of: Vec<u32>,
    pub variables: Items<Variable>,
    pub definitions: Items<Definition>,
}

/// The variables of places, where these pairs of places are one, with the names of places and what is said of
/// them, and the definitions in order; or the first variable that has two definitions, or else a cycle. Linear
/// up to a logarithm.
pub fn settle_words(
    alloc: Global,
    names: Items<Option<Name>>,
    parts: Items<(u32, (Own, bool))>,
    definitions: Items<(u32, By)>,
    equalities: &[(u32, u32)],
) -> Result<NumberedDefinitions, FlatFault>
    requires { ArePlacesBelow (length names) parts definitions equalities.now }
    ensures { AreWords names parts definitions equalities.now result }
{
    let numbering = number_places(alloc, names.len(), equalities)?;
    let renamed = renamed(alloc, numbering.of.as_slice(), definitions)?;
    let definitions = straighten(alloc, numbering.count, renamed)?;
    let variables = variables(
        alloc,
        numbering.count,
        numbering.of.as_slice(),
        names,
        parts,
    )?;
    Ok(NumberedDefinitions {
        of: numbering.of,
        variables,
        definitions,
    })
}

/// The variables of so many places, where these pairs of places are one.
fn number_places(
    alloc: Global,
    places: usize,
    equalities: &[(u32, u32)],
) -> Result<VariableNumbers, AllocError>
    requires { ArePairsBelow places equalities.now }
    ensures few { IfOk result (λ _. places < 2 ^ 32) }
    ensures count { IfOk result (λ n. n.count ≡ length (roots_in places (least_of places equalities.now))) }
    ensures of { IfOk result (λ n. n.of.items ≡ map (ordinal places (least_of places equalities.now)) (range_with_len 0 places)) }
{
    let places = count(places)?;
    let firsts = firsts(alloc, places, equalities)?;
    number(alloc, firsts.as_slice())
}

/// The number of places. More would take more than 64 GB.
fn count(places: usize) -> Result<u32, AllocError>
    ensures count { IfOk result (λ n. n ≡ places) }
    ensures few { IfOk result (λ n. n < 2 ^ 32) }
{
    match u32::try_from(places) {
        Ok(count) => Ok(count),
        Err(_) => Err(AllocError),
    }
}
