// The weights of regular expressions.
ghost use Rattle.std.specs.Prelude.{◌≡◌, map, IfOk};
ghost use Rattle.term_weight.specs.Weights as w;

use crate::weight::{Weight, combined_weight, one_weight};
use std::alloc::{AllocError, Global};
use sv_list::Items;
use sv_terms::Regex;

/// The weight of a regular expression, in time linear in its size.
#[cycle(weigh_regex)]
pub(crate) fn weigh_regex(alloc: Global, regex: &Regex) -> Result<Weight, AllocError>
    ensures { IfOk result (λ x. x ≡ w.regex_weight regex.now) }
{
    match regex {
        Regex::Empty => Ok(Weight::language(1, 0)),
        Regex::All => Ok(Weight::language(1, 0)),
        Regex::AnyChar => Ok(Weight::language(1, 0)),
        Regex::Text(_) => Ok(Weight::language(1, 0)),
        Regex::Range(_, _) => Ok(Weight::language(1, 0)),
        Regex::Concat(rs) => weigh_regexes(alloc, rs.as_slice()),
        Regex::Union(rs) => weigh_regexes(alloc, rs.as_slice()),
        Regex::Inter(rs) => weigh_regexes(alloc, rs.as_slice()),
        Regex::Diff(rs) => weigh_regexes(alloc, rs.as_slice()),
        Regex::Star(r) => Ok(one_weight(&[weigh_regex(alloc, r.get())?])),
        Regex::Plus(r) => Ok(one_weight(&[weigh_regex(alloc, r.get())?])),
        Regex::Opt(r) => Ok(one_weight(&[weigh_regex(alloc, r.get())?])),
        Regex::Comp(r) => Ok(one_weight(&[weigh_regex(alloc, r.get())?])),
        Regex::Loop(r, _, _) => Ok(one_weight(&[weigh_regex(alloc, r.get())?])),
    }
}

#[cycle(weigh_regex)]
#[tactic(auto, using(crate::specs::LayerLaws::regexes))]
fn weigh_regexes(alloc: Global, regexes: &[Regex]) -> Result<Weight, AllocError>
    ensures { IfOk result (λ x. x ≡ w.combined_weight (map w.regex_weight regexes.now)) }
{
    let mut weights = Items::new(alloc);
    for regex in regexes {
        weights.push(weigh_regex(alloc, regex)?)?;
    }
    Ok(combined_weight(weights.as_slice()))
}
