// Whether an application is opaque, and what it weighs, from the weights of its arguments.
ghost use Rattle.std.specs.Prelude.{◌≡◌};
ghost use Rattle.term_weight.specs.Weights as w;

use crate::rank::same_sort;
use crate::weight::{
    Factor, Weight, are_languages, combined_weight, is_literal, one_weight, op_weight,
    related_weight, unknowns, weigh_membership,
};
use smt_names::Interpretation;
use sv_terms::{Op, Sort};

/// This sort, where the test fails.
fn unless(test: bool, sort: Sort) -> Option<Sort>
    ensures { result ≡ w.unless test sort }
{
    if test { None } else { Some(sort) }
}

fn of_equality(weights: &[Weight]) -> Option<Sort>
    ensures { result ≡ w.of_equality weights.now }
{
    match weights {
        [first, ..] => unless(!same_sort(Sort::RegLan, first.sort), Sort::Bool),
        [] => Some(Sort::Bool),
    }
}

fn of_choice(weights: &[Weight]) -> Option<Sort>
    ensures { result ≡ w.of_choice weights.now }
{
    match weights {
        [_, second, _] => unless(same_sort(Sort::Bool, second.sort), second.sort),
        _ => Some(Sort::Bool),
    }
}

fn of_product(weights: &[Weight]) -> Option<Sort>
    ensures { result ≡ w.of_product weights.now }
{
    unless(!(2 <= unknowns(weights)), Sort::Int)
}

fn of_replacement(weights: &[Weight]) -> Option<Sort>
    ensures { result ≡ w.of_replacement weights.now }
{
    match weights {
        [_, pattern, replacement] => {
            unless(
                is_literal(pattern.factor) && is_literal(replacement.factor),
                Sort::String,
            )
        }
        _ => Some(Sort::String),
    }
}

fn of_membership(weights: &[Weight]) -> Option<Sort>
    ensures { result ≡ w.of_membership weights.now }
{
    match weights {
        [_, language] => unless(language.is_language, Sort::Bool),
        _ => Some(Sort::Bool),
    }
}

fn of_text(weights: &[Weight]) -> Option<Sort>
    ensures { result ≡ w.of_text weights.now }
{
    match weights {
        [word] => unless(is_literal(word.factor), Sort::RegLan),
        _ => Some(Sort::RegLan),
    }
}

fn of_range(weights: &[Weight]) -> Option<Sort>
    ensures { result ≡ w.of_range weights.now }
{
    match weights {
        [low, high] => unless(
            is_literal(low.factor) && is_literal(high.factor),
            Sort::RegLan,
        ),
        _ => Some(Sort::RegLan),
    }
}

fn of_languages(weights: &[Weight]) -> Option<Sort>
    ensures { result ≡ w.of_languages weights.now }
{
    unless(are_languages(weights), Sort::RegLan)
}

/// The sort of what a function of this sense is at arguments of these weights, where it is opaque.
/// Linear in their number.
pub fn opacity(gives: Sort, sense: Interpretation, weights: &[Weight]) -> Option<Sort>
    ensures { result ≡ w.opacity gives sense weights.now }
{
    match sense {
        Interpretation::Truth(_) => None,
        Interpretation::Meaning(_) => None,
        Interpretation::Equality(_) => of_equality(weights),
        Interpretation::Choice => of_choice(weights),
        Interpretation::Product => of_product(weights),
        Interpretation::Replacement(_) => of_replacement(weights),
        Interpretation::Opaque => Some(gives),
        Interpretation::Membership => of_membership(weights),
        Interpretation::TextOf => of_text(weights),
        Interpretation::Range => of_range(weights),
        Interpretation::Empty | Interpretation::All | Interpretation::AnyChar => None,
        Interpretation::Character(_) => None,
        Interpretation::Concat
        | Interpretation::Union
        | Interpretation::Inter
        | Interpretation::Diff => of_languages(weights),
        Interpretation::Star | Interpretation::Plus | Interpretation::Opt | Interpretation::Comp =>
            of_languages(weights),
        Interpretation::Loop(_, _) => of_languages(weights),
    }
}

fn membership_weight(weights: &[Weight]) -> Weight
    ensures { result ≡ w.membership_weight weights.now }
{
    match weights {
        [word, regex] => weigh_membership(*word, *regex),
        _ => Weight::opaque(Sort::Bool),
    }
}

/// What a transducer relates weighs, of the weights of the two terms; of any other number it is
/// opaque. Constant.
pub fn pair_weight(weights: &[Weight]) -> Weight
    ensures { result ≡ w.pair_weight weights.now }
{
    match weights {
        [read, written] => related_weight(*read, *written),
        _ => Weight::opaque(Sort::Bool),
    }
}

/// What a function of this sense weighs at arguments of these weights, where it isn't opaque.
/// Linear in their number.
pub fn plain_weight(sense: Interpretation, weights: &[Weight]) -> Weight
    ensures { result ≡ w.plain_weight sense weights.now }
{
    match sense {
        Interpretation::Truth(_) => Weight::leaf(Sort::Bool, Factor::Known),
        Interpretation::Meaning(op) => op_weight(op, weights),
        Interpretation::Equality(op) => op_weight(op, weights),
        Interpretation::Choice => op_weight(Op::IfThenElse, weights),
        Interpretation::Product => op_weight(Op::Multiply, weights),
        Interpretation::Replacement(op) => op_weight(op, weights),
        Interpretation::Opaque => Weight::opaque(Sort::Bool),
        Interpretation::Membership => membership_weight(weights),
        Interpretation::TextOf | Interpretation::Range => Weight::language(1, 0),
        Interpretation::Empty | Interpretation::All | Interpretation::AnyChar => Weight::language(
            1, 0,
        ),
        Interpretation::Character(_) => Weight::leaf(Sort::String, Factor::Literal),
        Interpretation::Concat
        | Interpretation::Union
        | Interpretation::Inter
        | Interpretation::Diff => combined_weight(weights),
        Interpretation::Star | Interpretation::Plus | Interpretation::Opt | Interpretation::Comp =>
            one_weight(weights),
        Interpretation::Loop(_, _) => one_weight(weights),
    }
}
