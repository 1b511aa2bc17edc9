//! The linear forms of terms of sort Int.
ghost use Rattle.std.specs.Prelude.{◌≡◌, [], ◌++◌, ◌≤◌, IfOk, length};
ghost use Rattle.literal_forms.specs.Flats.{flat};
ghost use Rattle.literal_forms.specs.Formed.{IsUnknownForm, linears_of, steps_of};
ghost use Rattle.literal_forms.specs.Linear.{Unknown, integer, joined_of, joined_steps, length_form, linear, other, steps, unknown_code};
ghost use Rattle.literal_forms.specs.Numbered.{AreNumbered, IsFormOrPast, IsMore};
ghost use Rattle.literal_forms.specs.Shapes.{end, seen, ◌⨾◌};

use crate::reading::{Reading, read};
use crate::roles::Joint;
use crate::term_form::TermForm;
use crate::unknowns::{Unknowns, integer_code, length_code, whole_code};
use std::alloc::{AllocError, Global};
use sv_linear::FormFault;
use sv_list::Items;
use sv_terms::{Name, Term};

/// The form of a term of sort Int. Its unknowns are numbered.
#[cycle(forms)]
#[tactic(auto, using(crate::proofs::Combined::constant_read, crate::proofs::Combined::truth_read, crate::proofs::Combined::text_read, crate::proofs::Combined::member_read, crate::proofs::Combined::related_read, crate::proofs::Combined::opaque_read, crate::proofs::Combined::whole_read, crate::proofs::Combined::unknown_more))]
pub fn term_form(unknowns: &mut Unknowns, alloc: Global, term: &Term) -> Result<TermForm, FormFault>
    requires { AreNumbered unknowns.old.codes }
    ensures more { IfOk result (λ f. IsMore unknowns.old.codes unknowns.new.codes) }
    ensures form { IsFormOrPast unknowns.new.codes (linear (seen term.now)) (steps (seen term.now)) result }
{
    match term {
        Term::Number(n) => Ok(TermForm::number(alloc, *n)),
        Term::Constant(name, _) => Ok(integer_form(unknowns, alloc, name)?),
        Term::Apply(op, terms) => match read(*op) {
            Reading::Joined(joint) => joined_form(unknowns, alloc, joint, terms.as_slice()),
            Reading::Length => {
                if terms.len() == 1 {
                    length_form(unknowns, alloc, &terms.as_slice()[0])
                } else {
                    Ok(whole_form(unknowns, alloc, term)?)
                }
            }
            Reading::Whole => Ok(whole_form(unknowns, alloc, term)?),
        },
        Term::Truth(_) | Term::Text(_) | Term::InRe(_, _) | Term::Related(_, _, _) => {
            Ok(whole_form(unknowns, alloc, term)?)
        }
        Term::Opaque(_) => Ok(whole_form(unknowns, alloc, term)?),
    }
}

/// The form of the unknown of a code.
fn coded_form(
    unknowns: &mut Unknowns,
    alloc: Global,
    code: Items<i128>,
) -> Result<TermForm, AllocError>
    requires { AreNumbered unknowns.old.codes }
    ensures { (u : Unknown) → code ≡ flat (unknown_code u) → IfOk result (λ f. IsUnknownForm unknowns.old.codes unknowns.new.codes u f) }
{
    let number = unknowns.number(code)?;
    TermForm::unknown(alloc, number)
}

fn integer_form(unknowns: &mut Unknowns, alloc: Global, name: &Name) -> Result<TermForm, AllocError>
    requires { AreNumbered unknowns.old.codes }
    ensures { IfOk result (λ f. IsUnknownForm unknowns.old.codes unknowns.new.codes (integer name.now) f) }
{
    let code = integer_code(alloc, name)?;
    coded_form(unknowns, alloc, code)
}

fn whole_form(unknowns: &mut Unknowns, alloc: Global, term: &Term) -> Result<TermForm, AllocError>
    requires { AreNumbered unknowns.old.codes }
    ensures { IfOk result (λ f. IsUnknownForm unknowns.old.codes unknowns.new.codes (other (seen term.now)) f) }
{
    let code = whole_code(alloc, term)?;
    coded_form(unknowns, alloc, code)
}

/// The form of the length of a string term; that of a literal is a number.
#[tactic(auto, using(crate::proofs::Numbers::none_more))]
fn length_form(unknowns: &mut Unknowns, alloc: Global, term: &Term) -> Result<TermForm, FormFault>
    requires { AreNumbered unknowns.old.codes }
    ensures more { IfOk result (λ f. IsMore unknowns.old.codes unknowns.new.codes) }
    ensures form { IsFormOrPast unknowns.new.codes (length_form (seen term.now ⨾ end)) [] result }
{
    if let Term::Text(word) = term {
        return Ok(TermForm::number(alloc, word.len() as i128));
    }
    let code = length_code(alloc, term)?;
    Ok(coded_form(unknowns, alloc, code)?)
}

/// The form joined of those of terms, from the left.
#[cycle(forms)]
#[tactic(auto, using(crate::proofs::Numbers::none_more))]
fn joined_form(
    unknowns: &mut Unknowns,
    alloc: Global,
    joint: Joint,
    terms: &[Term],
) -> Result<TermForm, FormFault>
    requires { AreNumbered unknowns.old.codes }
    ensures more { IfOk result (λ f. IsMore unknowns.old.codes unknowns.new.codes) }
    ensures form { IsFormOrPast unknowns.new.codes (joined_of joint (linears_of terms.now)) (steps_of terms.now ++ joined_steps joint (linears_of terms.now)) result }
{
    if terms.is_empty() {
        return Ok(TermForm::number(alloc, 0));
    }
    if terms.len() == 1 {
        return single_form(unknowns, alloc, joint, terms);
    }
    several_form(unknowns, alloc, joint, terms)
}

// One term alone: of a difference its negative.
#[cycle(forms)]
fn single_form(
    unknowns: &mut Unknowns,
    alloc: Global,
    joint: Joint,
    terms: &[Term],
) -> Result<TermForm, FormFault>
    requires numbered { AreNumbered unknowns.old.codes }
    requires single { length terms.now ≡ 1 }
    ensures more { IfOk result (λ f. IsMore unknowns.old.codes unknowns.new.codes) }
    ensures form { IsFormOrPast unknowns.new.codes (joined_of joint (linears_of terms.now)) (steps_of terms.now ++ joined_steps joint (linears_of terms.now)) result }
{
    let form = term_form(unknowns, alloc, &terms[0])?;
    match joint {
        Joint::Sum => Ok(form),
        Joint::Difference => form.scale(alloc, -1),
        Joint::Product => Ok(form),
    }
}

#[cycle(forms)]
fn several_form(
    unknowns: &mut Unknowns,
    alloc: Global,
    joint: Joint,
    terms: &[Term],
) -> Result<TermForm, FormFault>
    requires numbered { AreNumbered unknowns.old.codes }
    requires several { 2 ≤ length terms.now }
    ensures more { IfOk result (λ f. IsMore unknowns.old.codes unknowns.new.codes) }
    ensures form { IsFormOrPast unknowns.new.codes (joined_of joint (linears_of terms.now)) (steps_of terms.now ++ joined_steps joint (linears_of terms.now)) result }
{
    let mut all = term_form(unknowns, alloc, &terms[0])?;
    for i in 1..terms.len() {
        let next = term_form(unknowns, alloc, &terms[i])?;
        all = all.join(alloc, joint, &next)?;
    }
    Ok(all)
}
