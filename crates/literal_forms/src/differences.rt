//! The differences of two terms of sort Int, and whether the forms of an atom stay within 128 bits.
ghost use Rattle.std.specs.Prelude.{[], ◌∷◌, ℤ, List, pos, IfOk};
ghost use Rattle.literal_forms.specs.Linear.{Linear, addition, linear, of_number};
ghost use Rattle.literal_forms.specs.Numbered.{AreDifferences, AreNumbered, IsNumbered};
ghost use Rattle.literal_forms.specs.Past.{IsPlainExactly, atom_steps, comparison_steps, equality_steps};
ghost use Rattle.literal_forms.specs.Shapes.{seen};

use crate::forms::term_form;
use crate::reading::{Relation, relate};
use crate::roles::Joint;
use crate::sorts::head_sort;
use crate::term_form::TermForm;
use crate::unknowns::Unknowns;
use std::alloc::Global;
use sv_linear::FormFault;
use sv_terms::{Sort, Term};

/// The difference of two terms and its negative.
#[derive(Drop)]
pub struct Differences {
    pub less: TermForm,
    pub more: TermForm,
}

/// The difference of two terms of sort Int and its negative, over numbered unknowns.
///
/// `Past` comes only where a step by which they are built leaves 128 bits. Time is linear in the terms, but for the forms, which
/// are added up from the left, and the look-up of each unknown among those of the two terms.
#[tactic(auto, using(crate::proofs::Checked::differences_made, crate::proofs::Checked::first_past, crate::proofs::Checked::second_past, crate::proofs::Checked::less_past, crate::proofs::Checked::more_past))]
pub fn subtract(
    unknowns: &mut Unknowns,
    alloc: Global,
    left: &Term,
    right: &Term,
) -> Result<Differences, FormFault>
    requires { AreNumbered unknowns.old.codes }
    ensures steps { IsPlainExactly (equality_steps (seen left.now) (seen right.now)) result }
    ensures forms { IfOk result (λ d. AreDifferences unknowns.new.codes (linear (seen left.now)) (linear (seen right.now)) d) }
{
    let first = term_form(unknowns, alloc, left)?;
    let second = term_form(unknowns, alloc, right)?;
    let less = first.join(alloc, Joint::Difference, &second)?;
    let more = less.scale(alloc, -1)?;
    Ok(Differences { less, more })
}

fn equality(alloc: Global, left: &Term, right: &Term) -> Result<(), FormFault>
    ensures { IsPlainExactly (equality_steps (seen left.now) (seen right.now)) result }
{
    let mut unknowns = Unknowns::new(alloc);
    let _differences = subtract(&mut unknowns, alloc, left, right)?;
    Ok(())
}

// Whether the form plus 1 stays within 128 bits.
fn check_successor(alloc: Global, form: &TermForm) -> Result<(), FormFault>
    ensures { (us : List (List ℤ)) (a : Linear) → AreNumbered us → IsNumbered us a form.now → IsPlainExactly (addition a (of_number (pos 1)) ∷ []) result }
{
    let one = TermForm::number(alloc, 1);
    let _sum = form.add(alloc, &one)?;
    Ok(())
}

#[tactic(auto, using(crate::proofs::Checked::order_plain, crate::proofs::Checked::equality_past, crate::proofs::Checked::less_one_past, crate::proofs::Checked::more_one_past))]
fn order(alloc: Global, left: &Term, right: &Term) -> Result<(), FormFault>
    ensures { IsPlainExactly (comparison_steps (seen left.now) (seen right.now)) result }
{
    let mut unknowns = Unknowns::new(alloc);
    let both = subtract(&mut unknowns, alloc, left, right)?;
    check_successor(alloc, &both.less)?;
    check_successor(alloc, &both.more)?;
    Ok(())
}

/// Whether no step of an atom's forms leaves 128 bits.
#[tactic(auto, using(crate::proofs::Checked::leaf_plain, crate::proofs::Checked::neither_atom_plain))]
pub fn check_atom(alloc: Global, atom: &Term) -> Result<(), FormFault>
    ensures { IsPlainExactly (atom_steps (seen atom.now)) result }
{
    let Term::Apply(op, terms) = atom else {
        return Ok(());
    };
    let terms = terms.as_slice();
    if terms.len() != 2 {
        return Ok(());
    }
    let (left, right) = (&terms[0], &terms[1]);
    match relate(*op) {
        Relation::Equality => match head_sort(left) {
            Sort::Int => equality(alloc, left, right),
            Sort::Bool => Ok(()),
            Sort::String => Ok(()),
            Sort::RegLan => Ok(()),
        },
        Relation::Order => order(alloc, left, right),
        Relation::Neither => Ok(()),
    }
}
