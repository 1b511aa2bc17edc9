//! Linear forms of terms.
ghost use Rattle.std.specs.Prelude.{◌≡◌, ◌&&◌, ℤ, List, ◌∷◌, [], ◌<◌, IfOk, length};
ghost use Rattle.literal_forms.specs.Linear.{Linear, Unknown, addition, added, less, less_steps, multiplied, of_number, of_unknown, product_steps, scaled, scaling};
ghost use Rattle.literal_forms.specs.Numbered.{AreNumbered, IsFormOrPast, IsNumbered, joint_of, joint_steps, place_in};

use crate::roles::Joint;
use std::alloc::{AllocError, Global};
use sv_linear::{Form, FormFault};

/// The form of a term, and whether no unknown stands in the term.
#[derive(Drop)]
pub struct TermForm {
    pub form: Form,
    pub constant: bool,
}

impl TermForm {
    /// The form of a number.
    #[tactic(auto, using(crate::proofs::Formed::number_formed))]
    pub fn number(alloc: Global, number: i128) -> TermForm
        ensures { (us : List (List ℤ)) → IsNumbered us (of_number number) result }
    {
        TermForm {
            form: Form::of_constant(alloc, number),
            constant: true,
        }
    }

    /// The form of the unknown with this number.
    #[tactic(auto, using(crate::proofs::Formed::unknown_formed))]
    pub fn unknown(alloc: Global, number: u32) -> Result<TermForm, AllocError>
        ensures { (us : List (List ℤ)) (u : Unknown) → place_in us u ≡ number → number < length us → IfOk result (λ f. IsNumbered us (of_unknown u) f) }
    {
        let form = Form::of_unknown(alloc, number)?;
        Ok(TermForm {
            form,
            constant: false,
        })
    }

    /// So many times the form. `Past` where a product leaves 128 bits.
    pub fn scale(&self, alloc: Global, by: i128) -> Result<TermForm, FormFault>
        ensures { (us : List (List ℤ)) (a : Linear) → AreNumbered us → IsNumbered us a self.now → IsFormOrPast us (scaled a by) (scaling a by ∷ []) result }
    {
        let form = self.form.scale(alloc, by)?;
        Ok(TermForm {
            form,
            constant: self.constant,
        })
    }

    /// The sum of both forms, linear in their terms. `Past` where a sum leaves 128 bits.
    pub fn add(&self, alloc: Global, other: &TermForm) -> Result<TermForm, FormFault>
        ensures { (us : List (List ℤ)) (a b : Linear) → AreNumbered us → IsNumbered us a self.now → IsNumbered us b other.now → IsFormOrPast us (added a b) (addition a b ∷ []) result }
    {
        let form = self.form.add(alloc, &other.form)?;
        Ok(TermForm {
            form,
            constant: both(self.constant, other.constant),
        })
    }

    fn subtract(&self, alloc: Global, other: &TermForm) -> Result<TermForm, FormFault>
        ensures { (us : List (List ℤ)) (a b : Linear) → AreNumbered us → IsNumbered us a self.now → IsNumbered us b other.now → IsFormOrPast us (less a b) (less_steps a b) result }
    {
        let negative = other.scale(alloc, -1)?;
        self.add(alloc, &negative)
    }

    fn multiply(&self, alloc: Global, other: &TermForm) -> Result<TermForm, FormFault>
        ensures { (us : List (List ℤ)) (a b : Linear) → AreNumbered us → IsNumbered us a self.now → IsNumbered us b other.now → IsFormOrPast us (multiplied a b) (product_steps a b) result }
    {
        if other.constant {
            self.scale(alloc, other.form.constant)
        } else {
            other.scale(alloc, self.form.constant)
        }
    }

    /// The form joined of this one and another. Of a product one has no unknown.
    pub fn join(&self, alloc: Global, joint: Joint, other: &TermForm) -> Result<TermForm, FormFault>
        ensures { (us : List (List ℤ)) (a b : Linear) → AreNumbered us → IsNumbered us a self.now → IsNumbered us b other.now → IsFormOrPast us (joint_of joint a b) (joint_steps joint a b) result }
    {
        match joint {
            Joint::Sum => self.add(alloc, other),
            Joint::Difference => self.subtract(alloc, other),
            Joint::Product => self.multiply(alloc, other),
        }
    }
}

fn both(left: bool, right: bool) -> bool
    ensures { result ≡ (left && right) }
{
    left && right
}
