//! The rows of comparisons.
ghost use Rattle.std.specs.Prelude.{◌≡◌, ◌≢◌, ◌<◌, ◌^◌, ◌+ℤ◌, ℕ, pos, Some, [], get_or, length, nat_eq, IfOk, OnOk, if◌then◌else◌};
ghost use Rattle.literal_forms.specs.Shapes.{seen};
ghost use Rattle.sv_linear.specs.declared.fault.FormFault.TheVariants as any_fault;
ghost use Rattle.sv_linear.specs.Terms.{AscendsWithin, coefficient};
ghost use Rattle.cube_draft.specs.Comparing.{CanAddOne, CanBound, CanRenumber, IsBoundBy, IsComparable, IsPlaceIn, IsPlus, IsRenumbered, kind_by, bound_at, bound_by};
ghost use Rattle.literal_forms.specs.declared.roles.Role.TheVariants as any_role;
ghost use Rattle.cube_draft.specs.Gathered.{Becomes, number_at};
ghost use Rattle.flat_cubes.specs.Met.{with_comparison};
ghost use Rattle.std.specs.declared.alloc.AllocError.{AllocError};

use crate::code::Code;
use crate::meeting::DraftBuilder;
use literal_forms::{Differences, IntOrder, Role, TermForm, Unknowns, role_of, subtract};
use std::alloc::{AllocError, Global};
use sv_linear::{Form, FormFault, Row, RowKind};
use sv_list::{Copied, Items};
use sv_terms::{Op, Term};

/// How a comparison reads as a row, by the difference of its sides.
#[derive(Clone, Copy)]
enum RowReading {
    /// The difference is 0.
    Zero,
    /// It is at most 0.
    AtMost,
    /// It is below 0.
    Below,
    /// It is at least 0.
    AtLeast,
    /// It is above 0.
    Above,
    /// No difference is so: the function compares no numbers, or an equality is not to hold.
    Never,
}

/// The bound of a comparison, or with `false` of the one that holds where that one doesn't.
fn bound_of(op: Op, positive: bool) -> RowReading
    ensures { result ≡ bound_by op positive }
{
    match role_of(op) {
        Role::Order(order) => bound_of_order(order, positive),
        Role::Equality => if positive {
            RowReading::Zero
        } else {
            RowReading::Never
        },
        Role::Connective
        | Role::Distinct
        | Role::Joined(_)
        | Role::Length
        | Role::Built(_)
        | Role::Test(_) => RowReading::Never,
    }
}

fn bound_of_order(order: IntOrder, positive: bool) -> RowReading
    ensures { result ≡ bound_at (any_role.Order order) positive }
{
    match order {
        IntOrder::AtMost => if positive {
            RowReading::AtMost
        } else {
            RowReading::Above
        },
        IntOrder::Below => if positive {
            RowReading::Below
        } else {
            RowReading::AtLeast
        },
        IntOrder::AtLeast => if positive {
            RowReading::AtLeast
        } else {
            RowReading::Below
        },
        IntOrder::Above => if positive {
            RowReading::Above
        } else {
            RowReading::AtMost
        },
    }
}

fn row_kind(bound: RowReading) -> RowKind
    ensures { result ≡ kind_by bound }
{
    match bound {
        RowReading::Zero => RowKind::Eq,
        RowReading::AtMost
        | RowReading::Below
        | RowReading::AtLeast
        | RowReading::Above
        | RowReading::Never => RowKind::Le,
    }
}

/// The form that is to be at most 0, or 0.
fn bound_form(
    alloc: Global,
    differences: Differences,
    bound: RowReading,
) -> Result<TermForm, AllocError>
    requires { CanBound differences bound }
    ensures { IfOk result (λ f. IsBoundBy differences bound f) }
{
    let Differences { less, more } = differences;
    match bound {
        RowReading::Zero | RowReading::AtMost => Ok(less),
        RowReading::Below => plus_one(alloc, &less),
        RowReading::AtLeast => Ok(more),
        RowReading::Above => plus_one(alloc, &more),
        RowReading::Never => Ok(TermForm::number(alloc, 1)),
    }
}

fn plus_one(alloc: Global, form: &TermForm) -> Result<TermForm, AllocError>
    requires { CanAddOne form.now }
    ensures { IfOk result (λ f. IsPlus form.now f) }
{
    match form.add(alloc, &TermForm::number(alloc, 1)) {
        Ok(sum) => Ok(sum),
        Err(fault) => Err(memory(fault)),
    }
}

/// The want of memory of a form none of whose steps leaves 128 bits.
fn memory(fault: FormFault) -> AllocError
    requires { (error : AllocError) × (fault ≡ any_fault.Memory error) }
{
    match fault {
        FormFault::Memory(error) => error,
        FormFault::Past { left: _, right: _ } => unreachable!(),
    }
}

impl DraftBuilder {
    /// Adds the row of a comparison of two terms whose unknowns were counted.
    pub fn compare(
        &mut self,
        alloc: Global,
        op: Op,
        left: &Term,
        right: &Term,
        positive: bool,
    ) -> Result<(), AllocError>
        requires { IsComparable self.old op (seen left.now) (seen right.now) positive }
        ensures { OnOk result (Becomes self.old self.new (with_comparison (record { op = op; left = seen left.now; right = seen right.now; positive = positive }))) }
    {
        let mut unknowns = Unknowns::new(alloc);
        match subtract(&mut unknowns, alloc, left, right) {
            Ok(differences) => {
                let bound = bound_of(op, positive);
                let form = bound_form(alloc, differences, bound)?;
                let form = self.renumber_form(alloc, &unknowns, &form.form)?;
                let kind = row_kind(bound);
                self.rows.push(Row { form, kind })
            }
            Err(fault) => Err(memory(fault)),
        }
    }

    /// A form over these unknowns as one over the quantities.
    fn renumber_form(
        &self,
        alloc: Global,
        unknowns: &Unknowns,
        form: &Form,
    ) -> Result<Form, AllocError>
        requires { CanRenumber self.now.numbers unknowns.now.codes form.now }
        ensures { IfOk result (λ g. IsRenumbered self.now.numbers unknowns.now.codes form.now g) }
    {
        let mut terms = Items::new(alloc);
        for i in 0..form.coefficients.len() {
            let (unknown, coefficient) = form.coefficients.as_slice()[i];
            let number = self.number(alloc, unknowns, unknown)?;
            put(&mut terms, number, coefficient)?;
        }
        Ok(Form {
            coefficients: terms,
            constant: form.constant,
        })
    }

    /// The number of the quantity that is this unknown.
    fn number(&self, alloc: Global, unknowns: &Unknowns, unknown: u32) -> Result<u32, AllocError>
        requires within { unknown < length unknowns.now.codes }
        requires known { (n : ℕ) × (number_at (get_or unknowns.now.codes unknown []) self.now.numbers ≡ Some n) }
        ensures { IfOk result (λ n. number_at (get_or unknowns.now.codes unknown []) self.now.numbers ≡ Some n) }
    {
        let code = Code::new(unknowns.codes.as_slice()[unknown as usize].copy(alloc)?);
        Ok(self.numbers.get(&code).unwrap())
    }
}

/// Puts a term into those of a form, which has none at its unknown. Linear in the terms with greater unknowns.
#[tactic(auto, using(crate::proofs::Inserted::placed_ascends, crate::proofs::Inserted::placed_coefficient))]
fn put(terms: &mut Items<(u32, i128)>, unknown: u32, number: i128) -> Result<(), AllocError>
    requires ascending { AscendsWithin 0 (2 ^ 32) terms.old }
    requires absent { coefficient unknown terms.old ≡ pos 0 }
    requires some { number ≢ pos 0 }
    ensures ascending { OnOk result (AscendsWithin 0 (2 ^ 32) terms.new) }
    ensures put { OnOk result ((n : ℕ) → coefficient n terms.new ≡ (if nat_eq unknown n then number else pos 0) +ℤ coefficient n terms.old) }
{
    let at = place_in(terms.as_slice(), unknown);
    terms.insert(at, (unknown, number))?;
    Ok(())
}

/// The place of an unknown among ascending ones, looked for from the end.
#[tactic(auto, using(crate::proofs::Inserted::searched_first, crate::proofs::Inserted::searched_step, crate::proofs::Inserted::searched_here, crate::proofs::Inserted::searched_front))]
fn place_in(terms: &[(u32, i128)], unknown: u32) -> usize
    requires { AscendsWithin 0 (2 ^ 32) terms.now }
    ensures { IsPlaceIn terms.now unknown result }
{
    let mut at = terms.len();
    while at > 0 {
        if terms[at - 1].0 <= unknown {
            return at;
        }
        at -= 1;
    }
    0
}
