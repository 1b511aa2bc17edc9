ghost use Rattle.std.specs.Prelude.{◌^◌};
ghost use Rattle.sv_linear.specs.Terms.{AscendsWithin, AscendsWithin-prop};

use crate::column::Column;
use crate::fault::{CombineFault, FormFault};
use crate::number::{combine_numbers, divide_number};
use crate::terms::{coefficient_at, content_of, divide_terms, fit_capacity, merge};
use std::alloc::{AllocError, Global};
use sv_list::{Copied, Items};

/// A linear form: the sum of coefficients times unknowns, and a constant.
///
/// `coefficients` lists pairs of an unknown's number and its coefficient. The unknowns ascend, and no coefficient is 0.
#[derive(Debug, Drop)]
pub struct Form {
    pub coefficients: Items<(u32, i128)>,
    pub constant: i128,
    pub ghost ascending: { AscendsWithin 0 (2 ^ 32) coefficients } by { AscendsWithin-prop 0 (2 ^ 32) coefficients },
}

impl Form {
    ghost use Rattle.std.specs.Prelude.{◌≡◌, ◌≢◌, ℕ, ℤ, pos, ◌+ℤ◌, ◌*ℤ◌, ◌≤ℤ◌, IfOk, OnOk, OnErr, [], ◌∷◌, ◌++◌};
    ghost use Rattle.sv_linear.specs.Terms.{coefficient};
    ghost use Rattle.sv_linear.specs.Forms.{form_value, entry};
    ghost use Rattle.sv_linear.specs.Faults.{IsPastExactly};
    ghost use Rattle.sv_linear.specs.Combining.{FitsFrom, FitsSymmetric, IsOutsideExactly};
    ghost use Rattle.sv_linear.specs.Divisors.{IsContent, IsPrimitiveOf};

    /// The form without unknowns. Takes no memory.
    pub fn of_constant(alloc: Global, constant: i128) -> Form
        ensures coefficients { result.coefficients ≡ [] }
        ensures constant { result.constant ≡ constant }
    {
        Form {
            coefficients: Items::new(alloc),
            constant,
        }
    }

    /// The form of one unknown.
    pub fn of_unknown(alloc: Global, unknown: u32) -> Result<Form, AllocError>
        ensures coefficients { IfOk result (λ f. f.coefficients ≡ (unknown, pos 1) ∷ []) }
        ensures constant { IfOk result (λ f. f.constant ≡ pos 0) }
    {
        let mut form = Form::of_constant(alloc, 0);
        form.push(unknown, 1)?;
        Ok(form)
    }

    /// Adds the term of an unknown above all that the form has. Amortised constant time.
    pub fn push(&mut self, unknown: u32, coefficient: i128) -> Result<(), AllocError>
        requires last { AscendsWithin 0 unknown self.old.coefficients }
        requires not_zero { coefficient ≢ pos 0 }
        ensures ok { OnOk result (self.new.coefficients ≡ self.old.coefficients ++ (unknown, coefficient) ∷ []) }
        ensures constant { self.new.constant ≡ self.old.constant }
        ensures err { OnErr result (self.new ≡ self.old) }
    {
        self.coefficients.push((unknown, coefficient))
    }

    /// The coefficient of an unknown, 0 where it has none. A binary search; takes no memory.
    pub fn at(&self, unknown: u32) -> i128
        ensures { result ≡ coefficient unknown self.now.coefficients }
    {
        coefficient_at(self.coefficients.as_slice(), unknown)
    }

    /// What the form has at a column. As `at`.
    pub fn entry(&self, column: Column) -> i128
        ensures { result ≡ entry column self.now }
    {
        match column {
            Column::Unknown(unknown) => self.at(unknown),
            Column::Constant => self.constant,
        }
    }

    /// The sum. One merge of the two lists.
    ///
    /// `Past` comes exactly where the sum of the two operands of some column isn't a number of 128 bits,
    /// and names those of the first such column, unknowns ascending and then the constant.
    pub fn add(&self, alloc: Global, other: &Form) -> Result<Form, FormFault>
        ensures value { IfOk result (λ r. (x : ℕ → ℤ) (d : ℤ) → form_value x d r ≡ form_value x d self.now +ℤ form_value x d other.now) }
        ensures past { IsPastExactly (λ a b. a +ℤ b) (λ c. entry c self.now) (λ c. entry c other.now) result }
    {
        match self.combine_from(alloc, 1, other, 1, i128::MIN) {
            Ok(sum) => Ok(sum),
            Err(CombineFault::Outside(column)) => {
                let (left, right) = (self.entry(column), other.entry(column));
                Err(FormFault::Past { left, right })
            }
            Err(CombineFault::Memory(error)) => Err(FormFault::Memory(error)),
        }
    }

    /// The product with a number; by 0 it is the zero form. One pass over the list.
    ///
    /// `Past` as for `add`, with the number on the right.
    pub fn scale(&self, alloc: Global, by: i128) -> Result<Form, FormFault>
        ensures value { IfOk result (λ r. (x : ℕ → ℤ) (d : ℤ) → form_value x d r ≡ by *ℤ form_value x d self.now) }
        ensures past { IsPastExactly (λ a b. a *ℤ b) (λ c. entry c self.now) (λ _. by) result }
    {
        let zero = Form::of_constant(alloc, 0);
        match self.combine_from(alloc, by, &zero, 0, i128::MIN) {
            Ok(product) => Ok(product),
            Err(CombineFault::Outside(column)) => {
                let left = self.entry(column);
                Err(FormFault::Past { left, right: by })
            }
            Err(CombineFault::Memory(error)) => Err(FormFault::Memory(error)),
        }
    }

    /// `by` times this form and `other_by` times the other added up, in one merge with no form in between.
    ///
    /// `Outside` comes exactly where at some column one of the two products or their sum is below
    /// -(2^127 - 1) or above 2^127 - 1, and names the first such column, unknowns ascending and then the constant.
    pub fn combine(
        &self,
        alloc: Global,
        by: i128,
        other: &Form,
        other_by: i128,
    ) -> Result<Form, CombineFault>
        ensures value { IfOk result (λ r. (x : ℕ → ℤ) (d : ℤ) → form_value x d r ≡ by *ℤ form_value x d self.now +ℤ other_by *ℤ form_value x d other.now) }
        ensures outside { IsOutsideExactly (λ c. FitsSymmetric by (entry c self.now) other_by (entry c other.now)) result }
    {
        self.combine_from(alloc, by, other, other_by, -i128::MAX)
    }

    /// `combine`, where no product and no sum may be below `least`.
    fn combine_from(
        &self,
        alloc: Global,
        by: i128,
        other: &Form,
        other_by: i128,
        least: i128,
    ) -> Result<Form, CombineFault>
        requires { least ≤ℤ pos 0 }
        ensures value { IfOk result (λ r. (x : ℕ → ℤ) (d : ℤ) → form_value x d r ≡ by *ℤ form_value x d self.now +ℤ other_by *ℤ form_value x d other.now) }
        ensures outside { IsOutsideExactly (λ c. FitsFrom least by (entry c self.now) other_by (entry c other.now)) result }
    {
        let terms = merge(
            alloc,
            by,
            self.coefficients.as_slice(),
            other_by,
            other.coefficients.as_slice(),
            least,
        )?;
        let Some(constant) = combine_numbers(by, self.constant, other_by, other.constant, least)
        else {
            return Err(CombineFault::Outside(Column::Constant));
        };
        Ok(Form {
            coefficients: fit_capacity(terms),
            constant,
        })
    }

    /// The greatest common divisor of the constant and all coefficients, 0 for the zero form. Takes no memory.
    pub fn content(&self) -> u128
        ensures { IsContent self.now.constant self.now.coefficients result }
    {
        content_of(self.coefficients.as_slice(), self.constant)
    }

    /// The form divided by its content, in place. Takes no memory.
    pub fn into_primitive(self) -> Form
        ensures { IsPrimitiveOf self result }
    {
        let by = self.content();
        if by < 2 {
            return self;
        }
        let Form {
            coefficients,
            constant,
        } = self;
        let mut terms = coefficients.into_vec();
        divide_terms(&mut terms, by);
        Form {
            coefficients: Items::from_vec(terms),
            constant: divide_number(constant, by),
        }
    }
}

impl Copied for Form {
    fn copy(&self, alloc: Global) -> Result<Form, AllocError> {
        Ok(Form {
            coefficients: Items::from_slice(alloc, self.coefficients.as_slice())?,
            constant: self.constant,
        })
    }
}
