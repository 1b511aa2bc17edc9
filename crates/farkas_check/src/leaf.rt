ghost use Rattle.std.specs.Prelude.{◌≡◌, ℕ, pos, ◌≤ℤ◌, ◌<◌, length, get_or, false, IsTrue, ◌↔◌, SomeIff, All};
ghost use Rattle.farkas_check.specs.Systems.{no_constraint, constraint_of};
ghost use Rattle.farkas_check.specs.Branches.{constraint_of_branch};
ghost use Rattle.farkas_check.specs.Leaves.{leaf_rows, IsAllowed, HasEquations, HasMultipleAt};
ghost use Rattle.farkas_check.specs.Closings.{combined};
ghost use Rattle.farkas_check.specs.Columns.{part_at};
ghost use Rattle.farkas_check.specs.Fitting.{SumFits};
ghost use Rattle.sv_linear.specs.Divisors.{Divides};
ghost use Rattle.sv_linear.specs.declared.column.Column.TheVariants.{Unknown};

use crate::above::{Above, find_branch};
use crate::branch::Branch;
use crate::net::NetEdge;
use sv_linear::{Column, Row, RowKind};

/// The divisor whose only multiple is 0.
pub(crate) const OF_ZERO_ALONE: i128 = 0;

/// A leaf's rows, which are some rows and then those of the branches above it, and their multipliers.
#[derive(Clone, Copy)]
pub struct Leaf<'a> {
    pub rows: &'a [Row],
    pub above: &'a Above<'a>,
    pub multipliers: &'a [(u32, i128)],
}

impl Leaf<'_> {
    /// Whether row numbers ascend, and no row that is at most 0 has a multiplier below 0.
    pub fn is_allowed(&self) -> bool
        ensures { IsTrue result ↔ IsAllowed self.now }
    {
        self.ascends(false)
    }

    /// Whether row numbers ascend, and each row is an equation.
    pub fn has_equations(&self) -> bool
        ensures { IsTrue result ↔ HasEquations self.now }
    {
        self.ascends(true)
    }

    /// Whether row numbers ascend, and each row is an equation or, where not these alone are asked for, has a multiplier
    /// that isn't below 0.
    fn ascends(&self, equations_alone: bool) -> bool
        ensures equations { IsTrue equations_alone → IsTrue result ↔ HasEquations self.now }
        ensures allowed { equations_alone ≡ false → IsTrue result ↔ IsAllowed self.now }
    {
        let mut next: u64 = 0;
        for (row, multiplier) in self.multipliers {
            let Some(equal) = self.is_equation(*row) else {
                return false;
            };
            if (*row as u64) < next || (!equal && (equations_alone || *multiplier < 0)) {
                return false;
            }
            next = *row as u64 + 1;
        }
        true
    }

    /// The sum of the multipliers times the rows' entries at a column, or none where a product or a partial sum isn't a
    /// number of 128 bits.
    pub fn sum(&self, column: Column) -> Option<i128>
        requires { IsAllowed self.now }
        ensures { SomeIff result (SumFits (part_at column) (leaf_rows self.now) (pos 0) self.now.multipliers.now) (combined (part_at column) (leaf_rows self.now) self.now.multipliers.now) }
    {
        let mut sum: i128 = 0;
        for (row, multiplier) in self.multipliers {
            let entry = self.entry(*row, column)?;
            let product = multiplier.checked_mul(entry)?;
            sum = sum.checked_add(product)?;
        }
        Some(sum)
    }

    /// Whether the sums at all unknowns are multiples of the divisor: 0, where that is `OF_ZERO_ALONE`.
    pub fn are_multiples(&self, divisor: i128) -> bool
        requires allowed { IsAllowed self.now }
        requires not_negative { pos 0 ≤ℤ divisor }
        ensures { IsTrue result ↔ ((u : ℕ) → HasMultipleAt self.now divisor (Unknown u)) }
    {
        for (row, _) in self.multipliers {
            if !self.are_multiples_in_row(*row, divisor) {
                return false;
            }
        }
        true
    }

    /// The same of the unknowns that a row names.
    fn are_multiples_in_row(&self, row: u32, divisor: i128) -> bool
        requires allowed { IsAllowed self.now }
        requires not_negative { pos 0 ≤ℤ divisor }
        requires within { row < length (leaf_rows self.now) }
        ensures forth { IsTrue result → All (λ t. HasMultipleAt self.now divisor (Unknown t.0)) (get_or (leaf_rows self.now) row no_constraint).terms }
        ensures back { ((u : ℕ) → HasMultipleAt self.now divisor (Unknown u)) → IsTrue result }
    {
        let rows = self.rows;
        let place = row as usize;
        if place < rows.len() {
            return self.are_multiples_in_terms(rows[place].form.coefficients.as_slice(), divisor);
        }
        match find_branch(self.above, place - rows.len()) {
            Ok(branch) => self.are_multiples_in_branch(branch, divisor),
            Err(_) => false,
        }
    }

    fn are_multiples_in_terms(&self, terms: &[(u32, i128)], divisor: i128) -> bool
        requires allowed { IsAllowed self.now }
        requires not_negative { pos 0 ≤ℤ divisor }
        ensures forth { IsTrue result → All (λ t. HasMultipleAt self.now divisor (Unknown t.0)) terms.now }
        ensures back { ((u : ℕ) → HasMultipleAt self.now divisor (Unknown u)) → IsTrue result }
    {
        for (unknown, _) in terms {
            if !self.is_multiple_at(*unknown, divisor) {
                return false;
            }
        }
        true
    }

    fn are_multiples_in_branch(&self, branch: &Branch, divisor: i128) -> bool
        requires allowed { IsAllowed self.now }
        requires not_negative { pos 0 ≤ℤ divisor }
        ensures forth { IsTrue result → All (λ t. HasMultipleAt self.now divisor (Unknown t.0)) (constraint_of_branch branch.now).terms }
        ensures back { ((u : ℕ) → HasMultipleAt self.now divisor (Unknown u)) → IsTrue result }
    {
        match branch {
            Branch::AtMost { unknown, .. } => self.is_multiple_at(*unknown, divisor),
            Branch::AtLeast { unknown, .. } => self.is_multiple_at(*unknown, divisor),
            Branch::NoneOut { net, .. } => self.are_multiples_in_edges(
                net.edges.as_slice(),
                divisor,
            ),
            Branch::SomeIn { net, .. } => self.are_multiples_in_edges(
                net.edges.as_slice(),
                divisor,
            ),
        }
    }

    fn are_multiples_in_edges(&self, edges: &[NetEdge], divisor: i128) -> bool
        requires allowed { IsAllowed self.now }
        requires not_negative { pos 0 ≤ℤ divisor }
        ensures forth { IsTrue result → All (λ e. HasMultipleAt self.now divisor (Unknown e.unknown)) edges.now }
        ensures back { ((u : ℕ) → HasMultipleAt self.now divisor (Unknown u)) → IsTrue result }
    {
        for edge in edges {
            if !self.is_multiple_at(edge.unknown, divisor) {
                return false;
            }
        }
        true
    }

    fn is_multiple_at(&self, unknown: u32, divisor: i128) -> bool
        requires allowed { IsAllowed self.now }
        requires not_negative { pos 0 ≤ℤ divisor }
        ensures { IsTrue result ↔ HasMultipleAt self.now divisor (Unknown unknown) }
    {
        match self.sum(Column::Unknown(unknown)) {
            Some(sum) => is_multiple(sum, divisor),
            None => false,
        }
    }

    /// The entry of a row, or none where there is no such row.
    fn entry(&self, row: u32, column: Column) -> Option<i128>
        ensures { SomeIff result (row < length (leaf_rows self.now)) (part_at column (get_or (leaf_rows self.now) row no_constraint)) }
    {
        let rows = self.rows;
        let place = row as usize;
        if place < rows.len() {
            Some(row_entry(&rows[place], column))
        } else {
            match find_branch(self.above, place - rows.len()) {
                Ok(branch) => Some(branch_entry(branch, column)),
                Err(_) => None,
            }
        }
    }

    fn is_equation(&self, row: u32) -> Option<bool>
        ensures { SomeIff result (row < length (leaf_rows self.now)) (get_or (leaf_rows self.now) row no_constraint).equal }
    {
        let rows = self.rows;
        let place = row as usize;
        if place < rows.len() {
            Some(matches!(rows[place].kind, RowKind::Eq))
        } else {
            match find_branch(self.above, place - rows.len()) {
                Ok(_) => Some(false),
                Err(_) => None,
            }
        }
    }
}

fn row_entry(row: &Row, column: Column) -> i128
    ensures { result ≡ part_at column (constraint_of row.now) }
{
    match column {
        Column::Unknown(unknown) => row.form.at(unknown),
        Column::Constant => row.form.constant,
    }
}

fn branch_entry(branch: &Branch, column: Column) -> i128
    ensures { result ≡ part_at column (constraint_of_branch branch.now) }
{
    match column {
        Column::Unknown(unknown) => branch.coefficient(unknown),
        Column::Constant => branch.constant(),
    }
}

/// Whether a number is a multiple of a divisor that isn't negative; of 0 only 0 is.
pub fn is_multiple(number: i128, divisor: i128) -> bool
    requires { pos 0 ≤ℤ divisor }
    ensures { IsTrue result ↔ Divides divisor number }
{
    if divisor == 0 {
        number == 0
    } else {
        number % divisor == 0
    }
}
