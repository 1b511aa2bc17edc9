ghost use Rattle.std.specs.Prelude.{◌≡◌, ℕ, [], Some, slice_get, IfOk, IfSome, IsTrue, ◌↔◌};
ghost use Rattle.sv_linear.specs.Rows.{IsRowWithin};
ghost use Rattle.sv_linear.specs.declared.row.Row.{Row};

use crate::elimination::{Elimination, RowSum};
use farkas_check::System;
use std::alloc::{AllocError, Global};
use sv_linear::{Form, Row, RowKind};
use sv_list::{Copied, Items};

/// A system with the unknowns put out of it that equations own.
#[derive(Drop)]
pub struct Reduced {
    /// It has the unknowns of the whole system, and no nets.
    pub system: System,
    /// The sum that each of its rows is.
    pub sums: Items<RowSum>,
}

const LEAST: i128 = -i128::MAX;

/// A reduced system with more terms than this is left to the search of the whole one.
const MOST_TERMS: usize = 1 << 20;

/// The system with all owned unknowns put out of it, or `None` where a number leaves 128 bits or it has too
/// many terms.
///
/// Its rows are the inequalities and the equations that own nothing; of rows that are alike the first, and no
/// row that any numbers meet.
pub fn reduce(
    alloc: Global,
    system: &System,
    elimination: &Elimination,
) -> Result<Option<Reduced>, AllocError>
    ensures unknowns { IfOk result (λ o. IfSome o (λ r. r.system.unknowns ≡ system.now.unknowns)) }
    ensures nets { IfOk result (λ o. IfSome o (λ r. r.system.nets ≡ [])) }
    ensures rows { IfOk result (λ o. IfSome o (λ s. (i : ℕ) (r : Row) → slice_get s.system.rows i ≡ Some r → IsRowWithin s.system.unknowns r)) }
{
    let Some(sums) = left_sums(alloc, system, elimination)? else {
        return Ok(None);
    };
    let mut rows = Items::new(alloc);
    for sum in sums.as_slice() {
        let row = row_of(alloc, system, sum)?;
        if !is_within(&row, system.unknowns) {
            return Ok(None);
        }
        rows.push(row)?;
    }
    let system = System {
        unknowns: system.unknowns,
        rows,
        nets: Items::new(alloc),
    };
    Ok(Some(Reduced { system, sums }))
}

/// The row that a sum is: of the kind of the row that it began with.
fn row_of(alloc: Global, system: &System, sum: &RowSum) -> Result<Row, AllocError> {
    Ok(Row {
        form: sum.form.copy(alloc)?,
        kind: kind_at(system, sum.row),
    })
}

fn kind_at(system: &System, row: usize) -> RowKind {
    match system.rows.get(row) {
        Some(row) => row.kind,
        None => RowKind::Le,
    }
}

/// Whether the row names unknowns below a number alone, and doesn't hold the least number.
pub fn is_within(row: &Row, unknowns: u32) -> bool
    ensures { IsTrue result ↔ IsRowWithin unknowns row.now }
{
    if row.form.constant < LEAST {
        return false;
    }
    for (unknown, coefficient) in row.form.coefficients.as_slice() {
        if *unknown >= unknowns || *coefficient < LEAST {
            return false;
        }
    }
    true
}

/// The sums that say something: inequalities with the owned unknowns put out of them, and equations that own none.
fn left_sums(
    alloc: Global,
    system: &System,
    elimination: &Elimination,
) -> Result<Option<Items<RowSum>>, AllocError> {
    let mut left = Left::new(alloc, system.rows.len())?;
    if left.put_all(alloc, system, elimination)? {
        Ok(Some(left.sums))
    } else {
        Ok(None)
    }
}

fn copy_of(alloc: Global, sum: &RowSum) -> Result<RowSum, AllocError> {
    Ok(RowSum {
        row: sum.row,
        form: sum.form.copy(alloc)?,
        steps: Items::from_slice(alloc, sum.steps.as_slice())?,
    })
}

/// The sums so far, no two alike, found by a table of hashes.
#[derive(Drop)]
struct Left {
    sums: Items<RowSum>,
    kinds: Items<RowKind>,
    /// Each place holds the number of a sum behind it by one, or 0; a sum stands at the place of its hash, or at the
    /// first free one behind it.
    table: Vec<usize>,
    terms: usize,
}

impl Left {
    fn new(alloc: Global, rows: usize) -> Result<Left, AllocError> {
        let table = vec![in alloc; 0; rows.saturating_mul(2)]?;
        Ok(Left {
            sums: Items::new(alloc),
            kinds: Items::new(alloc),
            table,
            terms: 0,
        })
    }

    /// Puts all sums that say something; false where a number leaves 128 bits or there are too many terms.
    fn put_all(
        &mut self,
        alloc: Global,
        system: &System,
        elimination: &Elimination,
    ) -> Result<bool, AllocError> {
        Ok(
            self.put_equations(alloc, elimination)?
                && self.put_inequalities(alloc, system, elimination)?,
        )
    }

    fn put_equations(
        &mut self,
        alloc: Global,
        elimination: &Elimination,
    ) -> Result<bool, AllocError> {
        for (at, sum) in elimination.sums().iter().enumerate() {
            if elimination.find_owned(at).is_none()
                && !self.put(copy_of(alloc, sum)?, RowKind::Eq)?
            {
                return Ok(false);
            }
        }
        Ok(true)
    }

    fn put_inequalities(
        &mut self,
        alloc: Global,
        system: &System,
        elimination: &Elimination,
    ) -> Result<bool, AllocError> {
        for (at, row) in system.rows.as_slice().iter().enumerate() {
            if matches!(row.kind, RowKind::Le) {
                let Some(sum) = elimination.reduce(alloc, at, &row.form)? else {
                    return Ok(false);
                };
                if !self.put(sum, RowKind::Le)? {
                    return Ok(false);
                }
            }
        }
        Ok(true)
    }

    /// Puts a sum behind the others where it says something new; false where there are too many terms.
    fn put(&mut self, sum: RowSum, kind: RowKind) -> Result<bool, AllocError> {
        if is_met_always(&sum.form, kind) {
            return Ok(true);
        }
        let Some(place) = self.free_place(&sum.form, kind) else {
            return Ok(true);
        };
        self.terms = self.terms.saturating_add(sum.form.coefficients.len());
        if self.terms > MOST_TERMS {
            return Ok(false);
        }
        if place < self.table.len() {
            self.table[place] = self.sums.len().saturating_add(1);
        }
        self.sums.push(sum)?;
        self.kinds.push(kind)?;
        Ok(true)
    }

    /// Where a sum of this form would stand in the table, or `None` where one like it stands there.
    fn free_place(&self, form: &Form, kind: RowKind) -> Option<usize> {
        let size = self.table.len();
        if size == 0 {
            return Some(0);
        }
        let first = (hash_of(form) % size as u64) as usize;
        for step in 0..size {
            let place = (first + step) % size;
            let number = self.table[place];
            if number == 0 {
                return Some(place);
            }
            if self.is_like(number - 1, form, kind) {
                return None;
            }
        }
        Some(size)
    }

    fn is_like(&self, sum: usize, form: &Form, kind: RowKind) -> bool {
        let (Some(other), Some(own)) = (self.sums.get(sum), self.kinds.get(sum)) else {
            return false;
        };
        is_equation(*own) == is_equation(kind)
            && other.form.constant == form.constant
            && other.form.coefficients.as_slice() == form.coefficients.as_slice()
    }
}

fn is_equation(kind: RowKind) -> bool {
    matches!(kind, RowKind::Eq)
}

/// Whether the form has no unknowns, and a constant that meets the row.
fn is_met_always(form: &Form, kind: RowKind) -> bool {
    if !form.coefficients.is_empty() {
        return false;
    }
    match kind {
        RowKind::Le => form.constant <= 0,
        RowKind::Eq => form.constant == 0,
    }
}

/// By the multiplication of Fowler, Noll and Vo, over the words of the form.
fn hash_of(form: &Form) -> u64 {
    let mut hash = mix(0xcbf2_9ce4_8422_2325, word_of(form.constant));
    for (unknown, coefficient) in form.coefficients.as_slice() {
        hash = mix(mix(hash, u64::from(*unknown)), word_of(*coefficient));
    }
    hash
}

/// The lower half of the number's amount.
fn word_of(number: i128) -> u64 {
    (number.unsigned_abs() % (1 << 64)) as u64
}

fn mix(hash: u64, word: u64) -> u64 {
    (hash ^ word).wrapping_mul(0x100_0000_01b3)
}
