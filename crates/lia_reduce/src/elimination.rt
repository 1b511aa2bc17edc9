ghost use Rattle.std.specs.Prelude.{◌+◌, OnOk};
ghost use Rattle.sv_linear.specs.Terms.{AscendsWithin};

use crate::weights::{Weights, add_times};
use farkas_check::System;
use std::alloc::{AllocError, Global};
use sv_linear::{CombineFault, Form, RowKind};
use sv_list::{Copied, Items};

/// A row of the system, and with it so often each of some earlier sums.
#[derive(Drop)]
pub struct RowSum {
    /// The row's number in the system.
    pub row: usize,
    pub form: Form,
    /// The numbers of the sums that were added, ascending but for repeats, and how often.
    pub steps: Items<(usize, i128)>,
}

/// An unknown that a sum holds once or -1 times, by which it goes out of others.
#[derive(Clone, Copy)]
pub struct Owned {
    pub unknown: u32,
    pub negative: bool,
}

/// Equations of a system that were taken in turn, the short ones first, each with the unknowns put out of it
/// that earlier ones own.
///
/// A sum owns the last unknown that it holds once or -1 times, so that along a chain each unknown is one step
/// from the first. No sum holds an unknown that an earlier one owns.
#[derive(Drop)]
pub struct Elimination {
    sums: Items<RowSum>,
    /// What each sum owns.
    owned: Items<Option<Owned>>,
    /// For each unknown the number of the sum that owns it.
    owners: Vec<Option<usize>>,
    /// How many unknowns the system has.
    unknowns: u32,
}

/// Rows with more terms than this come after all others, and are looked over for each sum in turn.
const SHORT: usize = 4;

impl Elimination {
    /// The equations of the system, or `None` where a number leaves 128 bits.
    ///
    /// Near linear where the equations hold few unknowns each, as those of chains do; at the worst their
    /// number squared, times their terms.
    pub fn of(alloc: Global, system: &System) -> Result<Option<Elimination>, AllocError> {
        let mut elimination = Elimination {
            owners: vec![in alloc; None; system.unknowns as usize]?,
            sums: Items::new(alloc),
            owned: Items::new(alloc),
            unknowns: system.unknowns,
        };
        if elimination.take_equations(alloc, system)? {
            Ok(Some(elimination))
        } else {
            Ok(None)
        }
    }

    /// Takes the equations in, the short ones first; false where a number leaves 128 bits.
    fn take_equations(&mut self, alloc: Global, system: &System) -> Result<bool, AllocError> {
        for long in [false, true] {
            for (at, row) in system.rows.as_slice().iter().enumerate() {
                if matches!(row.kind, RowKind::Eq) && is_long(&row.form) == long {
                    match self.reduce(alloc, at, &row.form)? {
                        None => return Ok(false),
                        Some(sum) => self.take(sum)?,
                    }
                }
            }
        }
        Ok(true)
    }

    /// The sums, in the order in which they were taken.
    pub fn sums(&self) -> &[RowSum] {
        self.sums.as_slice()
    }

    /// What the sum with this number owns.
    pub fn find_owned(&self, sum: usize) -> Option<Owned> {
        *self.owned.get(sum)?
    }

    /// Whether no unknown is owned.
    pub fn is_idle(&self) -> bool {
        for owned in self.owned.as_slice() {
            if owned.is_some() {
                return false;
            }
        }
        true
    }

    /// Puts what is taken of sums onto the rows that they are made of; false where a number leaves 128 bits.
    pub(crate) fn unfold(&self, sums: &mut Weights, rows: &mut Weights) -> bool {
        for behind in 0..self.sums.len() {
            let at = self.sums.len() - 1 - behind;
            let times = sums.at(at);
            if times != 0 {
                let sum = &self.sums.as_slice()[at];
                if !rows.add(sum.row, times) || !sums.add_each(sum.steps.as_slice(), times) {
                    return false;
                }
            }
        }
        true
    }

    /// The row with all owned unknowns put out of it, or `None` where a number leaves 128 bits.
    pub fn reduce(
        &self,
        alloc: Global,
        row: usize,
        form: &Form,
    ) -> Result<Option<RowSum>, AllocError> {
        if is_long(form) {
            self.reduce_long(alloc, row, form)
        } else {
            self.reduce_short(alloc, row, form)
        }
    }

    fn reduce_short(
        &self,
        alloc: Global,
        row: usize,
        form: &Form,
    ) -> Result<Option<RowSum>, AllocError> {
        let mut form = form.copy(alloc)?;
        let mut steps: Items<(usize, i128)> = Items::new(alloc);
        for _ in 0..self.sums.len() {
            let Some(at) = self.first_owner(&form) else {
                break;
            };
            let Some((sum, by)) = self.step(at, &form) else {
                return Ok(None);
            };
            let Some(next) = plus(alloc, &form, &sum.form, by)? else {
                return Ok(None);
            };
            steps.push((at, by))?;
            form = next;
        }
        Ok(Some(RowSum { row, form, steps }))
    }

    /// The least number of a sum that owns an unknown of the form.
    fn first_owner(&self, form: &Form) -> Option<usize> {
        let mut first: Option<usize> = None;
        for (unknown, _) in form.coefficients.as_slice() {
            if let Some(Some(sum)) = self.owners.get(*unknown as usize) {
                first = earlier(first, *sum);
            }
        }
        first
    }

    /// The sum with this number, and how often it is added to the form so that its unknown goes out.
    fn step(&self, at: usize, form: &Form) -> Option<(&RowSum, i128)> {
        let owned = self.find_owned(at)?;
        let by = factor_of(owned, form.at(owned.unknown))?;
        Some((self.sums.get(at)?, by))
    }

    /// One pass over the sums, over the coefficients of all unknowns.
    fn reduce_long(
        &self,
        alloc: Global,
        row: usize,
        form: &Form,
    ) -> Result<Option<RowSum>, AllocError> {
        let mut dense = DenseForm::zero(alloc, self.owners.len())?;
        if !dense.add(form, 1) {
            return Ok(None);
        }
        let Some(steps) = self.put_out(alloc, &mut dense)? else {
            return Ok(None);
        };
        let form = form_of(alloc, self.unknowns, &dense.numbers, dense.constant)?;
        Ok(Some(RowSum { row, form, steps }))
    }

    /// Adds each sum whose unknown the form holds, so that it goes out: their numbers, and how often; `None` where a
    /// number leaves 128 bits.
    fn put_out(
        &self,
        alloc: Global,
        dense: &mut DenseForm,
    ) -> Result<Option<Items<(usize, i128)>>, AllocError> {
        let mut steps: Items<(usize, i128)> = Items::new(alloc);
        for (at, sum) in self.sums.as_slice().iter().enumerate() {
            let Some(by) = self.factor_at(at, &dense.numbers) else {
                return Ok(None);
            };
            if by != 0 {
                if !dense.add(&sum.form, by) {
                    return Ok(None);
                }
                steps.push((at, by))?;
            }
        }
        Ok(Some(steps))
    }

    /// How often the sum with this number is added so that its unknown goes out: 0 where it isn't there.
    fn factor_at(&self, at: usize, numbers: &[i128]) -> Option<i128> {
        match self.find_owned(at) {
            None => Some(0),
            Some(owned) => match numbers.get(owned.unknown as usize) {
                None => Some(0),
                Some(number) => factor_of(owned, *number),
            },
        }
    }

    /// Takes a sum in, with the last unknown that it holds once or -1 times.
    fn take(&mut self, sum: RowSum) -> Result<(), AllocError> {
        let owned = last_unit(&sum.form);
        if let Some(unit) = owned {
            let unknown = unit.unknown as usize;
            if unknown < self.owners.len() {
                self.owners[unknown] = Some(self.sums.len());
            }
        }
        self.owned.push(owned)?;
        self.sums.push(sum)?;
        Ok(())
    }
}

fn is_long(form: &Form) -> bool {
    form.coefficients.len() > SHORT
}

fn earlier(first: Option<usize>, other: usize) -> Option<usize> {
    match first {
        Some(found) if found <= other => Some(found),
        _ => Some(other),
    }
}

/// The last unknown that the form holds once or -1 times.
fn last_unit(form: &Form) -> Option<Owned> {
    let mut last = None;
    for (unknown, coefficient) in form.coefficients.as_slice() {
        if *coefficient == 1 || *coefficient == -1 {
            last = Some(Owned {
                unknown: *unknown,
                negative: *coefficient < 0,
            });
        }
    }
    last
}

/// How often the owner's sum is added to a form with this coefficient, so that the unknown goes out.
fn factor_of(owned: Owned, coefficient: i128) -> Option<i128> {
    if owned.negative {
        Some(coefficient)
    } else {
        coefficient.checked_neg()
    }
}

fn plus(alloc: Global, form: &Form, other: &Form, by: i128) -> Result<Option<Form>, AllocError> {
    match form.combine(alloc, 1, other, by) {
        Ok(sum) => Ok(Some(sum)),
        Err(CombineFault::Outside(_)) => Ok(None),
        Err(CombineFault::Memory(error)) => Err(error),
    }
}

/// A form with the coefficients of all unknowns, that of unknown u at place u.
#[derive(Drop)]
struct DenseForm {
    numbers: Vec<i128>,
    constant: i128,
}

impl DenseForm {
    fn zero(alloc: Global, unknowns: usize) -> Result<DenseForm, AllocError> {
        let numbers = vec![in alloc; 0; unknowns]?;
        Ok(DenseForm {
            numbers,
            constant: 0,
        })
    }

    /// Adds a form so often; false where a sum leaves 128 bits.
    fn add(&mut self, form: &Form, by: i128) -> bool {
        let Some(constant) = add_times(self.constant, by, form.constant) else {
            return false;
        };
        self.constant = constant;
        add_terms(&mut self.numbers, form, by)
    }
}

/// Adds the form's coefficients, so often, to the numbers of their unknowns; false where a sum leaves 128 bits.
fn add_terms(numbers: &mut Vec<i128>, form: &Form, by: i128) -> bool {
    for (unknown, coefficient) in form.coefficients.as_slice() {
        let at = *unknown as usize;
        if at < numbers.len() {
            match add_times(numbers[at], by, *coefficient) {
                None => return false,
                Some(sum) => numbers[at] = sum,
            }
        }
    }
    true
}

/// The form with these coefficients, that of unknown u at place u, for so many unknowns.
fn form_of(
    alloc: Global,
    unknowns: u32,
    numbers: &[i128],
    constant: i128,
) -> Result<Form, AllocError> {
    let mut form = Form::of_constant(alloc, constant);
    for unknown in 0..unknowns {
        push_term(&mut form, unknown, number_at(numbers, unknown))?;
    }
    Ok(form)
}

fn number_at(numbers: &[i128], unknown: u32) -> i128 {
    match numbers.get(unknown as usize) {
        Some(number) => *number,
        None => 0,
    }
}

/// Adds the term of an unknown behind all that the form has, where it isn't 0.
fn push_term(form: &mut Form, unknown: u32, coefficient: i128) -> Result<(), AllocError>
    requires { AscendsWithin 0 unknown form.old.coefficients }
    ensures { OnOk result (AscendsWithin 0 (unknown + 1) form.new.coefficients) }
{
    if coefficient == 0 {
        return Ok(());
    }
    form.push(unknown, coefficient)?;
    Ok(())
}
