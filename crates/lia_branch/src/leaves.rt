ghost use Rattle.std.specs.Prelude.{◌≡◌, pos, ◌<ℤ◌, ◌≤ℤ◌, false, IsTrue};
ghost use Rattle.lia_tableau.specs.Crossing.{column_number};
ghost use Rattle.lia_tableau.specs.Shown.{IsStatus};
ghost use Rattle.lia_tableau.specs.declared.status.TableauStatus.TheVariants.{Divisor, Conflict};
ghost use Rattle.lia_branch.specs.Founds.{IsReadyTableau};
ghost use Rattle.lia_branch.specs.Forks.{IsVisitAt};

use crate::leaf_sums::{multipliers_of, remainders_of};
use crate::stop::StopReason;
use crate::visit::Visit;
use farkas_check::{LeafTest, System, Tree, test_divisor, test_farkas};
use lia_tableau::{Tableau, unknowns_divisor};
use std::alloc::{AllocError, Global};
use sv_linear::{Column, Row};

/// The leaf of the line at a place, which shows a conflict.
pub(crate) fn conflict_leaf(
    alloc: Global,
    system: &System,
    rows: &[Row],
    tableau: &Tableau,
    at: u32,
) -> Result<Visit, AllocError>
    requires ready { IsReadyTableau system.now rows.now tableau.now }
    requires status { IsStatus tableau.now (Conflict at) }
    ensures { IsVisitAt system.now rows.now tableau.now result }
{
    let line = tableau.identity(at);
    let negated = is_negative(line.form.constant);
    let multipliers = multipliers_of(alloc, system.unknowns, &line.form, negated)?;
    match test_farkas(alloc, system.unknowns, rows, multipliers.as_slice())? {
        LeafTest::Closes => Ok(Visit::Closed(Tree::Farkas { multipliers })),
        LeafTest::Fails => unreachable!(),
        LeafTest::Past(column) => Ok(past_sum(column, system.unknowns)),
    }
}

/// The leaf of the line at a place, which shows a divisor.
pub(crate) fn divisor_leaf(
    alloc: Global,
    system: &System,
    rows: &[Row],
    tableau: &Tableau,
    at: u32,
) -> Result<Visit, AllocError>
    requires ready { IsReadyTableau system.now rows.now tableau.now }
    requires status { IsStatus tableau.now (Divisor at) }
    ensures { IsVisitAt system.now rows.now tableau.now result }
{
    let line = tableau.identity(at);
    let divisor = unknowns_divisor(system.unknowns, &line.form);
    let multipliers = remainders_of(alloc, system.unknowns, &line.form, divisor)?;
    match test_divisor(
        alloc,
        system.unknowns,
        rows,
        multipliers.as_slice(),
        divisor,
    )? {
        LeafTest::Closes => Ok(Visit::Closed(Tree::Divisor {
            multipliers,
            divisor,
        })),
        LeafTest::Fails => unreachable!(),
        LeafTest::Past(column) => Ok(past_sum(column, system.unknowns)),
    }
}

/// What is found where the leaf's sum leaves 128 bits at a column, the constant's being that after the last unknown.
fn past_sum(column: Column, unknowns: u32) -> Visit
    ensures { result ≡ Visit.Stopped (StopReason.PastSum (column_number unknowns column)) }
{
    let number = match column {
        Column::Unknown(unknown) => unknown,
        Column::Constant => unknowns,
    };
    Visit::Stopped(StopReason::PastSum(number))
}

fn is_negative(number: i128) -> bool
    ensures negative { IsTrue result → number <ℤ pos 0 }
    ensures not_negative { result ≡ false → pos 0 ≤ℤ number }
{
    number < 0
}
