ghost use Rattle.std.specs.Prelude.{◌≡◌, map, List, [], ◌∷◌, ◌++◌, IsTrue, IfOk, OnOk};
ghost use Rattle.sv_linear.specs.Rows.{NameUnknowns};
ghost use Rattle.sv_linear.specs.Terms.{AscendsWithin};
ghost use Rattle.farkas_check.specs.Closings.{FarkasRule, DivisorRule};
ghost use Rattle.farkas_check.specs.Fitting.{IsAccepted, LeafFits};
ghost use Rattle.farkas_check.specs.NodeLaws.{Told};
ghost use Rattle.farkas_check.specs.Systems.{constraint_of};
ghost use Rattle.farkas_check.specs.declared.net.Net.{Net};

use crate::bound_rows::{at_least_row, at_most_row};
use farkas_check::{LeafTest, System, Tree, test_divisor, test_farkas};
use std::alloc::{AllocError, Global};
use sv_linear::Row;
use sv_list::{Copied, Items};

/// How many splits of a tree that is accepted may stand above one another.
const MOST_DEPTH: u32 = 1024;

/// Whether the checker takes the tree; false too where it has set splits, or more than 1,024 splits above one
/// another.
///
/// As `closes`, with memory: the rows of the branches stand behind those of the system, and a leaf is linear in the
/// unknowns and in the terms of the rows that it names. So a leaf of many multipliers isn't looked at once for each of
/// its terms.
pub(crate) fn accepts(alloc: Global, system: &System, tree: &Tree) -> Result<bool, AllocError>
    requires { NameUnknowns system.now.unknowns system.now.rows }
    ensures { IfOk result (λ b. IsTrue b → IsAccepted system.now tree.now) }
{
    let mut rows = system.rows.copy(alloc)?;
    accepts_over(alloc, system.unknowns, &mut rows, tree, MOST_DEPTH)
}

/// Whether the tree closes these rows, which are left as they were.
#[cycle(accepts_over)]
fn accepts_over(
    alloc: Global,
    unknowns: u32,
    rows: &mut Items<Row>,
    tree: &Tree,
    depth: u32,
) -> Result<bool, AllocError>
    requires { NameUnknowns unknowns rows.old }
    ensures rows { OnOk result (rows.new ≡ rows.old) }
    ensures told { IfOk result (λ b. IsTrue b → (nets : List Net) → Told nets (map constraint_of rows.old) tree.now) }
{
    match tree {
        Tree::Farkas { multipliers } => accepts_farkas(
            alloc,
            unknowns,
            rows.as_slice(),
            multipliers.as_slice(),
        ),
        Tree::Divisor {
            multipliers,
            divisor,
        } => accepts_divisor(
            alloc,
            unknowns,
            rows.as_slice(),
            multipliers.as_slice(),
            *divisor,
        ),
        Tree::Split {
            unknown,
            at,
            low,
            high,
        } => {
            if depth == 0 || *unknown >= unknowns || *at == i128::MIN || *at == i128::MAX {
                return Ok(false);
            }
            let row = at_most_row(alloc, *unknown, *at)?;
            if !accepts_side(alloc, unknowns, rows, row, low.get(), depth - 1)? {
                return Ok(false);
            }
            let row = at_least_row(alloc, *unknown, *at + 1)?;
            accepts_side(alloc, unknowns, rows, row, high.get(), depth - 1)
        }
        Tree::SetSplit { .. } => Ok(false),
        Tree::Open => Ok(false),
    }
}

/// Whether the tree closes these rows and one more.
#[cycle(accepts_over)]
fn accepts_side(
    alloc: Global,
    unknowns: u32,
    rows: &mut Items<Row>,
    row: Row,
    tree: &Tree,
    depth: u32,
) -> Result<bool, AllocError>
    requires names { NameUnknowns unknowns rows.old }
    requires row { AscendsWithin 0 unknowns row.form.coefficients }
    ensures rows { OnOk result (rows.new ≡ rows.old) }
    ensures told { IfOk result (λ b. IsTrue b → (nets : List Net) → Told nets (map constraint_of rows.old ++ constraint_of row ∷ []) tree.now) }
{
    rows.push(row)?;
    let accepted = accepts_over(alloc, unknowns, rows, tree, depth)?;
    let _row = rows.pop();
    Ok(accepted)
}

fn accepts_farkas(
    alloc: Global,
    unknowns: u32,
    rows: &[Row],
    multipliers: &[(u32, i128)],
) -> Result<bool, AllocError>
    requires { NameUnknowns unknowns rows.now }
    ensures { IfOk result (λ b. IsTrue b → FarkasRule (map constraint_of rows.now) multipliers.now × LeafFits (map constraint_of rows.now) multipliers.now) }
{
    let test = test_farkas(alloc, unknowns, rows, multipliers)?;
    Ok(matches!(test, LeafTest::Closes))
}

fn accepts_divisor(
    alloc: Global,
    unknowns: u32,
    rows: &[Row],
    multipliers: &[(u32, i128)],
    divisor: i128,
) -> Result<bool, AllocError>
    requires { NameUnknowns unknowns rows.now }
    ensures { IfOk result (λ b. IsTrue b → DivisorRule (map constraint_of rows.now) multipliers.now divisor × LeafFits (map constraint_of rows.now) multipliers.now) }
{
    let test = test_divisor(alloc, unknowns, rows, multipliers, divisor)?;
    Ok(matches!(test, LeafTest::Closes))
}
