ghost use Rattle.std.specs.Prelude.{◌≡◌, ◌<◌, ◌^◌, [], ◌∷◌, ◌++◌, length, replicate, IfOk, MatchResult};
ghost use Rattle.lia_tableau.specs.Bases.{IsTableau};
ghost use Rattle.lia_tableau.specs.Verdicts.{AreVerdicts};
ghost use Rattle.lia_tableau.specs.declared.standing.Standing.TheVariants.{Outside, Basic};
ghost use Rattle.sv_linear.specs.Rows.{HasSymmetricEntries, IsRowWithin};

use crate::changes::{apply_changes, changes_of, put_row};
use crate::crossing::{orient, without};
use crate::fault::TableauFault;
use crate::lines::row_at;
use crate::shown::{Sought, due_exchange, least_row};
use crate::standing::Standing;
use crate::status::TableauStatus;
use crate::table::Table;
use crate::verdict::{RowVerdict, no_verdicts, verdict_of, verdicts_of};
use std::alloc::{AllocError, Global};
use std::marker::Model;
use std::mem;
use sv_linear::{Row, RowKind};
use sv_list::{Copied, Items};

/// A simplex tableau over the unknowns and the slacks of some rows.
///
/// Contracts see a [`Table`]. Memory is linear in the quantities and in the terms of the lines.
pub struct Tableau {
    table: Table,
    verdicts: Items<Option<RowVerdict>>,
}

// A drop by hand is one call where a derived one is a call for each vector inside.
impl Drop for Tableau {
    fn drop(self) {
        let Self {
            table: _,
            verdicts: _,
        } = self;
    }
}

impl Model for Tableau {
    ghost use Rattle.lia_tableau.specs.declared.table.Table.{Table};
    ghost use Rattle.lia_tableau.specs.Verdicts.{AreVerdicts};
    ghost use Rattle.sv_linear.specs.contracts.form.Form as form;
    ghost use Rattle.std.specs.Coded.{codes};

    ghost coded = { Prim.hlevel (codes, form.the_row.coded) };

    ghost Value = { Table };

    ghost view = { λ t. t.table };

    ghost invariant = { λ t. AreVerdicts t.table.unknowns t.table.rows t.table.lines t.verdicts };
}

impl Tableau {
    ghost use Rattle.std.specs.Prelude.{◌≡◌, ℕ, ℤ, pos, ◌<ℤ◌, ◌+◌, ◌<◌, ◌^◌, ◌↔◌, [], ◌∷◌, ◌++◌, Some, length, slice_get, IfOk, IfErr, OnOk, OnErr};
    ghost use Rattle.sv_linear.specs.Forms.{form_value};
    ghost use Rattle.sv_linear.specs.declared.row.Row.{Row};
    ghost use Rattle.sv_linear.specs.declared.row.RowKind.TheVariants.{Eq};
    ghost use Rattle.sv_linear.specs.Rows.{NameUnknowns};
    ghost use Rattle.lia_tableau.specs.Quantities.{RowsHold, SolvesWithSlacks, slack_sum};
    ghost use Rattle.lia_tableau.specs.Bases.{IsRowAt, LinesHold, IsSlackBasis};
    ghost use Rattle.lia_tableau.specs.BasicPoints.{IsValueAt, IsPoint};
    ghost use Rattle.lia_tableau.specs.Shown.{IsStatus};
    ghost use Rattle.lia_tableau.specs.Crossing.{IsPastFault, IsMemory};
    ghost use Rattle.lia_tableau.specs.Pivoting.{IsPivoted, IsPastPivot};
    ghost use Rattle.lia_tableau.specs.Adding.{IsPutOut, IsRowAdded, IsPastRow};
    ghost use Rattle.lia_tableau.specs.declared.status.TableauStatus.TheVariants.{Divisor, Conflict, Point, Due};
    ghost use Rattle.lia_tableau.specs.declared.standing.Standing.TheVariants.{Basic};

    /// The tableau whose basis are the slacks of the rows, which name unknowns below `unknowns` alone and
    /// don't hold the number -2^127.
    ///
    /// The only refusal is want of memory, also where unknowns and rows together are 2^32 or more.
    /// Linear in the unknowns and in the terms of the rows.
    pub fn new(alloc: Global, rows: &[Row], unknowns: u32) -> Result<Tableau, TableauFault>
        requires { (i : ℕ) (r : Row) → slice_get rows.now i ≡ Some r → IsRowWithin unknowns r }
        ensures unknowns { IfOk result (λ t. t.unknowns ≡ unknowns) }
        ensures rows { IfOk result (λ t. t.rows ≡ rows.now) }
        ensures pivots { IfOk result (λ t. t.pivots ≡ 0) }
        ensures basis { IfOk result (λ t. IsSlackBasis t.unknowns t.lines) }
        ensures memory { IfErr result IsMemory }
    {
        let mut tableau = Tableau {
            table: Table {
                unknowns,
                rows: Items::new(alloc),
                lines: outsides(alloc, unknowns)?,
                pivots: 0,
            },
            verdicts: no_verdicts(alloc, unknowns)?,
        };
        for row in rows {
            let line = tableau.slack_line(alloc, row)?;
            tableau.push(alloc, row, line)?;
        }
        Ok(tableau)
    }

    /// Adds a row that names unknowns alone and doesn't hold the number -2^127. Its slack comes into the
    /// basis, whose other quantities are put out of the row in ascending order.
    ///
    /// One merge for each quantity of the basis that the row then holds.
    pub fn add_row(&mut self, alloc: Global, row: &Row) -> Result<(), TableauFault>
        requires { IsRowWithin self.old.unknowns row.now }
        ensures unknowns { self.new.unknowns ≡ self.old.unknowns }
        ensures rows { OnOk result (self.new.rows ≡ self.old.rows ++ row.now ∷ []) }
        ensures pivots { self.new.pivots ≡ self.old.pivots }
        ensures added { OnOk result (IsRowAdded self.old.lines self.new.lines row.now) }
        ensures past { IfErr result (IsPastFault (IsPastRow self.old row.now)) }
        ensures unchanged { OnErr result (self.new ≡ self.old) }
    {
        let mut line = self.slack_line(alloc, row)?;
        let quantities = self.table.lines.len() as u32 + 1;
        for (at, standing) in self.table.lines.as_slice().iter().enumerate() {
            line = without(alloc, standing, line, at as u32, quantities)?;
        }
        self.push(alloc, row, line)?;
        Ok(())
    }

    /// The tableau of a table; what each of its lines shows is found anew. Linear in the terms of the lines.
    pub fn of_table(alloc: Global, table: Table) -> Result<Tableau, AllocError>
        ensures { IfOk result (λ t. t ≡ table) }
    {
        let verdicts = verdicts_of(
            alloc,
            table.unknowns,
            table.rows.as_slice(),
            table.lines.as_slice(),
        )?;
        Ok(Tableau { table, verdicts })
    }

    /// What contracts see of the tableau.
    pub fn table(&self) -> &Table
        ensures { result.now ≡ self.now }
    {
        &self.table
    }

    /// The rows, in the order in which they were added.
    pub fn rows(&self) -> &[Row]
        ensures { result.now ≡ self.now.rows }
    {
        self.table.rows.as_slice()
    }

    /// How many pivots have been made.
    pub fn pivots(&self) -> u64
        ensures { result ≡ self.now.pivots }
    {
        self.table.pivots
    }

    /// What the lines show. Reads what is kept of each line, three flags a quantity, and the terms of one
    /// line at the most; takes no memory.
    pub fn status(&self) -> TableauStatus
        ensures shows { IsStatus self.now result }
        ensures no_whole { (k : ℕ) → result ≡ Divisor k → (x : ℕ → ℤ) → SolvesWithSlacks self.now.unknowns self.now.rows x (pos 1) → ⊥ }
        ensures no_rational { (k : ℕ) → result ≡ Conflict k → (x : ℕ → ℤ) (d : ℤ) → pos 0 <ℤ d → SolvesWithSlacks self.now.unknowns self.now.rows x d → ⊥ }
        ensures meets { result ≡ Point → (x : ℕ → ℤ) (d : ℤ) → IsPoint self.now.lines x d → SolvesWithSlacks self.now.unknowns self.now.rows x d }
    {
        if let Some(found) = least_row(&self.table, self.verdicts.as_slice(), Sought::Divisor) {
            return TableauStatus::Divisor(found.place);
        }
        if let Some(found) = least_row(&self.table, self.verdicts.as_slice(), Sought::Conflict) {
            return TableauStatus::Conflict(found.place);
        }
        match due_exchange(&self.table, self.verdicts.as_slice()) {
            Some(_) => TableauStatus::Due,
            None => TableauStatus::Point,
        }
    }

    /// The value of an unknown at the present point: numerator, and denominator above 0. A binary search;
    /// takes no memory.
    pub fn value(&self, unknown: u32) -> (i128, i128)
        requires { unknown < self.now.unknowns }
        ensures positive { pos 0 <ℤ result.1 }
        ensures value { IsValueAt self.now.lines unknown result.0 result.1 }
    {
        match &self.table.lines.as_slice()[unknown as usize] {
            Standing::Outside => (0, 1),
            Standing::Basic(row) => (-row.form.constant, row.form.at(unknown)),
        }
    }

    /// The line at a place, as an equation over the quantities in their order. The coefficients of the
    /// slacks are the multipliers by which the rows give it. Linear in the quantities; takes no memory.
    pub fn identity(&self, at: u32) -> &Row
        requires { at < length self.now.rows }
        ensures row { (q : ℕ) × IsRowAt self.now.lines at q result.now }
        ensures equation { result.now.kind ≡ Eq }
        ensures holds { (x : ℕ → ℤ) (d : ℤ) → RowsHold self.now.unknowns self.now.rows x d → form_value x d result.now.form ≡ pos 0 }
        ensures multipliers { NameUnknowns self.now.unknowns self.now.rows → (x : ℕ → ℤ) (d : ℤ) → form_value x d result.now.form ≡ slack_sum result.now.form.coefficients x d self.now.unknowns self.now.rows }
    {
        row_at(self.table.lines.as_slice(), at)
    }

    /// Makes the due pivot. One merge, and one look at the merged terms, for each line that holds the
    /// quantity that comes in.
    ///
    /// Want of memory is also answered where 2^64 - 1 pivots have been made.
    pub fn pivot(&mut self, alloc: Global) -> Result<(), TableauFault>
        requires { IsStatus self.old Due }
        ensures unknowns { self.new.unknowns ≡ self.old.unknowns }
        ensures rows { self.new.rows ≡ self.old.rows }
        ensures pivoted { OnOk result (IsPivoted self.old self.new) }
        ensures solutions { (x : ℕ → ℤ) (d : ℤ) → LinesHold self.new.lines x d ↔ LinesHold self.old.lines x d }
        ensures pivots { OnOk result (self.new.pivots ≡ self.old.pivots + 1) }
        ensures past { IfErr result (IsPastFault (IsPastPivot self.old)) }
        ensures unchanged { OnErr result (self.new ≡ self.old) }
    {
        let Some(exchange) = due_exchange(&self.table, self.verdicts.as_slice()) else {
            unreachable!()
        };
        let Some(pivots) = self.table.pivots.checked_add(1) else {
            return Err(TableauFault::Memory(AllocError));
        };
        let Standing::Basic(first) = &self.table.lines.as_slice()[exchange.out as usize] else {
            unreachable!()
        };
        let line = orient(alloc, first, exchange.at)?;
        let changes = changes_of(alloc, self.table.lines.as_slice(), first, exchange)?;
        let Table {
            unknowns,
            rows,
            mut lines,
            pivots: _,
        } = mem::replace(&mut self.table, Table::empty(alloc));
        let verdicts = &mut self.verdicts;
        apply_changes(unknowns, rows.as_slice(), &mut lines, verdicts, changes);
        lines.set(exchange.out as usize, Standing::Outside);
        verdicts.set(exchange.out as usize, None);
        let at = exchange.at as usize;
        put_row(unknowns, rows.as_slice(), &mut lines, verdicts, at, line);
        self.table = Table {
            unknowns,
            rows,
            lines,
            pivots,
        };
        Ok(())
    }

    /// The row with its slack, the quantity after all others, as an equation.
    fn slack_line(&self, alloc: Global, row: &Row) -> Result<Row, AllocError>
        requires { IsRowWithin self.now.unknowns row.now }
        ensures put_out { IfOk result (IsPutOut self.now.lines row.now 0) }
        ensures counted { OnOk result (length self.now.lines + 1 < 2 ^ 32) }
    {
        let slack = self.table.lines.len() as u32;
        if slack == u32::MAX {
            return Err(AllocError);
        }
        let mut form = row.form.copy(alloc)?;
        form.push(slack, 1)?;
        Ok(Row {
            form,
            kind: RowKind::Eq,
        })
    }

    /// Adds a row and the line of its slack.
    fn push(&mut self, alloc: Global, row: &Row, line: Row) -> Result<(), AllocError>
        requires put_out { IsPutOut self.old.lines row.now (length self.old.lines) line }
        requires counted { length self.old.lines + 1 < 2 ^ 32 }
        ensures unknowns { self.new.unknowns ≡ self.old.unknowns }
        ensures pivots { self.new.pivots ≡ self.old.pivots }
        ensures rows { OnOk result (self.new.rows ≡ self.old.rows ++ row.now ∷ []) }
        ensures lines { OnOk result (self.new.lines ≡ self.old.lines ++ Basic line ∷ []) }
        ensures unchanged { OnErr result (self.new ≡ self.old) }
    {
        let row = row.copy(alloc)?;
        let Table {
            unknowns,
            mut rows,
            mut lines,
            pivots,
        } = mem::replace(&mut self.table, Table::empty(alloc));
        let grown = grow(
            unknowns,
            &mut rows,
            &mut lines,
            &mut self.verdicts,
            row,
            line,
        );
        self.table = Table {
            unknowns,
            rows,
            lines,
            pivots,
        };
        grown
    }
}

/// Adds a row, a line and what it shows, or none of them.
fn grow(
    unknowns: u32,
    rows: &mut Items<Row>,
    lines: &mut Items<Standing>,
    verdicts: &mut Items<Option<RowVerdict>>,
    row: Row,
    line: Row,
) -> Result<(), AllocError>
    requires counted { length lines.old < 2 ^ 32 }
    requires symmetric { HasSymmetricEntries line.form }
    requires tableau { IsTableau unknowns rows.old lines.old }
    requires told { AreVerdicts unknowns rows.old lines.old verdicts.old }
    ensures grown { MatchResult result (λ _. (rows.new ≡ rows.old ++ row ∷ []) × (lines.new ≡ lines.old ++ Basic line ∷ [])) (λ _. (rows.new ≡ rows.old) × (lines.new ≡ lines.old)) }
    ensures told { AreVerdicts unknowns rows.new lines.new verdicts.new }
{
    rows.push(row)?;
    let slack = lines.len() as u32;
    let verdict = verdict_of(unknowns, rows.as_slice(), slack, &line.form);
    if verdicts.push(Some(verdict)).is_err() {
        let _row = rows.pop();
        return Err(AllocError);
    }
    if lines.push(Standing::Basic(line)).is_err() {
        let _verdict = verdicts.pop();
        let _row = rows.pop();
        return Err(AllocError);
    }
    Ok(())
}

/// So many quantities outside.
fn outsides(alloc: Global, count: u32) -> Result<Items<Standing>, AllocError>
    ensures { IfOk result (λ lines. lines ≡ replicate count Outside) }
{
    let mut lines = Items::new(alloc);
    for _ in 0..count {
        lines.push(Standing::Outside)?;
    }
    Ok(lines)
}

impl Copied for Tableau {
    fn copy(&self, alloc: Global) -> Result<Tableau, AllocError> {
        Ok(Tableau {
            table: Table {
                unknowns: self.table.unknowns,
                rows: self.table.rows.copy(alloc)?,
                lines: self.table.lines.copy(alloc)?,
                pivots: self.table.pivots,
            },
            verdicts: Items::from_slice(alloc, self.verdicts.as_slice())?,
        })
    }
}
