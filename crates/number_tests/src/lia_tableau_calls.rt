ghost use Rattle.std.specs.Prelude.{◌≡◌, ◌+◌, length, IfOk, OnOk};
ghost use Rattle.sv_linear.specs.Terms.{AscendsWithin};
ghost use Rattle.sv_linear.specs.Rows.{HasSymmetricEntries, IsRowWithin};

use lia_tableau::{Tableau, TableauFault, TableauStatus};
use std::alloc::Global;
use std::test::Fail;
use sv_linear::{Form, Row, RowKind};
use sv_list::{Copied, Items};

const MAX: i128 = i128::MAX;

const LEAST: i128 = -i128::MAX;

/// A row's kind, its coefficients at the unknowns 0 and 1, and its constant.
type Entries = (RowKind, [i128; 2], i128);

/// What a line has at five quantities and at the constant.
type Line = [i128; 6];

/// Adds the term of an unknown above all that the form has.
fn push_term(form: &mut Form, unknown: u32, coefficient: i128) -> Result<(), Fail>
    requires unknowns { AscendsWithin 0 unknown form.old.coefficients }
    requires symmetric { HasSymmetricEntries form.old }
    ensures unknowns { OnOk result (AscendsWithin 0 (unknown + 1) form.new.coefficients) }
    ensures symmetric { OnOk result (HasSymmetricEntries form.new) }
{
    if coefficient < LEAST {
        return Err(Fail::new("the least number"));
    }
    if coefficient == 0 {
        return Ok(());
    }
    form.push(unknown, coefficient)?;
    Ok(())
}

fn row_of(
    alloc: Global,
    kind: RowKind,
    coefficients: [i128; 2],
    constant: i128,
) -> Result<Row, Fail>
    ensures { IfOk result (IsRowWithin 2) }
{
    if constant < LEAST {
        return Err(Fail::new("the least number"));
    }
    let mut form = Form::of_constant(alloc, constant);
    push_term(&mut form, 0, coefficients[0])?;
    push_term(&mut form, 1, coefficients[1])?;
    Ok(Row { form, kind })
}

fn tableau_of(alloc: Global, table: &[Entries]) -> Result<Tableau, Fail>
    ensures unknowns { IfOk result (λ t. t.unknowns ≡ 2) }
    ensures rows { IfOk result (λ t. length t.rows ≡ length table.now) }
{
    let mut rows = Items::new(alloc);
    for entries in table {
        let (kind, coefficients, constant) = *entries;
        rows.push(row_of(alloc, kind, coefficients, constant)?)?;
    }
    Ok(Tableau::new(alloc, rows.as_slice(), 2)?)
}

fn line_of(row: &Row) -> Line {
    let form = &row.form;
    [
        form.at(0),
        form.at(1),
        form.at(2),
        form.at(3),
        form.at(4),
        form.constant,
    ]
}

/// Makes the pivot, which is to be due.
fn turn(alloc: Global, tableau: &mut Tableau) -> Result<(), Fail>
    ensures unknowns { tableau.new.unknowns ≡ tableau.old.unknowns }
    ensures rows { tableau.new.rows ≡ tableau.old.rows }
{
    match tableau.status() {
        TableauStatus::Due => {
            tableau.pivot(alloc)?;
            Ok(())
        }
        _ => Err(Fail::new("no pivot is due")),
    }
}

/// The three lines of a tableau of three rows.
fn lines_of(tableau: &Tableau) -> [Line; 3]
    requires { length tableau.now.rows ≡ 3 }
{
    [
        line_of(tableau.identity(0)),
        line_of(tableau.identity(1)),
        line_of(tableau.identity(2)),
    ]
}

/// What is told of a tableau of three rows and two unknowns: its lines, x, y and its status.
type State = ([Line; 3], (i128, i128), (i128, i128), TableauStatus);

fn state_of(tableau: &Tableau) -> State
    requires unknowns { tableau.now.unknowns ≡ 2 }
    requires rows { length tableau.now.rows ≡ 3 }
{
    (
        lines_of(tableau),
        tableau.value(0),
        tableau.value(1),
        tableau.status(),
    )
}

/// 2 x is at least 3, 3 y is at least 1, and x + y is at least 7: solved by hand.
const SOLVED: [Entries; 3] = [
    (RowKind::Le, [-2, 0], 3),
    (RowKind::Le, [0, -3], 1),
    (RowKind::Le, [-1, -1], 7),
];

const SOLUTION: State = (
    [
        [3, 0, 0, 1, -3, -20],
        [0, 3, 0, -1, 0, -1],
        [0, 0, 3, 2, -6, -31],
    ],
    (20, 3),
    (1, 3),
    TableauStatus::Point,
);

fn state_after_three_pivots(alloc: Global) -> Result<State, Fail> {
    let mut tableau = tableau_of(alloc, SOLVED.as_slice())?;
    turn(alloc, &mut tableau)?;
    turn(alloc, &mut tableau)?;
    turn(alloc, &mut tableau)?;
    Ok(state_of(&tableau))
}

#[test]
fn three_pivots(rt: HostRuntime) -> Result<(), Fail> {
    assert!(rt; state_after_three_pivots(rt.alloc())? == SOLUTION);
    Ok(())
}

/// Makes the due pivots, and says whether some list of lines came twice.
fn comes_back(alloc: Global, tableau: &mut Tableau) -> Result<bool, Fail>
    requires { length tableau.old.rows ≡ 3 }
{
    let mut seen = Items::new(alloc);
    for _ in 0..20 {
        let lines = lines_of(tableau);
        if seen.as_slice().contains(&lines) {
            return Ok(true);
        }
        seen.push(lines)?;
        if tableau.status() != TableauStatus::Due {
            return Ok(false);
        }
        turn(alloc, tableau)?;
    }
    Err(Fail::new("too many pivots"))
}

/// Whether some list of lines comes twice before the tableau of these rows is settled.
fn goes_round(alloc: Global, table: &[Entries]) -> Result<bool, Fail>
    requires { length table.now ≡ 3 }
{
    let mut tableau = tableau_of(alloc, table)?;
    comes_back(alloc, &mut tableau)
}

/// At the nodes of a split.
#[test]
fn no_basis_twice(rt: HostRuntime) -> Result<(), Fail> {
    for third in [
        (RowKind::Le, [1, 0], -1),
        (RowKind::Le, [-1, 0], 2),
        (RowKind::Le, [-1, -1], 7),
        (RowKind::Le, [1, 2], 0),
        (RowKind::Eq, [1, -1], 3),
    ] {
        let table = [(RowKind::Le, [-2, 3], 1), (RowKind::Le, [3, -5], 2), third];
        assert!(rt; !goes_round(rt.alloc(), &table)?);
    }
    Ok(())
}

fn status_of(alloc: Global, first: Entries, second: Entries) -> Result<TableauStatus, Fail> {
    let table = [first, second];
    Ok(tableau_of(alloc, table.as_slice())?.status())
}

/// What two rows show before a pivot.
#[test]
fn statuses(rt: HostRuntime) -> Result<(), Fail> {
    let none = (RowKind::Le, [0, 0], 1);
    for (first, second, status) in [
        ((RowKind::Eq, [2, -2], 1), none, TableauStatus::Divisor(0)),
        (
            (RowKind::Le, [2, -2], 1),
            (RowKind::Eq, [3, 0], MAX),
            TableauStatus::Divisor(1),
        ),
        ((RowKind::Eq, [MAX, 0], 1), none, TableauStatus::Divisor(0)),
        ((RowKind::Eq, [2, 3], 1), none, TableauStatus::Conflict(1)),
        ((RowKind::Eq, [0, 0], -1), none, TableauStatus::Conflict(0)),
        (
            (RowKind::Eq, [2, 0], 4),
            (RowKind::Le, [1, 0], 1),
            TableauStatus::Due,
        ),
        (
            (RowKind::Eq, [2, 0], 0),
            (RowKind::Le, [1, 0], -MAX),
            TableauStatus::Point,
        ),
    ] {
        assert!(rt; status_of(rt.alloc(), first, second)? == status);
    }
    Ok(())
}

/// The column of a refusal.
fn refused_column(answer: Result<(), TableauFault>) -> Result<Option<u32>, Fail> {
    match answer {
        Ok(()) => Ok(None),
        Err(TableauFault::Past { column, .. }) => Ok(Some(column)),
        Err(TableauFault::Memory(_)) => Err(Fail::new("out of memory")),
    }
}

/// The column at which the pivot of the first row's slack is refused against the second row, both with their
/// constants last.
fn column_of_pivot(
    alloc: Global,
    [a, b, c]: [i128; 3],
    [d, e, f]: [i128; 3],
) -> Result<Option<u32>, Fail> {
    let table = [(RowKind::Le, [a, b], c), (RowKind::Le, [d, e], f)];
    let mut tableau = tableau_of(alloc, table.as_slice())?;
    match tableau.status() {
        TableauStatus::Due => refused_column(tableau.pivot(alloc)),
        _ => Err(Fail::new("no pivot is due")),
    }
}

/// 2^127 - 1 at each place.
#[test]
fn refused_pivots(rt: HostRuntime) -> Result<(), Fail> {
    for (first, second, column) in [
        ([-1, 0, 1], [1, MAX, MAX], Some(4)),
        ([-1, 0, 1], [1, MAX, MAX - 1], None),
        ([-1, 0, 1], [MAX, 1, 0], None),
        ([-MAX, 0, 1], [1, 1, 0], None),
        ([-MAX, 0, 1], [1, 2, 0], Some(1)),
        ([-2, 0, 1], [1, MAX, 0], Some(1)),
        ([-2, 0, 1], [1, 0, MAX], Some(4)),
        ([-1, MAX, 1], [2, 0, 0], Some(1)),
        ([-1, 0, MAX], [2, 0, 0], Some(4)),
        ([-1, 1, 1], [1, MAX, 0], Some(1)),
        ([-2, 0, 1], [0, MAX, -MAX], None),
    ] {
        assert!(rt; column_of_pivot(rt.alloc(), first, second)? == column);
    }
    Ok(())
}

/// A tableau of one row after one pivot, which made 2 x - s - 1 its line.
fn turn_once(alloc: Global) -> Result<Tableau, Fail>
    ensures unknowns { IfOk result (λ t. t.unknowns ≡ 2) }
    ensures rows { IfOk result (λ t. length t.rows ≡ 1) }
{
    let mut tableau = tableau_of(alloc, &[(RowKind::Le, [-2, 0], 1)])?;
    turn(alloc, &mut tableau)?;
    Ok(tableau)
}

/// The column at which this row is refused there.
fn column_of_row(
    alloc: Global,
    kind: RowKind,
    [x, y, constant]: [i128; 3],
) -> Result<Option<u32>, Fail> {
    let mut tableau = turn_once(alloc)?;
    let row = row_of(alloc, kind, [x, y], constant)?;
    refused_column(tableau.add_row(alloc, &row))
}

#[test]
fn refused_rows(rt: HostRuntime) -> Result<(), Fail> {
    for (kind, entries, column) in [
        (RowKind::Le, [3, 1, -5], None),
        (RowKind::Eq, [0, MAX, 0], None),
        (RowKind::Eq, [0, -MAX, 0], None),
        (RowKind::Le, [1, MAX, 0], Some(1)),
        (RowKind::Le, [1, 0, MAX], Some(4)),
        (RowKind::Le, [MAX, 0, 0], Some(0)),
    ] {
        assert!(rt; column_of_row(rt.alloc(), kind, entries)? == column);
    }
    Ok(())
}

/// The printed form of a fault over one row twice.
fn fault_text(alloc: Global) -> Result<String, Fail> {
    let row = row_of(alloc, RowKind::Eq, [1, 0], 0)?;
    let fault = TableauFault::Past {
        first: row.copy(alloc)?,
        second: row,
        unknown: 0,
        column: 3,
    };
    Ok(fault.to_string(alloc)?)
}

#[test]
fn faults_are_told(rt: HostRuntime) -> Result<(), Fail> {
    let text = fault_text(rt.alloc())?;
    assert!(rt;
        text.as_str()
            == "the cross product of two rows at quantity 0 and column 3 needs more than 128 bits"
    );
    Ok(())
}
