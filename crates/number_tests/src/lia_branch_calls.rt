//! What closes rows over x and y.
use crate::systems::{Entries, rows_of, system_over};
use farkas_check::Tree;
use lia_branch::{NoCut, Outcome, solve};
use std::alloc::Global;
use std::test::Fail;
use sv_linear::RowKind;

fn kind_of(tree: &Tree) -> &'static str {
    match tree {
        Tree::Farkas { .. } => "a sum",
        Tree::Divisor { .. } => "a divisor",
        Tree::Split { .. } => "splits",
        _ => "another tree",
    }
}

/// The kind of the tree that closes the rows.
fn closing_of(alloc: Global, table: &[Entries]) -> Result<&'static str, Fail> {
    let rows = rows_of(alloc, table)?;
    let system = system_over(alloc, 2, rows)?;
    match solve(alloc, &system, &NoCut)? {
        Outcome::Closed(tree) => Ok(kind_of(&tree)),
        _ => Err(Fail::new("nothing closes the rows")),
    }
}

/// Two equal even numbers, less 1; a strip without whole points; a box of 65 times 65 points that such a strip cuts.
#[test]
fn closings(rt: HostRuntime) -> Result<(), Fail> {
    for (table, kind) in [
        ([(RowKind::Eq, -1, 2, -2)].as_slice(), "a divisor"),
        (&[(RowKind::Le, 1, 3, -2), (RowKind::Le, 0, -3, 2)], "a sum"),
        (
            &[
                (RowKind::Le, 0, -1, 0),
                (RowKind::Le, -64, 1, 0),
                (RowKind::Le, 0, 0, -1),
                (RowKind::Le, -64, 0, 1),
                (RowKind::Le, 1, -2, 2),
                (RowKind::Le, -1, 2, -2),
            ],
            "splits",
        ),
    ] {
        assert!(rt; closing_of(rt.alloc(), table)? == kind);
    }
    Ok(())
}
