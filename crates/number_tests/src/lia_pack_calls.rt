//! A tableau packed and read back.
ghost use Rattle.lia_pack.specs.Tables.{IsPackedOf};
ghost use Rattle.lia_tableau.specs.declared.table.Table.{Table as AnyTable};

use crate::systems::{row_of, system_over};
use lia_pack::PackedTableau;
use lia_tableau::Tableau;
use std::alloc::Global;
use std::test::Fail;
use sv_linear::RowKind;
use sv_list::Items;

/// The terms of each row of a wide tableau.
const WIDE: [(u32, i128); 8] = [
    (0, 1_001),
    (1, -1_002),
    (2, 1_003),
    (3, -1_004),
    (4, 1_005),
    (5, -1_006),
    (6, 1_007),
    (7, -1_008),
];

/// Of 1,500 rows with the wide terms, which take more than 65,536 bytes, and this constant in the last one.
fn wide_tableau(alloc: Global, constant: i128) -> Result<Tableau, Fail> {
    let mut rows = Items::new(alloc);
    for row in 1..1_500_u32 {
        rows.push(row_of(alloc, RowKind::Le, WIDE.as_slice(), row as i128)?)?;
    }
    rows.push(row_of(alloc, RowKind::Le, WIDE.as_slice(), constant)?)?;
    let system = system_over(alloc, 8, rows)?;
    Ok(Tableau::new(alloc, system.rows.as_slice(), system.unknowns)?)
}

/// How many rows come back, and the constant of the last one.
fn read_back(alloc: Global, packed: &PackedTableau) -> Result<(usize, i128), Fail>
    requires { (t : AnyTable) × IsPackedOf t packed.now }
{
    let same = packed.unpack(alloc)?;
    match same.rows() {
        [.., last] => Ok((same.rows().len(), last.form.constant)),
        [] => Ok((0, 0)),
    }
}

/// Of a tableau that is packed over two others.
fn read_shared(alloc: Global) -> Result<(usize, i128), Fail> {
    let first = PackedTableau::of(alloc, &wide_tableau(alloc, 3)?, None)?;
    let second = PackedTableau::of(alloc, &wide_tableau(alloc, 70_000)?, Some(&first))?;
    let third = PackedTableau::of(alloc, &wide_tableau(alloc, -5)?, Some(&second))?;
    read_back(alloc, &third)
}

#[test]
fn a_tableau_over_others_is_read_back(rt: HostRuntime) -> Result<(), Fail> {
    assert!(rt; read_shared(rt.alloc())? == (1_500, -5));
    Ok(())
}
