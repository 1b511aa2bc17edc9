use crate::reader::{ByteReader, next_lines, next_rows};
use crate::shared::SharedBytes;
use crate::writing::{push_lines, push_rows};
use lia_tableau::{Table, Tableau};
use std::alloc::{AllocError, Global};
use sv_list::Items;

/// A tableau in few bytes: each number of its rows and lines takes a byte for seven bits, and bytes that a tableau packed
/// before has too are shared with it.
#[derive(Drop)]
pub struct PackedTableau {
    unknowns: u32,
    pivots: u64,
    row_count: u32,
    bytes: SharedBytes,
}

impl PackedTableau {
    ghost use Rattle.std.specs.Prelude.{◌≡◌, IfOk};
    ghost use Rattle.lia_tableau.specs.declared.table.Table.{Table as AnyTable};
    ghost use Rattle.lia_pack.specs.Tables.{IsPackedOf};

    /// Packs a tableau, over the bytes of one that was packed before where these are much the same. Linear in the terms of
    /// its rows and lines, times the layers below, 32 at most; the only refusal is want of memory.
    pub fn of(
        alloc: Global,
        tableau: &Tableau,
        before: Option<&PackedTableau>,
    ) -> Result<PackedTableau, AllocError>
        ensures { IfOk result (IsPackedOf tableau.now) }
    {
        let table = tableau.table();
        let mut bytes = Items::new(alloc);
        push_rows(&mut bytes, table.rows.as_slice())?;
        push_lines(&mut bytes, table.lines.as_slice())?;
        Ok(PackedTableau {
            unknowns: table.unknowns,
            pivots: table.pivots,
            row_count: table.rows.len() as u32,
            bytes: SharedBytes::of(alloc, bytes, shared_by(before))?,
        })
    }

    /// The tableau that was packed. Linear in the bytes, times their layers, 32 at most; the only refusal is want of memory.
    pub fn unpack(&self, alloc: Global) -> Result<Tableau, AllocError>
        requires { (t : AnyTable) × IsPackedOf t self.now }
        ensures { (t : AnyTable) → IsPackedOf t self.now → IfOk result (λ r. r ≡ t) }
    {
        let bytes = self.bytes.to_items(alloc)?;
        let mut reader = ByteReader {
            left: bytes.as_slice(),
        };
        let rows = next_rows(alloc, &mut reader, self.row_count)?;
        let lines = next_lines(alloc, &mut reader, self.unknowns + self.row_count)?;
        let table = Table {
            unknowns: self.unknowns,
            rows,
            lines,
            pivots: self.pivots,
        };
        Tableau::of_table(alloc, table)
    }
}

fn shared_by(packed: Option<&PackedTableau>) -> Option<&SharedBytes> {
    match packed {
        None => None,
        Some(packed) => Some(&packed.bytes),
    }
}
