ghost use Rattle.std.specs.Prelude.{◌<◌, length, IfOk, All};
ghost use Rattle.machine_meet.specs.Splits.{IsColumn};

use std::alloc::{AllocError, Global};
use sv_list::{Copied, Items};

/// Copies of what the rows have at `place`, from the first row on.
pub fn column<T: Copied>(
    alloc: Global,
    rows: &[Items<T>],
    place: usize,
) -> Result<Items<T>, AllocError>
    requires { All (λ row. place < length row) rows.now }
    ensures { IfOk result (IsColumn place rows.now) }
{
    let mut column = Items::new(alloc);
    for row in rows {
        column.push(row.as_slice()[place].copy(alloc)?)?;
    }
    Ok(column)
}
