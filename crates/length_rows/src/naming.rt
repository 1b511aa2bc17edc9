//! The unknowns that rows name.
ghost use Rattle.std.specs.Prelude.{◌≡◌, ◌<◌, true};
ghost use Rattle.std.specs.List.{AllByRecursion};
ghost use Rattle.sv_linear.specs.Rows.{NameUnknowns};

use sv_linear::Row;

/// Whether the row names unknowns below `unknowns` only.
fn names_below(row: &Row, unknowns: u32) -> bool
    ensures { result ≡ true → AllByRecursion (λ t. t.0 < unknowns) row.now.form.coefficients }
{
    for term in row.form.coefficients.as_slice() {
        if term.0 >= unknowns {
            return false;
        }
    }
    true
}

/// Whether the rows name unknowns below `unknowns` only. Linear in their terms.
pub fn name_below(rows: &[Row], unknowns: u32) -> bool
    ensures { result ≡ true → NameUnknowns unknowns rows.now }
{
    for row in rows {
        if !names_below(row, unknowns) {
            return false;
        }
    }
    true
}
