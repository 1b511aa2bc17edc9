ghost use Rattle.std.specs.Prelude.{◌≡◌, OnOk};
ghost use Rattle.std.specs.List.{flat_map};
ghost use Rattle.lia_pack.specs.Numbers.{AreWritten};
ghost use Rattle.lia_pack.specs.Tables.{kind_number, term_numbers, row_numbers, standing_numbers};

use crate::numbers::{fold_sign, push_number};
use lia_tableau::Standing;
use std::alloc::AllocError;
use sv_linear::{Row, RowKind};
use sv_list::Items;

fn number_of_kind(kind: RowKind) -> u128
    ensures { result ≡ kind_number kind }
{
    match kind {
        RowKind::Le => 1,
        RowKind::Eq => 2,
    }
}

fn push_term(bytes: &mut Items<u8>, term: &(u32, i128)) -> Result<(), AllocError>
    ensures { OnOk result (AreWritten bytes.old bytes.new (term_numbers term.now)) }
{
    push_number(bytes, term.0 as u128)?;
    push_number(bytes, fold_sign(term.1))?;
    Ok(())
}

fn push_terms(bytes: &mut Items<u8>, terms: &[(u32, i128)]) -> Result<(), AllocError>
    ensures { OnOk result (AreWritten bytes.old bytes.new (flat_map term_numbers terms.now)) }
{
    for term in terms {
        push_term(bytes, term)?;
    }
    Ok(())
}

fn push_row(bytes: &mut Items<u8>, row: &Row) -> Result<(), AllocError>
    ensures { OnOk result (AreWritten bytes.old bytes.new (row_numbers row.now)) }
{
    push_number(bytes, number_of_kind(row.kind))?;
    push_number(bytes, row.form.coefficients.len() as u128)?;
    push_number(bytes, fold_sign(row.form.constant))?;
    push_terms(bytes, row.form.coefficients.as_slice())?;
    Ok(())
}

pub(crate) fn push_rows(bytes: &mut Items<u8>, rows: &[Row]) -> Result<(), AllocError>
    ensures { OnOk result (AreWritten bytes.old bytes.new (flat_map row_numbers rows.now)) }
{
    for row in rows {
        push_row(bytes, row)?;
    }
    Ok(())
}

fn push_standing(bytes: &mut Items<u8>, standing: &Standing) -> Result<(), AllocError>
    ensures { OnOk result (AreWritten bytes.old bytes.new (standing_numbers standing.now)) }
{
    match standing {
        Standing::Outside => push_number(bytes, 0),
        Standing::Basic(row) => push_row(bytes, row),
    }
}

pub(crate) fn push_lines(bytes: &mut Items<u8>, lines: &[Standing]) -> Result<(), AllocError>
    ensures { OnOk result (AreWritten bytes.old bytes.new (flat_map standing_numbers lines.now)) }
{
    for standing in lines {
        push_standing(bytes, standing)?;
    }
    Ok(())
}
