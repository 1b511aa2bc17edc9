ghost use Rattle.std.specs.Prelude.{◌≡◌, ℕ, ℤ, ◌<◌, ◌^◌, ◌++◌, ◌∷◌, List, length, IfOk};
ghost use Rattle.std.specs.List.{flat_map, AllByRecursion};
ghost use Rattle.sv_linear.specs.declared.row.Row.{Row as AnyRow};
ghost use Rattle.sv_linear.specs.declared.row.RowKind.{RowKind as AnyKind};
ghost use Rattle.lia_tableau.specs.declared.standing.Standing.{Standing as AnyStanding};
ghost use Rattle.lia_pack.specs.Numbers.{Say};
ghost use Rattle.lia_pack.specs.Tables.{kind_number, term_numbers, form_numbers, row_numbers, standing_numbers};

use crate::numbers::{read_number, unfold_sign};
use lia_tableau::Standing;
use std::alloc::{AllocError, Global};
use sv_linear::{Form, Row, RowKind};
use sv_list::Items;

/// The bytes that are left to be read.
#[derive(Drop)]
pub(crate) struct ByteReader<'a> {
    pub left: &'a [u8],
}

fn kind_of_number(number: u128) -> RowKind
    ensures { (kind : AnyKind) → number ≡ kind_number kind → result ≡ kind }
{
    if number == 1 {
        RowKind::Le
    } else {
        RowKind::Eq
    }
}

/// The next number.
fn next_number(reader: &mut ByteReader<'_>) -> u128
    requires { (n : ℕ) × ((ns : List ℕ) × Say reader.old.left.now (n ∷ ns)) }
    ensures { (n : ℕ) (ns : List ℕ) → Say reader.old.left.now (n ∷ ns) → (result ≡ n) × Say reader.new.left.now ns }
{
    let (number, rest) = read_number(reader.left);
    reader.left = rest;
    number
}

/// The next term.
fn next_term(reader: &mut ByteReader<'_>) -> (u32, i128)
    requires { (t : ℕ × ℤ) × ((ns : List ℕ) × ((t.0 < 2 ^ 32) × Say reader.old.left.now (term_numbers t ++ ns))) }
    ensures { (t : ℕ × ℤ) (ns : List ℕ) → t.0 < 2 ^ 32 → Say reader.old.left.now (term_numbers t ++ ns) → (result ≡ t) × Say reader.new.left.now ns }
{
    let unknown = next_number(reader) as u32;
    let coefficient = unfold_sign(next_number(reader));
    (unknown, coefficient)
}

/// The next terms, so many.
fn next_terms(
    alloc: Global,
    reader: &mut ByteReader<'_>,
    count: u128,
) -> Result<Items<(u32, i128)>, AllocError>
    requires { (ts : List (ℕ × ℤ)) × ((ns : List ℕ) × ((length ts ≡ count) × (AllByRecursion (λ t. t.0 < 2 ^ 32) ts × Say reader.old.left.now (flat_map term_numbers ts ++ ns)))) }
    ensures { (ts : List (ℕ × ℤ)) (ns : List ℕ) → length ts ≡ count → AllByRecursion (λ t. t.0 < 2 ^ 32) ts → Say reader.old.left.now (flat_map term_numbers ts ++ ns) → IfOk result (λ r. (r ≡ ts) × Say reader.new.left.now ns) }
{
    let mut terms = Items::new(alloc);
    for _ in 0..count {
        terms.push(next_term(reader))?;
    }
    Ok(terms)
}

/// The next row, behind its kind.
fn next_form(alloc: Global, reader: &mut ByteReader<'_>, kind: RowKind) -> Result<Row, AllocError>
    requires { (r : AnyRow) × ((ns : List ℕ) × ((r.kind ≡ kind) × Say reader.old.left.now (form_numbers r ++ ns))) }
    ensures { (r : AnyRow) (ns : List ℕ) → r.kind ≡ kind → Say reader.old.left.now (form_numbers r ++ ns) → IfOk result (λ row. (row ≡ r) × Say reader.new.left.now ns) }
{
    let count = next_number(reader);
    let constant = unfold_sign(next_number(reader));
    let coefficients = next_terms(alloc, reader, count)?;
    Ok(Row {
        form: Form {
            coefficients,
            constant,
        },
        kind,
    })
}

/// The next row.
fn next_row(alloc: Global, reader: &mut ByteReader<'_>) -> Result<Row, AllocError>
    requires { (r : AnyRow) × ((ns : List ℕ) × Say reader.old.left.now (row_numbers r ++ ns)) }
    ensures { (r : AnyRow) (ns : List ℕ) → Say reader.old.left.now (row_numbers r ++ ns) → IfOk result (λ row. (row ≡ r) × Say reader.new.left.now ns) }
{
    let kind = kind_of_number(next_number(reader));
    next_form(alloc, reader, kind)
}

/// The next rows, so many.
pub(crate) fn next_rows(
    alloc: Global,
    reader: &mut ByteReader<'_>,
    count: u32,
) -> Result<Items<Row>, AllocError>
    requires { (rows : List AnyRow) × ((ns : List ℕ) × ((length rows ≡ count) × Say reader.old.left.now (flat_map row_numbers rows ++ ns))) }
    ensures { (rows : List AnyRow) (ns : List ℕ) → length rows ≡ count → Say reader.old.left.now (flat_map row_numbers rows ++ ns) → IfOk result (λ r. (r ≡ rows) × Say reader.new.left.now ns) }
{
    let mut rows = Items::new(alloc);
    for _ in 0..count {
        rows.push(next_row(alloc, reader)?)?;
    }
    Ok(rows)
}

/// How the next quantity stands to the basis.
fn next_standing(alloc: Global, reader: &mut ByteReader<'_>) -> Result<Standing, AllocError>
    requires { (s : AnyStanding) × ((ns : List ℕ) × Say reader.old.left.now (standing_numbers s ++ ns)) }
    ensures { (s : AnyStanding) (ns : List ℕ) → Say reader.old.left.now (standing_numbers s ++ ns) → IfOk result (λ r. (r ≡ s) × Say reader.new.left.now ns) }
{
    let number = next_number(reader);
    if number == 0 {
        return Ok(Standing::Outside);
    }
    Ok(Standing::Basic(next_form(alloc, reader, kind_of_number(number))?))
}

/// So for so many quantities.
pub(crate) fn next_lines(
    alloc: Global,
    reader: &mut ByteReader<'_>,
    count: u32,
) -> Result<Items<Standing>, AllocError>
    requires { (lines : List AnyStanding) × ((ns : List ℕ) × ((length lines ≡ count) × Say reader.old.left.now (flat_map standing_numbers lines ++ ns))) }
    ensures { (lines : List AnyStanding) (ns : List ℕ) → length lines ≡ count → Say reader.old.left.now (flat_map standing_numbers lines ++ ns) → IfOk result (λ r. (r ≡ lines) × Say reader.new.left.now ns) }
{
    let mut lines = Items::new(alloc);
    for _ in 0..count {
        lines.push(next_standing(alloc, reader)?)?;
    }
    Ok(lines)
}
