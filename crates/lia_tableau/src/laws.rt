//! Laws of tableaux, each stated by a function that does nothing.
ghost use Rattle.std.specs.Prelude.{◌≡◌, ℕ, ℤ};
ghost use Rattle.sv_linear.specs.declared.row.Row.{Row};
ghost use Rattle.lia_tableau.specs.BasicPoints.{IsPoint};
ghost use Rattle.lia_tableau.specs.Bases.{IsRowAt};
ghost use Rattle.lia_tableau.specs.Pivoting.{IsPivotStep};
ghost use Rattle.lia_tableau.specs.Trails.{HaveSameBasis, Trail};
ghost use Rattle.lia_tableau.specs.declared.table.Table.{Table};

use crate::tableau::Tableau;

/// No basis comes twice in a trail of due pivots (Bland, "New finite pivoting rules for the simplex
/// method", 1977). It speaks of every list of due pivots over bases whose lines are numbers of 128 bits.
pub fn no_basis_comes_twice()
    ensures { (first next last : Table) → IsPivotStep first next → Trail next last → HaveSameBasis first.lines last.lines → ⊥ }
{}

/// Each basis has a point: values of all quantities over one denominator. And a place among the rows is
/// that of one row.
pub fn bases_are_formed(tableau: &Tableau)
    ensures point { (x : ℕ → ℤ) × ((d : ℤ) × IsPoint tableau.now.lines x d) }
    ensures row { (k p q : ℕ) (f g : Row) → IsRowAt tableau.now.lines k p f → IsRowAt tableau.now.lines k q g → (p ≡ q) × (f ≡ g) }
{}
