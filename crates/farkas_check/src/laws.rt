//! Laws of certificates, each stated by a function that does nothing.
ghost use Rattle.std.specs.Prelude.{ℕ, ℤ, List, ◌↔◌};
ghost use Rattle.sv_linear.specs.Rows.{MeetsRow};
ghost use Rattle.sv_linear.specs.declared.row.Row.{Row};
ghost use Rattle.farkas_check.specs.Systems.{Constraint, Meets, constraint_of};
ghost use Rattle.farkas_check.specs.Closings.{ClosesRows, FarkasRule, DivisorRule};
ghost use Rattle.farkas_check.specs.Fitting.{RowsFit};
ghost use Rattle.farkas_check.specs.LeafTests.{LeafTold};
ghost use Rattle.farkas_check.specs.declared.net.Net.{Net};
ghost use Rattle.farkas_check.specs.declared.leaf_test.LeafTest.TheVariants.{Closes};
ghost use Rattle.farkas_check.specs.declared.tree.Tree.TheVariants.{Farkas, Divisor};

/// The tests of a leaf take what `closes` takes as a leaf of a tree, at the same rows.
pub fn leaf_tests_agree()
    ensures farkas { (nets : List Net) (rows : List Constraint) (ms : List (ℕ × ℤ))
        → LeafTold (FarkasRule rows ms) rows ms Closes
        ↔ (ClosesRows nets rows (Farkas ms) × RowsFit nets rows (Farkas ms)) }
    ensures divisor { (nets : List Net) (rows : List Constraint) (ms : List (ℕ × ℤ)) (d : ℤ)
        → LeafTold (DivisorRule rows ms d) rows ms Closes
        ↔ (ClosesRows nets rows (Divisor ms d) × RowsFit nets rows (Divisor ms d)) }
{}

/// A row is met where the constraint that it stands for is.
pub fn rows_are_constraints()
    ensures { (x : ℕ → ℤ) (row : Row) → MeetsRow x row ↔ Meets x (constraint_of row) }
{}
