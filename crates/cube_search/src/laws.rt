//! A law of flat cubes, stated by a function that does nothing.
ghost use Rattle.std.specs.Prelude.{◌≡◌, List, []};
ghost use Rattle.literal_forms.specs.declared.literal.Literal.{Literal};
ghost use Rattle.flat_cubes.specs.Flattening.{IsFlattening};
ghost use Rattle.flat_cubes.specs.declared.flat.Flat.{Flat};

/// A flat cube without rows has no registers: what [`cube_answer`](crate::cube_answer) asks of it.
pub fn rows_count()
    ensures { (ls : List Literal) (flat : Flat) → IsFlattening ls flat → flat.rows ≡ [] → flat.registers ≡ [] }
{}
