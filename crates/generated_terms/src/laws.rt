// What the definitions of the blocks imply.
ghost use Rattle.std.specs.Prelude.{◌≡◌, ℕ, true, false, []};
ghost use Rattle.generated_script.specs.declared.shape.Shape.{Shape as AnyBlock};
ghost use Rattle.generated_terms.specs.Terms.{has_values, terms_of};
ghost use Rattle.sv_terms.specs.Truth.{HasNoValues, HasValues, clear_of, opaque_of};

/// A block has values exactly where `has_values` says so, and none of its assertions is opaque.
pub fn block_answers_are_known()
    ensures some { (block : AnyBlock) (number : ℕ) → has_values block number ≡ true → HasValues (terms_of block number) }
    ensures none { (block : AnyBlock) (number : ℕ) → has_values block number ≡ false → HasNoValues (terms_of block number) }
    ensures clear { (block : AnyBlock) (number : ℕ) → clear_of (terms_of block number) ≡ terms_of block number }
    ensures not_opaque { (block : AnyBlock) (number : ℕ) → opaque_of (terms_of block number) ≡ [] }
{}
