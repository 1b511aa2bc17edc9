// What the definitions of the blocks' cubes imply.
ghost use Rattle.std.specs.Prelude.{◌≡◌, ◌≤◌, ℕ, [], ◌∷◌};
ghost use Rattle.bool_cubes.specs.Cubes.{cube, cubes_of};
ghost use Rattle.bool_cubes.specs.Past.{HasNoPast};
ghost use Rattle.bool_cubes.specs.Refusing.{count_of};
ghost use Rattle.generated_cubes.specs.Blocks.{IsSmallBlock, literals_of};
ghost use Rattle.generated_script.specs.declared.shape.Shape.{Shape as AnyBlock};
ghost use Rattle.generated_terms.specs.Terms.{terms_of};

/// The assertions of a block are one cube. With a number up to 50 no step of a linear form leaves 128
/// bits, and the cube is straight, with small numbers.
pub fn blocks_are_small()
    ensures one { (block : AnyBlock) (number : ℕ) → count_of (terms_of block number) ≡ 1 }
    ensures cubes { (block : AnyBlock) (number : ℕ) → cubes_of (terms_of block number) ≡ cube (literals_of block number) ∷ [] }
    ensures fits { (block : AnyBlock) (number : ℕ) → number ≤ 50 → HasNoPast (terms_of block number) }
    ensures flat { (block : AnyBlock) (number : ℕ) → number ≤ 50 → IsSmallBlock block number }
{}
