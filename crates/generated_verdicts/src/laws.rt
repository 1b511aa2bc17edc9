// What the definitions of verdicts imply for the blocks.
ghost use Rattle.std.specs.Prelude.{◌≡◌, ◌≤◌, ◌+◌, ℕ};
ghost use Rattle.decide.specs.Completeness.{IsComplete, MustDecide};
ghost use Rattle.decide.specs.Verdicts.{RightVerdict};
ghost use Rattle.decide.specs.declared.verdict.Verdict.{Verdict as AnyVerdict};
ghost use Rattle.generated_script.specs.declared.shape.Shape.{Shape as AnyBlock};
ghost use Rattle.generated_terms.specs.Terms.{has_values, terms_of};
ghost use Rattle.generated_verdicts.specs.Table.{IsVerdictBy, sat_count, unsat_count};

/// On the assertions of a block with a number up to 50 a verdict is owed.
pub fn some_must_be_decided()
    ensures { (block : AnyBlock) (number : ℕ) → number ≤ 50 → MustDecide (terms_of block number) }
{}

/// A right verdict on such a block, an answer where one is owed, is the table's. The table has a
/// verdict for each block.
pub fn block_verdicts_are_known()
    ensures verdict { (block : AnyBlock) (number : ℕ) (verdict : AnyVerdict) → number ≤ 50 → RightVerdict (terms_of block number) verdict → (MustDecide (terms_of block number) → IsComplete (terms_of block number) verdict) → IsVerdictBy (has_values block number) verdict }
    ensures all { (seed size : ℕ) → sat_count seed size + unsat_count seed size ≡ size }
{}
