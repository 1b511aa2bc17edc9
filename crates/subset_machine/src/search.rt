//! Pairs in the order of their first parts.
ghost use Rattle.std.specs.Prelude.{ℕ, ◌≤◌, ◌↔◌, Contains};
ghost use Rattle.std.specs.List.Sorted.{IsNonDecreasingBy};

/// The pairs whose first part lies between two numbers, by two binary searches.
pub fn between(pairs: &[(u32, u32)], low: u32, high: u32) -> &[(u32, u32)]
    requires { IsNonDecreasingBy (λ p. p.0) pairs.now }
    ensures { (p : ℕ × ℕ) → Contains result.now p ↔ (Contains pairs.now p × (low ≤ p.0) × (p.0 ≤ high)) }
{
    let (_, from) = pairs.split_at(pairs.partition_point(|pair| pair.0 < low));
    let (within, _) = from.split_at(from.partition_point(|pair| pair.0 <= high));
    within
}
