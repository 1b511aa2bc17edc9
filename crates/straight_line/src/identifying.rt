//! Places that are one, by the least of them: a forest in which each place leads to one that isn't greater.
ghost use Rattle.std.specs.Prelude.{◌≡◌, ℕ, List, ◌<◌, length, get_or, IfOk};
ghost use Rattle.std.specs.List.{range_with_len};
ghost use Rattle.flat_cubes.specs.Flattening.{identified, made_one};
ghost use Rattle.straight_line.specs.Leading.{ArePairsBelow, IsForest, LeadsTo};

use std::alloc::{AllocError, Global};

/// For each of so many places the least place that is one with it, where these pairs are one. Linear up to
/// a logarithm.
#[tactic(auto, using(crate::proofs::Leads::starts_own, crate::proofs::Leads::starts_forest, crate::proofs::Leads::pairs_below))]
pub fn firsts(alloc: Global, places: u32, equalities: &[(u32, u32)]) -> Result<Vec<u32>, AllocError>
    requires { ArePairsBelow places equalities.now }
    ensures { IfOk result (λ fs. fs.items ≡ identified equalities.now (range_with_len 0 places)) }
{
    let mut above = own_places(alloc, places)?;
    identify(&mut above, equalities);
    Ok(above)
}

fn own_places(alloc: Global, places: u32) -> Result<Vec<u32>, AllocError>
    ensures { IfOk result (λ above. above.items ≡ range_with_len 0 places) }
{
    let mut above = Vec::new(alloc);
    for place in 0..places {
        above.push(place)?;
    }
    Ok(above)
}

/// The place to which this one leads. What is passed on the way leads there by fewer steps from now on.
fn lead(above: &mut [u32], place: u32) -> u32
    requires forest { IsForest above.old }
    requires within { place < length above.old }
    ensures forest { IsForest above.new }
    ensures within { result < length above.new }
    ensures root { get_or above.new result 0 ≡ result }
    ensures same { (firsts : List ℕ) → LeadsTo firsts above.old → LeadsTo firsts above.new }
    ensures first { (firsts : List ℕ) → LeadsTo firsts above.old → result ≡ get_or firsts place 0 }
{
    let mut at = place;
    while above[at as usize] != at {
        let next = above[above[at as usize] as usize];
        above[at as usize] = next;
        at = next;
    }
    at
}

/// Makes two places one: the lesser of those to which they lead stands for all.
fn join(above: &mut [u32], one: u32, other: u32)
    requires forest { IsForest above.old }
    requires one_within { one < length above.old }
    requires other_within { other < length above.old }
    ensures forest { IsForest above.new }
    ensures joined { (firsts : List ℕ) → LeadsTo firsts above.old → LeadsTo (made_one (get_or firsts one one) (get_or firsts other other) firsts) above.new }
{
    let first = lead(above, one);
    let second = lead(above, other);
    above[first.max(second) as usize] = first.min(second);
}

/// Makes the places of each pair one, and each place lead to its least place by one step.
fn identify(above: &mut [u32], equalities: &[(u32, u32)])
    requires forest { IsForest above.old }
    requires within { ArePairsBelow (length above.old) equalities.now }
    ensures { (firsts : List ℕ) → LeadsTo firsts above.old → above.new ≡ identified equalities.now firsts }
{
    for (one, other) in equalities {
        join(above, *one, *other);
    }
    settle(above);
}

/// Each place leads to its least place by one step.
fn settle(above: &mut [u32])
    requires { IsForest above.old }
    ensures { (firsts : List ℕ) → LeadsTo firsts above.old → above.new ≡ firsts }
{
    for i in 0..above.len() {
        above[i] = above[above[i] as usize];
    }
}
