// Which arguments a function takes, by number and by sort.
ghost use Rattle.std.specs.Prelude.{◌≡◌, map};
ghost use Rattle.std.specs.List.{list_all};
ghost use Rattle.sv_terms.specs.Sorting.{same_sort as is_same_sort};
ghost use Rattle.term_weight.specs.Ranks as ranks;

use smt_names::ArgumentSorts;
use sv_terms::{Name, Sort};

/// Whether they are the same sort.
pub fn same_sort(a: Sort, b: Sort) -> bool
    ensures { result ≡ is_same_sort a b }
{
    a == b
}

/// Whether so many arguments are taken.
pub fn takes_count(takes: ArgumentSorts, n: usize) -> bool
    ensures { result ≡ ranks.takes_count takes n }
{
    match takes {
        ArgumentSorts::Nothing => n == 0,
        ArgumentSorts::One(_) => n == 1,
        ArgumentSorts::Two(_, _) => n == 2,
        ArgumentSorts::Three(_, _, _) => n == 3,
        ArgumentSorts::Each(_) => 1 <= n,
        ArgumentSorts::Many(_) => 2 <= n,
        ArgumentSorts::Alike => 2 <= n,
        ArgumentSorts::Choice => n == 3,
    }
}

#[tactic(auto, using(crate::proofs::Sums::sums))]
fn all_have(sort: Sort, sorts: &[Sort]) -> bool
    ensures { result ≡ list_all (is_same_sort sort) sorts.now }
{
    for other in sorts {
        if !same_sort(sort, *other) {
            return false;
        }
    }
    true
}

/// Whether arguments of these sorts are taken. Linear in their number.
pub fn takes_sorts(takes: ArgumentSorts, sorts: &[Sort]) -> bool
    ensures { result ≡ ranks.takes_sorts takes sorts.now }
{
    match takes {
        ArgumentSorts::Nothing => sorts.is_empty(),
        ArgumentSorts::One(s) => match sorts {
            [a] => same_sort(s, *a),
            _ => false,
        },
        ArgumentSorts::Two(s, t) => match sorts {
            [a, b] => same_sort(s, *a) && same_sort(t, *b),
            _ => false,
        },
        ArgumentSorts::Three(s, t, u) => match sorts {
            [a, b, c] => same_sort(s, *a) && same_sort(t, *b) && same_sort(u, *c),
            _ => false,
        },
        ArgumentSorts::Each(s) => all_have(s, sorts),
        ArgumentSorts::Many(s) => all_have(s, sorts),
        ArgumentSorts::Alike => match sorts {
            [first, rest @ ..] => all_have(*first, rest),
            [] => false,
        },
        ArgumentSorts::Choice => match sorts {
            [a, b, c] => {
                same_sort(Sort::Bool, *a) && same_sort(*b, *c) && !same_sort(Sort::RegLan, *b)
            }
            _ => false,
        },
    }
}

/// Whether they are the sorts of these parameters.
#[tactic(auto, using(crate::proofs::Sorts::sorts))]
pub fn are_of(parameters: &[(Name, Sort)], sorts: &[Sort]) -> bool
    ensures { result ≡ ranks.are_of (map (λ p. p.1) parameters.now) sorts.now }
{
    if parameters.len() != sorts.len() {
        return false;
    }
    for i in 0..sorts.len() {
        if !same_sort(parameters[i].1, sorts[i]) {
            return false;
        }
    }
    true
}
