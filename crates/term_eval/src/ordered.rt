//! An order of regular expressions, by which unions are kept flat and without repeats.
use std::cmp::Ordering;
use sv_terms::Regex;

fn rank(r: &Regex) -> u32 {
    match r {
        Regex::Empty => 0,
        Regex::All => 1,
        Regex::AnyChar => 2,
        Regex::Text(_) => 3,
        Regex::Range(_, _) => 4,
        Regex::Loop(_, _, _) => 5,
        Regex::Concat(_) => 6,
        Regex::Union(_) => 7,
        Regex::Inter(_) => 8,
        Regex::Diff(_) => 9,
        Regex::Star(_) => 10,
        Regex::Plus(_) => 11,
        Regex::Opt(_) => 12,
        Regex::Comp(_) => 13,
    }
}

/// Any order: nothing rests on it but the search for a place.
#[cycle(order)]
pub(crate) fn order(a: &Regex, b: &Regex) -> Ordering {
    match (a, b) {
        (Regex::Text(s), Regex::Text(t)) => s.as_slice().cmp(&t.as_slice()),
        (Regex::Range(i, j), Regex::Range(k, l)) => order_two(*i, *j, *k, *l),
        (Regex::Concat(xs), Regex::Concat(ys))
        | (Regex::Union(xs), Regex::Union(ys))
        | (Regex::Inter(xs), Regex::Inter(ys))
        | (Regex::Diff(xs), Regex::Diff(ys)) => order_all(xs.as_slice(), ys.as_slice()),
        (Regex::Star(x), Regex::Star(y))
        | (Regex::Plus(x), Regex::Plus(y))
        | (Regex::Opt(x), Regex::Opt(y))
        | (Regex::Comp(x), Regex::Comp(y)) => order(x.get(), y.get()),
        (Regex::Loop(x, i, j), Regex::Loop(y, k, l)) => match order_two(*j, *i, *l, *k) {
            Ordering::Equal => order(x.get(), y.get()),
            other => other,
        },
        _ => rank(a).cmp(&rank(b)),
    }
}

fn order_two(i: u32, j: u32, k: u32, l: u32) -> Ordering {
    match i.cmp(&k) {
        Ordering::Equal => j.cmp(&l),
        other => other,
    }
}

#[cycle(order)]
fn order_all(xs: &[Regex], ys: &[Regex]) -> Ordering {
    if xs.len() != ys.len() {
        return xs.len().cmp(&ys.len());
    }
    for i in 0..xs.len() {
        match order(&xs[i], &ys[i]) {
            Ordering::Equal => {}
            other => return other,
        }
    }
    Ordering::Equal
}
