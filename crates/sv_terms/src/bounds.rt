ghost use Rattle.std.specs.Prelude.{◌≡◌, ◌^◌, map};
ghost use Rattle.sv_terms.specs.Bounds.{size, bound_of, from_left, in_turn_size, choice_size, both_size, without_size};
ghost use Rattle.sv_terms.specs.CutOff.{cut_off};

use crate::regex::Regex;

/// How many states a machine of the expression has at most, 2^64 - 1 where they are more.
///
/// Of a word of k characters k + 1, of none and of all words 1, of one character 2, of `n` and `m`
/// states a choice `n + m + 1`, one after the other `n + m`, both together `n * m`, and the first without
/// the second `n * 2^m`; more than two parts are taken from the left. Of `n` states a star and an
/// option `n + 1`, a plus `n`, a complement `2^n`, and a loop to `j` times `j * n + 1`. It takes no
/// memory, time linear in the expression, and stack in its nesting.
#[cycle(bound)]
pub fn bound(regex: &Regex) -> u64
    ensures { result ≡ bound_of regex.now }
{
    match regex {
        Regex::Empty => 1,
        Regex::All => 1,
        Regex::AnyChar => 2,
        Regex::Text(word) => (word.len() as u64).saturating_add(1),
        Regex::Range(_, _) => 2,
        Regex::Concat(rs) => in_turn(rs.as_slice()),
        Regex::Union(rs) => choice(rs.as_slice()),
        Regex::Inter(rs) => both(rs.as_slice()),
        Regex::Diff(rs) => without(rs.as_slice()),
        Regex::Star(r) => bound(r.get()).saturating_add(1),
        Regex::Plus(r) => bound(r.get()),
        Regex::Opt(r) => bound(r.get()).saturating_add(1),
        Regex::Comp(r) => power_of_two(bound(r.get())),
        Regex::Loop(r, _, j) => (*j as u64).saturating_mul(bound(r.get())).saturating_add(1),
    }
}

/// Two to this power, 2^64 - 1 where it is more.
pub fn power_of_two(n: u64) -> u64
    ensures { result ≡ cut_off (2 ^ n) }
{
    if n >= 64 {
        return u64::MAX;
    }
    1 << n
}

#[cycle(bound)]
fn in_turn(rs: &[Regex]) -> u64
    ensures { result ≡ cut_off (from_left in_turn_size (map size rs.now)) }
{
    if rs.is_empty() {
        return 1;
    }
    let mut n = bound(&rs[0]);
    for i in 1..rs.len() {
        n = n.saturating_add(bound(&rs[i]));
    }
    n
}

#[cycle(bound)]
fn choice(rs: &[Regex]) -> u64
    ensures { result ≡ cut_off (from_left choice_size (map size rs.now)) }
{
    if rs.is_empty() {
        return 1;
    }
    let mut n = bound(&rs[0]);
    for i in 1..rs.len() {
        n = n.saturating_add(bound(&rs[i])).saturating_add(1);
    }
    n
}

#[cycle(bound)]
fn both(rs: &[Regex]) -> u64
    ensures { result ≡ cut_off (from_left both_size (map size rs.now)) }
{
    if rs.is_empty() {
        return 1;
    }
    let mut n = bound(&rs[0]);
    for i in 1..rs.len() {
        n = n.saturating_mul(bound(&rs[i]));
    }
    n
}

#[cycle(bound)]
fn without(rs: &[Regex]) -> u64
    ensures { result ≡ cut_off (from_left without_size (map size rs.now)) }
{
    if rs.is_empty() {
        return 1;
    }
    let mut n = bound(&rs[0]);
    for i in 1..rs.len() {
        n = n.saturating_mul(power_of_two(bound(&rs[i])));
    }
    n
}
