ghost use Rattle.std.specs.Prelude.{◌≡◌, ℕ, ◌+◌, ◌*◌, ◌≤◌, ◌<◌, ◌^◌, ◌↔◌, [], ◌∷◌, List, length, IfOk, IsTrue, OnOk, Err, map};
ghost use Rattle.machine_core.specs.Graphs.{Accepts};
ghost use Rattle.sv_word.specs.Words.{IsWord};
ghost use Rattle.sv_terms.specs.Language.{In, InFirstOnly, InEachInTurn, InOneOf, Power};
ghost use Rattle.sv_terms.specs.Bounds.{size, bound_of, from_left, without_size};
ghost use Rattle.regex_machine.specs.Built.{Builds};
ghost use Rattle.regex_machine.specs.Copied.{InCopies, copies_size};
ghost use Rattle.regex_machine.specs.Joined.{AreMade};
ghost use Rattle.regex_machine.specs.Kinds.{Together, weight, most_states};
ghost use Rattle.regex_machine.specs.Onwards.{AreBegun, PrecedesRest};
ghost use Rattle.regex_machine.specs.Parts.{AddsParts};
ghost use Rattle.regex_machine.specs.declared.kind.JoinKind.TheVariants.{Turn, One, All};
ghost use Rattle.trim_search.specs.declared.build_fault.BuildFault.TheVariants.{States};

use crate::complements::complement;
use crate::differences::only_first;
use crate::joining::{all_of, repeat};
use crate::leaves::{any_word, no_character, no_word, one_between, one_character, one_word};
use crate::letters::between;
use crate::onward::{Onward, Rest};
use crate::written::{embed, finish, letter, nothing_more, rest_of, text};
use machine_core::Explicit;
use std::alloc::Global;
use sv_list::{Copied, Items};
use sv_terms::{Regex, bound};
use sv_word::Ranges;
use trim_search::BuildFault;

/// A machine without registers whose words are those of the expression, with at most
/// [`bound`](crate::bound) states and at most `limit`.
///
/// `States` carries the bound and comes only where it is above `limit`. What isn't reached takes no
/// state, so that a machine may be built though its bound is above the limit. Unions and concatenations,
/// however nested, are written in one pass from their end on, and then explored: time and memory are
/// linear in the machine that comes out, but for one look-up in an ordered map for each of its edges.
/// Every other form explores the machines of its parts, so that each level of such forms is one more pass.
pub fn build(alloc: Global, regex: &Regex, limit: u64) -> Result<Explicit, BuildFault>
    ensures registers { IfOk result (λ m. m.registers ≡ 0) }
    ensures words { IfOk result (λ m. (word : List ℕ) → Accepts m word [] ↔ In regex.now word) }
    ensures states { IfOk result (λ m. m.states ≤ bound_of regex.now) }
    ensures within { IfOk result (λ m. m.states ≤ limit) }
    ensures too_many { (n : ℕ) → result ≡ Err (States n) → (n ≡ bound_of regex.now) × (limit < n) }
{
    match make(alloc, regex, limit) {
        Ok(machine) => Ok(machine),
        Err(BuildFault::States(_)) => Err(BuildFault::States(bound(regex))),
        Err(BuildFault::Memory(e)) => Err(BuildFault::Memory(e)),
    }
}

// The machine of the expression, where each machine on the way to it has at most `limit` states.
#[cycle(make)]
fn make(alloc: Global, regex: &Regex, limit: u64) -> Result<Explicit, BuildFault>
    ensures { Builds (In regex.now) (size regex.now) limit result }
{
    match regex {
        Regex::Empty => no_word(alloc, limit),
        Regex::All => any_word(alloc, limit),
        Regex::AnyChar => one_character(alloc, limit),
        Regex::Text(word) => one_word(alloc, word, limit),
        Regex::Range(lo, hi) => one_between(alloc, *lo, *hi, limit),
        Regex::Concat(rs) => make_turn(alloc, rs.as_slice(), limit),
        Regex::Union(rs) => make_one(alloc, rs.as_slice(), limit),
        Regex::Inter(rs) => make_inter(alloc, rs.as_slice(), limit),
        Regex::Diff(rs) => make_difference(alloc, rs.as_slice(), limit),
        Regex::Star(r) => make_copies(alloc, r.get(), 0, 1, true, limit),
        Regex::Plus(r) => make_copies(alloc, r.get(), 1, 1, true, limit),
        Regex::Opt(r) => make_copies(alloc, r.get(), 0, 1, false, limit),
        Regex::Comp(r) => make_complement(alloc, r.get(), limit),
        Regex::Loop(r, i, j) => make_loop(alloc, r.get(), *i, *j, limit),
    }
}

// One word of each, in their order.
#[cycle(make)]
#[inline(never)]
fn make_turn(alloc: Global, rs: &[Regex], limit: u64) -> Result<Explicit, BuildFault>
    ensures { Builds (Together Turn In rs.now) (most_states Turn (weight Turn size rs.now)) limit result }
{
    let mut states = Items::new(alloc);
    let mut end = nothing_more(alloc);
    let front = before_each(alloc, rs, &mut states, &mut end, limit)?;
    finish(alloc, states, front, limit)
}

// A word of one at least.
#[cycle(make)]
#[inline(never)]
fn make_one(alloc: Global, rs: &[Regex], limit: u64) -> Result<Explicit, BuildFault>
    ensures { Builds (Together One In rs.now) (most_states One (weight One size rs.now)) limit result }
{
    let mut states = Items::new(alloc);
    let mut end = nothing_more(alloc);
    let front = before_one(alloc, rs, &mut states, &mut end, limit)?;
    finish(alloc, states, front, limit)
}

// A word of the expression, and then what follows.
#[cycle(make)]
#[inline(never)]
fn before(
    alloc: Global,
    regex: &Regex,
    states: &mut Items<Onward>,
    rest: &mut Rest,
    limit: u64,
) -> Result<Rest, BuildFault>
    ensures ok { IfOk result (λ front. AreBegun states.old rest.old
        → PrecedesRest (In regex.now) (length states.old + size regex.now) states.old rest.old states.new rest.new front) }
    ensures beyond { (n : ℕ) → result ≡ Err (States n) → (limit < size regex.now) × (limit < 2 ^ 32) }
{
    match regex {
        Regex::AnyChar => {
            let on = Ranges::all(alloc)?;
            let front = letter(alloc, states, on, rest)?;
            Ok(front)
        }
        Regex::Range(lo, hi) => {
            let on = between(alloc, *lo, *hi)?;
            let front = letter(alloc, states, on, rest)?;
            Ok(front)
        }
        Regex::Text(word) => {
            let front = text(alloc, states, word, rest)?;
            Ok(front)
        }
        Regex::Concat(rs) => before_each(alloc, rs.as_slice(), states, rest, limit),
        Regex::Union(rs) => before_one(alloc, rs.as_slice(), states, rest, limit),
        _ => {
            let part = make(alloc, regex, limit)?;
            let front = embed(alloc, states, &part, rest)?;
            Ok(front)
        }
    }
}

// One word of each, in their order, and then what follows: from the last one on.
#[cycle(make)]
#[inline(never)]
fn before_each(
    alloc: Global,
    rs: &[Regex],
    states: &mut Items<Onward>,
    rest: &mut Rest,
    limit: u64,
) -> Result<Rest, BuildFault>
    ensures ok { IfOk result (λ front. AreBegun states.old rest.old
        → PrecedesRest (InEachInTurn In rs.now) (length states.old + most_states Turn (weight Turn size rs.now)) states.old rest.old states.new rest.new front) }
    ensures beyond { (n : ℕ) → result ≡ Err (States n) → (limit < most_states Turn (weight Turn size rs.now)) × (limit < 2 ^ 32) }
{
    if rs.is_empty() {
        return Ok(rest.copy(alloc)?);
    }
    let mut at = rs.len() - 1;
    let mut front = before(alloc, &rs[at], states, rest, limit)?;
    while at > 0 {
        at -= 1;
        let earlier = before(alloc, &rs[at], states, &mut front, limit)?;
        front = earlier;
    }
    Ok(front)
}

// A word of one at least, and then what follows, which all of them share.
#[cycle(make)]
#[inline(never)]
fn before_one(
    alloc: Global,
    rs: &[Regex],
    states: &mut Items<Onward>,
    rest: &mut Rest,
    limit: u64,
) -> Result<Rest, BuildFault>
    ensures ok { IfOk result (λ front. AreBegun states.old rest.old
        → PrecedesRest (InOneOf In rs.now) (length states.old + most_states One (weight One size rs.now)) states.old rest.old states.new rest.new front) }
    ensures beyond { (n : ℕ) → result ≡ Err (States n) → (limit < most_states One (weight One size rs.now)) × (limit < 2 ^ 32) }
{
    if rs.len() == 1 {
        return before(alloc, &rs[0], states, rest, limit);
    }
    let mut moves = Items::new(alloc);
    let mut may_end = false;
    for r in rs {
        let front = before(alloc, r, states, rest, limit)?;
        let Onward {
            moves: more,
            may_end: ends,
        } = front.onward;
        moves.append(more)?;
        may_end = may_end || ends;
    }
    Ok(rest_of(moves, may_end))
}

#[cycle(make)]
#[inline(never)]
fn make_complement(alloc: Global, r: &Regex, limit: u64) -> Result<Explicit, BuildFault>
    ensures { Builds (λ w. IsWord w × (In r.now w → ⊥)) (2 ^ size r.now) limit result }
{
    let part = make(alloc, r, limit)?;
    complement(alloc, &part, limit)
}

#[cycle(make)]
fn make_loop(alloc: Global, r: &Regex, i: u32, j: u32, limit: u64) -> Result<Explicit, BuildFault>
    ensures { Builds (λ w. (n : ℕ) × (i ≤ n) × (n ≤ j) × Power (In r.now) n w) (j * size r.now + 1) limit result }
{
    if i > j {
        return no_word(alloc, limit);
    }
    if j == 0 {
        return no_character(alloc, limit);
    }
    make_copies(alloc, r, i, j, false, limit)
}

#[cycle(make)]
#[inline(never)]
fn make_copies(
    alloc: Global,
    r: &Regex,
    least: u32,
    most: u32,
    again: bool,
    limit: u64,
) -> Result<Explicit, BuildFault>
    requires some { 0 < most }
    requires order { least ≤ most }
    requires once { IsTrue again → most ≡ 1 }
    ensures { Builds (InCopies (In r.now) least most again) (copies_size least most (size r.now)) limit result }
{
    let part = make(alloc, r, limit)?;
    repeat(alloc, &part, least, most, again, limit)
}

#[cycle(make)]
#[inline(never)]
fn make_difference(alloc: Global, rs: &[Regex], limit: u64) -> Result<Explicit, BuildFault>
    ensures { Builds (InFirstOnly In rs.now) (from_left without_size (map size rs.now)) limit result }
{
    let parts = make_all(alloc, rs, limit)?;
    only_first(alloc, parts.as_slice(), limit)
}

// The machine of each expression.
#[cycle(make)]
#[inline(never)]
fn make_all(alloc: Global, rs: &[Regex], limit: u64) -> Result<Items<Explicit>, BuildFault>
    ensures made { IfOk result (AreMade rs.now) }
    ensures beyond { (n : ℕ) → result ≡ Err (States n) → (limit < from_left without_size (map size rs.now)) × (limit < 2 ^ 32) }
{
    let mut parts = Items::new(alloc);
    for r in rs {
        let part = make(alloc, r, limit)?;
        parts.push(part)?;
    }
    Ok(parts)
}

// A word of all.
#[cycle(make)]
#[inline(never)]
fn make_inter(alloc: Global, rs: &[Regex], limit: u64) -> Result<Explicit, BuildFault>
    ensures { Builds (Together All In rs.now) (most_states All (weight All size rs.now)) limit result }
{
    let mut parts = Items::new(alloc);
    add_parts(alloc, &mut parts, rs, limit)?;
    all_of(alloc, parts.as_slice(), limit)
}

// Adds the machines of a list. A list of this kind within it counts as its elements.
#[cycle(make)]
#[inline(never)]
fn add_parts(
    alloc: Global,
    parts: &mut Items<Explicit>,
    rs: &[Regex],
    limit: u64,
) -> Result<(), BuildFault>
    ensures ok { OnOk result (AddsParts All rs.now parts.old parts.new) }
    ensures beyond { (n : ℕ) → result ≡ Err (States n) → (limit < most_states All (weight All size rs.now)) × (limit < 2 ^ 32) }
{
    for r in rs {
        add_part(alloc, parts, r, limit)?;
    }
    Ok(())
}

#[cycle(make)]
#[inline(never)]
fn add_part(
    alloc: Global,
    parts: &mut Items<Explicit>,
    r: &Regex,
    limit: u64,
) -> Result<(), BuildFault>
    ensures ok { OnOk result (AddsParts All (r.now ∷ []) parts.old parts.new) }
    ensures beyond { (n : ℕ) → result ≡ Err (States n) → (limit < size r.now) × (limit < 2 ^ 32) }
{
    match r {
        Regex::Inter(rs) => add_parts(alloc, parts, rs.as_slice(), limit),
        _ => {
            let part = make(alloc, r, limit)?;
            parts.push(part)?;
            Ok(())
        }
    }
}
