//! Parts of an expression, written before what follows them.
ghost use Rattle.std.specs.Prelude.{◌≡◌, ℕ, ◌<◌, ◌≤◌, ◌^◌, ◌+◌, [], ◌∷◌, length, map, true, IfOk, OnOk, Contains, None};
ghost use Rattle.machine_core.specs.declared.machine.Move.{Move};
ghost use Rattle.sv_word.specs.Words.{IsWord, greatest_character};
ghost use Rattle.regex_machine.specs.Built.{Builds};
ghost use Rattle.regex_machine.specs.Joined.{WordsOf};
ghost use Rattle.regex_machine.specs.Letters.{OneOf};
ghost use Rattle.regex_machine.specs.Onwards.{AreBegun, HasState, PrecedesRest, ReadsOn, stateless, unmade};
ghost use Rattle.regex_machine.specs.Woven.{IsPlaced, ArePlaced, counted};

use crate::explored::list_states;
use crate::onward::{Onward, Rest};
use crate::stepping::may_end;
use crate::woven::Woven;
use machine_core::{Cost, Explicit, Machine, Move};
use std::alloc::{AllocError, Global};
use sv_list::{Copied, Items};
use sv_word::{Ranges, Word};
use trim_search::BuildFault;

/// The state that has what follows, which is made where there is none.
pub fn state_of(
    alloc: Global,
    states: &mut Items<Onward>,
    rest: &mut Rest,
) -> Result<u32, AllocError>
    ensures { IfOk result (λ s. AreBegun states.old rest.old → HasState states.old rest.old states.new rest.new s) }
{
    match rest.state {
        Some(state) => Ok(state),
        None => {
            let count = states.len();
            if count >= u32::MAX as usize {
                return Err(AllocError);
            }
            states.push(rest.onward.copy(alloc)?)?;
            rest.state = Some(count as u32);
            Ok(count as u32)
        }
    }
}

/// One character of the set, and then what follows.
#[inline(never)]
pub fn letter(
    alloc: Global,
    states: &mut Items<Onward>,
    on: Ranges,
    rest: &mut Rest,
) -> Result<Rest, AllocError>
    ensures { IfOk result (λ front. AreBegun states.old rest.old
        → PrecedesRest (OneOf on) (length states.old + unmade rest.old.state + 1) states.old rest.old states.new rest.new front) }
{
    let mut moves = Items::new(alloc);
    if on.is_empty() {
        return Ok(rest_of(moves, false));
    }
    let _characters = on.as_slice();
    let to = state_of(alloc, states, rest)?;
    let cost = Cost::new(alloc);
    moves.push(Move { on, cost, to })?;
    Ok(rest_of(moves, false))
}

/// These moves and this end, without a state.
pub fn rest_of(moves: Items<Move<u32>>, may_end: bool) -> Rest
    ensures moves { result.onward.moves ≡ moves }
    ensures may_end { result.onward.may_end ≡ may_end }
    ensures state { result.state ≡ None }
    ensures whole { result ≡ stateless moves may_end }
{
    Rest {
        onward: Onward { moves, may_end },
        state: None,
    }
}

// This character, and then what follows.
fn character(
    alloc: Global,
    states: &mut Items<Onward>,
    one: u32,
    rest: &mut Rest,
) -> Result<Rest, AllocError>
    requires { one ≤ greatest_character }
    ensures { IfOk result (λ front. AreBegun states.old rest.old
        → PrecedesRest (λ w. w ≡ one ∷ []) (length states.old + unmade rest.old.state + 1) states.old rest.old states.new rest.new front) }
{
    let on = Ranges::of(alloc, one, one)?;
    letter(alloc, states, on, rest)
}

/// This word, and then what follows. Linear in the word, and also in what follows where that has no
/// state yet or the word is empty.
#[inline(never)]
pub fn text(
    alloc: Global,
    states: &mut Items<Onward>,
    word: &Word,
    rest: &mut Rest,
) -> Result<Rest, AllocError>
    ensures { IfOk result (λ front. AreBegun states.old rest.old
        → PrecedesRest (λ w. (w ≡ word.now) × IsWord w) (length states.old + unmade rest.old.state + length word.now) states.old rest.old states.new rest.new front) }
{
    let characters = word.as_slice();
    word.is_word();
    if characters.is_empty() {
        state_of(alloc, states, rest)?;
        return rest.copy(alloc);
    }
    let mut at = characters.len() - 1;
    let mut front = character(alloc, states, characters[at], rest)?;
    while at > 0 {
        at -= 1;
        let before = character(alloc, states, characters[at], &mut front)?;
        front = before;
    }
    Ok(front)
}

/// The words of the part, and then what follows. Each state of the part is one state more, which has
/// what follows where a word of the part may end. Linear in the part, and in its ends times what follows.
#[inline(never)]
pub fn embed(
    alloc: Global,
    states: &mut Items<Onward>,
    part: &Explicit,
    rest: &Rest,
) -> Result<Rest, AllocError>
    requires { part.now.registers ≡ 0 }
    ensures { IfOk result (λ front. AreBegun states.old rest.now
        → PrecedesRest (WordsOf part.now) (length states.old + part.now.states) states.old rest.now states.new rest.now front) }
{
    let base = states.len();
    if base > (u32::MAX - part.states()) as usize {
        return Err(AllocError);
    }
    place_states(alloc, states, part, base as u32, &rest.onward)?;
    let onward = states.as_slice()[base].copy(alloc)?;
    Ok(Rest {
        onward,
        state: Some(base as u32),
    })
}

// Adds the states of the part, which are counted from `base`.
fn place_states(
    alloc: Global,
    states: &mut Items<Onward>,
    part: &Explicit,
    base: u32,
    rest: &Onward,
) -> Result<(), AllocError>
    requires plain { part.now.registers ≡ 0 }
    requires base { base ≡ length states.old }
    requires room { base + part.now.states < 2 ^ 32 }
    ensures { OnOk result (ArePlaced part.now part.now.states rest.now states.old states.new) }
{
    for at in 0..part.states() {
        let onward = place_part(alloc, part, at, base, rest)?;
        states.push(onward)?;
    }
    Ok(())
}

// What follows in the whole at this state of the part, whose states are counted from `base`.
fn place_part(
    alloc: Global,
    part: &Explicit,
    at: u32,
    base: u32,
    rest: &Onward,
) -> Result<Onward, AllocError>
    requires plain { part.now.registers ≡ 0 }
    requires at { at < part.now.states }
    requires room { base + part.now.states < 2 ^ 32 }
    ensures { IfOk result (IsPlaced part.now at base rest.now) }
{
    let own = part.moves(alloc, &at)?;
    let mut moves = count_from(alloc, own, base)?;
    if !may_end(part, at) {
        return Ok(Onward {
            moves,
            may_end: false,
        });
    }
    moves.append(rest.moves.copy(alloc)?)?;
    Ok(Onward {
        moves,
        may_end: rest.may_end,
    })
}

// The moves, their targets counted from `base`.
fn count_from(
    alloc: Global,
    moves: Items<Move<u32>>,
    base: u32,
) -> Result<Items<Move<u32>>, AllocError>
    requires { (m : Move ℕ) → Contains moves m → base + m.to < 2 ^ 32 }
    ensures { IfOk result (λ all. all ≡ map (counted base) moves) }
{
    let room = Vec::with_capacity(alloc, moves.len())?;
    let mut all = Items::from_vec(room);
    for step in moves.into_vec() {
        all.push(Move {
            on: step.on,
            cost: step.cost,
            to: base + step.to,
        })?;
    }
    Ok(all)
}

/// Nothing, behind the whole.
#[inline(never)]
pub fn nothing_more(alloc: Global) -> Rest
    ensures moves { result.onward.moves ≡ [] }
    ensures may_end { result.onward.may_end ≡ true }
    ensures state { result.state ≡ None }
{
    rest_of(Items::new(alloc), true)
}

/// The machine that reads what follows here, with the states that are reached.
#[inline(never)]
pub fn finish(
    alloc: Global,
    states: Items<Onward>,
    front: Rest,
    limit: u64,
) -> Result<Explicit, BuildFault>
    requires { AreBegun states front }
    ensures { Builds (ReadsOn states front.onward) (length states + unmade front.state) limit result }
{
    let mut states = states;
    let mut front = front;
    let start = state_of(alloc, &mut states, &mut front)?;
    let woven = Woven::of(states.as_slice(), start);
    list_states(alloc, &woven, limit)
}
