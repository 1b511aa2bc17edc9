ghost use Rattle.std.specs.Prelude.{◌≡◌, ◌≤◌, ◌<◌, ◌↔◌, IsTrue};
ghost use Rattle.sv_terms.specs.Language.{Word};
ghost use Rattle.regex_machine.specs.Joined.{WordsOf};
ghost use Rattle.regex_machine.specs.Copied.{InCopies, IsNextCopy, AreEnough, IsCopyState, CopyEnds, CopySteps, CopiesRead, copy_start, copies_size};
ghost use Rattle.regex_machine.specs.Laws.{no-cost, copy-first, copy-state, copy-character, copy-states};

use crate::stepping::{Place, add_steps, ends_if, may_end, steps_of};
use machine_core::{Cost, Explicit, Machine, Move};
use std::alloc::{AllocError, Global};
use sv_list::Items;

/// Copies of a machine, one after another, by a machine that is explored state by state.
///
/// A state is a copy and a state in it, and `(most, 0)` a start of its own, which nothing leads to. A
/// word of k pieces that aren't empty goes through the first k copies, so that each state has the moves
/// of at most two.
#[derive(Drop)]
pub struct Copies<'a> {
    pub part: &'a Explicit,
    /// From this number of copies on a word may end.
    pub least: u32,
    /// The number of copies.
    pub most: u32,
    /// Whether the last copy may come again and again.
    pub again: bool,
    /// Whether the part reads the empty word.
    pub reads_empty: bool,
    ghost plain: { part.now.registers ≡ 0 },
    ghost some: { 0 < most },
}

impl<'a> Copies<'a> {
    /// From `least` to `most` words of the part, one after another, or `least` and more where they may
    /// come `again`.
    pub fn of(part: &'a Explicit, least: u32, most: u32, again: bool) -> Self
        requires plain { part.now.registers ≡ 0 }
        requires some { 0 < most }
        requires order { least ≤ most }
        requires once { IsTrue again → most ≡ 1 }
        ensures read { (w : Word) → CopiesRead result.part.now result.least result.most result.again result.reads_empty w ↔ InCopies (WordsOf part.now) least most again w }
        ensures part { result.part.now ≡ part.now }
        ensures least { result.least ≡ least }
        ensures most { result.most ≡ most }
    {
        let reads_empty = may_end(part, 0);
        Copies {
            part,
            least,
            most,
            again,
            reads_empty,
        }
    }

    // The copy after this one.
    fn next(&self, copy: u32) -> Option<u32>
        requires { copy < self.now.most }
        ensures { IsNextCopy self.now.most self.now.again copy result }
    {
        let most = self.most;
        if copy + 1 < most {
            return Some(copy + 1);
        }
        if self.again {
            return Some(copy);
        }
        None
    }

    // Whether so many copies are enough.
    fn are_enough(&self, copies: u32) -> bool
        ensures { IsTrue result ↔ AreEnough self.now.least self.now.reads_empty copies }
    {
        if self.reads_empty {
            return true;
        }
        self.least <= copies
    }
}

impl<'a> Machine for Copies<'a> {
    type St = Place;

    ghost width = { λ m. 0 };

    ghost is_state = { λ m. IsCopyState m.part.now m.least m.most };

    ghost first = { λ m. copy_start m.least m.most m.reads_empty };

    ghost ends_with = { λ m. CopyEnds m.part.now m.least m.most m.reads_empty };

    ghost steps_to = { λ m. CopySteps m.part.now m.most m.again };

    ghost top = { λ m. 0 };

    ghost size = { λ m. copies_size m.least m.most m.part.now.states };

    ghost first_is_state = { λ m. copy-first m.part.now m.least m.most m.reads_empty m.some };

    ghost step_is_state = { λ m s t c cost h step. copy-state m.part.now m.least m.most m.again m.some s c cost t step };

    ghost step_character = { λ m s t c cost h step. copy-character m.part.now m.most m.again s c cost t step };

    ghost step_cost = { λ m s t c cost h step. no-cost cost step.0 };

    ghost end_cost = { λ m s cost h end. no-cost cost end.0 };

    ghost states_at_most = { λ m. copy-states m.part.now m.least m.most };

    fn registers(&self) -> usize {
        0
    }

    fn start(&self, _alloc: Global) -> Result<Place, AllocError> {
        if self.reads_empty {
            return Ok((0, 0));
        }
        if self.least > 0 {
            return Ok((0, 0));
        }
        Ok((self.most, 0))
    }

    fn ends(&self, alloc: Global, at: &Place) -> Result<Items<Cost>, AllocError> {
        let (copy, state) = *at;
        if copy == self.most {
            let enough = self.are_enough(0);
            return ends_if(alloc, enough);
        }
        if !may_end(self.part, state) {
            return ends_if(alloc, false);
        }
        let last = self.are_enough(copy + 1);
        ends_if(alloc, last)
    }

    fn moves(&self, alloc: Global, at: &Place) -> Result<Items<Move<Place>>, AllocError> {
        let (copy, state) = *at;
        if copy == self.most {
            return steps_of(alloc, self.part, 0, 0);
        }
        let mut all = steps_of(alloc, self.part, state, copy)?;
        if !may_end(self.part, state) {
            return Ok(all);
        }
        match self.next(copy) {
            None => Ok(all),
            Some(next) => {
                add_steps(alloc, &mut all, self.part, 0, next)?;
                Ok(all)
            }
        }
    }
}
