//! Variables: places that are one are one variable.
ghost use Rattle.std.specs.Prelude.{◌≡◌, ◌+◌, ◌-◌, ◌<◌, ◌≤◌, ◌^◌, [], ◌∷◌, ◌++◌, map, length, get_or, IfOk, OnOk};
ghost use Rattle.std.specs.List.{range_with_len};
ghost use Rattle.straight_line.specs.Leading.{AreRooted, IsForest, ordinal, roots_in};

use std::alloc::{AllocError, Global};

/// The variables of places.
#[derive(Drop)]
pub struct VariableNumbers {
    /// The number of each place's variable.
    pub of: Vec<u32>,
    /// The number of variables.
    pub count: u32,
}

/// Numbers variables in the order of their least places, which `firsts` has for each place. Linear.
#[tactic(auto, using(crate::proofs::Ranked::ranked_none, crate::proofs::Ranked::ranked_first, crate::proofs::Ranked::ranked_other, crate::proofs::Ranked::ranked_all))]
pub fn number(alloc: Global, firsts: &[u32]) -> Result<VariableNumbers, AllocError>
    requires lower { IsForest firsts.now }
    requires rooted { AreRooted firsts.now }
    requires few { length firsts.now ≤ 2 ^ 32 - 1 }
    ensures count { IfOk result (λ n. n.count ≡ length (roots_in (length firsts.now) firsts.now)) }
    ensures of { IfOk result (λ n. n.of.items ≡ map (ordinal (length firsts.now) firsts.now) (range_with_len 0 (length firsts.now))) }
{
    let mut numbering = VariableNumbers {
        of: Vec::new(alloc),
        count: 0,
    };
    for i in 0..firsts.len() {
        numbering.add(i, firsts[i])?;
    }
    Ok(numbering)
}

impl VariableNumbers {
    /// Numbers the variable of the next place, which is new where the place is its least.
    fn add(&mut self, place: usize, first: u32) -> Result<(), AllocError>
        requires next { length self.old.of.items ≡ place }
        requires lower { first ≤ place }
        requires few { self.old.count < 2 ^ 32 - 1 }
        ensures first { first ≡ place → OnOk result ((self.new.of.items ≡ self.old.of.items ++ self.old.count ∷ []) × (self.new.count ≡ self.old.count + 1)) }
        ensures other { first < place → OnOk result ((self.new.of.items ≡ self.old.of.items ++ get_or self.old.of.items first 0 ∷ []) × (self.new.count ≡ self.old.count)) }
    {
        let least = first as usize;
        if least < place {
            let number = self.of[least];
            self.of.push(number)?;
            return Ok(());
        }
        self.of.push(self.count)?;
        self.count += 1;
        Ok(())
    }
}
