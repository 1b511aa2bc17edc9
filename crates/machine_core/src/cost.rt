ghost use Rattle.std.specs.Prelude.{◌≡◌, ℕ, ◌<◌, ◌≤◌, ◌+◌, ◌^◌, [], ◌∷◌, ◌++◌, length, OnOk, OnErr, IfOk, IsOk, slice_index};
ghost use Rattle.machine_core.specs.Costs.{zeros, add_costs};

use smallvec::SmallVec;
use std::alloc::{AllocError, Global};
use std::marker::Model;
use sv_list::Copied;

/// One number for each register, in the order of the registers.
///
/// Contracts see the list of the numbers. Up to two stand in the value itself, so that costs of at
/// most two registers allocate nothing. Making, copying and adding are linear in the registers.
#[derive(Drop)]
pub struct Cost {
    entries: SmallVec<u64, 2>,
}

impl Model for Cost {
    ghost use Rattle.std.specs.Prelude.{List, ℕ};

    ghost Value = { List ℕ };

    ghost view = { λ c. c.entries.items };
}

impl Cost {
    /// The cost of no registers.
    pub fn new(alloc: Global) -> Self
        ensures { result ≡ [] }
    {
        Cost {
            entries: SmallVec::new(alloc),
        }
    }

    /// Nothing at each of `width` registers.
    pub fn zeros(alloc: Global, width: usize) -> Result<Self, AllocError>
        ensures { IfOk result (λ c. c ≡ zeros width) }
    {
        let mut cost = Cost::new(alloc);
        for _register in 0..width {
            cost.push(0)?;
        }
        Ok(cost)
    }

    /// The cost of these numbers, the first of which is that of register 0. Up to two need no memory.
    pub fn from_slice(alloc: Global, entries: &[u64]) -> Result<Self, AllocError>
        ensures entries { IfOk result (λ c. c ≡ entries.now) }
        ensures few { length entries.now ≤ 2 → IsOk result }
    {
        Ok(Cost {
            entries: SmallVec::from_slice(alloc, entries)?,
        })
    }

    /// The number of each register.
    pub fn as_slice(&self) -> &[u64]
        ensures { result.now ≡ self.now }
    {
        self.entries.as_slice()
    }

    /// One register more, with this number.
    pub fn push(&mut self, entry: u64) -> Result<(), AllocError>
        ensures ok { OnOk result (self.new ≡ self.old ++ entry ∷ []) }
        ensures err { OnErr result (self.new ≡ self.old) }
    {
        self.entries.push(entry)?;
        Ok(())
    }

    /// The sum of two costs, register by register.
    pub fn add(&self, alloc: Global, other: &Cost) -> Result<Self, AllocError>
        requires same { length self.now ≡ length other.now }
        requires fits { (k : ℕ) → slice_index self.now k + slice_index other.now k < 2 ^ 64 }
        ensures { IfOk result (λ c. c ≡ add_costs self.now other.now) }
    {
        let mut sum = Cost::new(alloc);
        let right = other.as_slice();
        for (i, x) in self.as_slice().iter().enumerate() {
            sum.push(*x + right[i])?;
        }
        Ok(sum)
    }
}

impl Copied for Cost {
    fn copy(&self, alloc: Global) -> Result<Self, AllocError> {
        Cost::from_slice(alloc, self.as_slice())
    }
}
