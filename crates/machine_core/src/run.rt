ghost use Rattle.std.specs.Prelude.{◌≡◌, ℕ, ◌<◌, ◌≤◌, ◌^◌, [], ◌∷◌, ◌++◌, length, reverse, IfOk, OnOk, IfSome, IfNone, All, Err};
ghost use Rattle.sv_word.specs.Ranges.{least_of};
ghost use Rattle.sv_word.specs.Words.{greatest_character};
ghost use Rattle.machine_core.specs.Costs.{Fits, IsFirstPast, entry_total};
ghost use Rattle.machine_core.specs.Edges.{IsWalk};
ghost use Rattle.machine_core.specs.Runs.{run_total};
ghost use Rattle.machine_core.specs.Walks.{IsRunAlong};
ghost use Rattle.machine_core.specs.declared.run.CostFault.TheVariants.{Past, Memory};

use crate::cost::Cost;
use crate::explicit::Explicit;
use std::alloc::{AllocError, Global};
use sv_list::{Copied, Items};
use sv_word::{Ranges, Word};
use thiserror::Error;

/// A run of a machine over its states `T`: the characters that it reads, the states that it goes
/// through, which are one more than the characters, the cost of each step and that of the end.
pub struct Run<T> {
    pub word: Word,
    pub states: Items<T>,
    pub costs: Items<Cost>,
    pub last: Cost,
}

// A drop by hand is one call where a derived one is a call for each vector inside.
impl<T: Drop> Drop for Run<T> {
    fn drop(self) {
        let Self {
            word: _,
            states: _,
            costs: _,
            last: _,
        } = self;
    }
}

impl<T: Copied> Copied for Run<T> {
    fn copy(&self, alloc: Global) -> Result<Self, AllocError> {
        Ok(Run {
            word: self.word.copy(alloc)?,
            states: self.states.copy(alloc)?,
            costs: self.costs.copy(alloc)?,
            last: self.last.copy(alloc)?,
        })
    }
}

impl Run<u32> {
    /// The run of no characters, from state 0, whose end costs `last`. It has room for `steps` steps.
    pub fn open(alloc: Global, steps: usize, last: Cost) -> Result<Run<u32>, AllocError>
        ensures { IfOk result (λ run. run ≡ record { word = []; states = 0 ∷ []; costs = []; last = last }) }
    {
        let room = Vec::with_capacity(alloc, steps.saturating_add(1))?;
        let mut states = Items::from_vec(room);
        states.push(0)?;
        let room = Vec::with_capacity(alloc, steps)?;
        Ok(Run {
            word: Word::new(alloc),
            states,
            costs: Items::from_vec(room),
            last,
        })
    }

    /// One step more: on `character`, to the state `to`, at `cost`. Where there is no memory the run is
    /// lost. Amortised constant, and linear in the registers.
    pub fn add_step(
        &mut self,
        alloc: Global,
        character: u32,
        to: u32,
        cost: &Cost,
    ) -> Result<(), AllocError>
        requires { character ≤ greatest_character }
        ensures { OnOk result (self.new ≡ record {
          word = self.old.word ++ character ∷ [];
          states = self.old.states ++ to ∷ [];
          costs = self.old.costs ++ cost.now ∷ [];
          last = self.old.last;
        }) }
    {
        self.word.push(character)?;
        self.costs.push(cost.copy(alloc)?)?;
        self.states.push(to)
    }

    /// The run along the edges at the places of `back`, the last of which comes first, on the least
    /// character of each; its end costs `last`. These edges lead from state 0, one after another.
    /// Linear in the edges and their registers.
    pub fn along(
        alloc: Global,
        machine: &Explicit,
        back: &[usize],
        last: &Cost,
    ) -> Result<Run<u32>, AllocError>
        requires { (t : ℕ) × IsWalk machine.now.edges 0 (reverse back.now) t }
        ensures along { IfOk result (IsRunAlong machine.now.edges (reverse back.now)) }
        ensures last { IfOk result (λ run. run.last ≡ last.now) }
    {
        let mut run = Run::open(alloc, back.len(), last.copy(alloc)?)?;
        let mut k = back.len();
        while k > 0 {
            k -= 1;
            let edge = &machine.edges()[back[k]];
            run.add_step(alloc, least(&edge.on), edge.to, &edge.cost)?;
        }
        Ok(run)
    }
}

// The least character; 0 where there is none.
fn least(on: &Ranges) -> u32
    ensures { result ≡ least_of on.now }
{
    match on.least() {
        Some(c) => c,
        None => 0,
    }
}

/// Why a run has no total.
#[derive(Debug, Drop, Error)]
pub enum CostFault {
    /// The sum at this register, the first such, is 2^64 or more.
    #[error("the costs at register {0} add up to 2^64 or more")]
    Past(usize),
    #[error("out of memory")]
    Memory(AllocError),
}

impl From<AllocError> for CostFault {
    ghost from_gives = { λ e fault. fault ≡ Memory e };

    fn from(e: AllocError) -> Self {
        CostFault::Memory(e)
    }
}

/// The costs of a run's steps and of its end, added up at each register. Linear in the costs of the
/// run, and no allocation for up to two registers.
pub fn total<T>(alloc: Global, run: &Run<T>) -> Result<Cost, CostFault>
    requires { All (λ k. length k ≡ length run.now.last) run.now.costs }
    ensures sum { IfOk result (λ cost. cost ≡ run_total run.now) }
    ensures fits { IfOk result Fits }
    ensures past { (register : ℕ) → result ≡ Err (Past register) → IsFirstPast (run_total run.now) register }
{
    let mut sum = Cost::new(alloc);
    for (register, last) in run.last.as_slice().iter().enumerate() {
        match register_total(run.costs.as_slice(), register, *last) {
            Some(entry) => sum.push(entry)?,
            None => return Err(CostFault::Past(register)),
        }
    }
    Ok(sum)
}

// What the steps cost at a register, and `last`; `None` where that is 2^64 or more.
fn register_total(costs: &[Cost], register: usize, last: u64) -> Option<u64>
    requires { All (λ k. register < length k) costs.now }
    ensures sum { IfSome result (λ sum. sum ≡ entry_total register costs.now last) }
    ensures fits { IfSome result (λ sum. sum < 2 ^ 64) }
    ensures past { IfNone result (2 ^ 64 ≤ entry_total register costs.now last) }
{
    let mut sum = last;
    for cost in costs {
        sum = sum.checked_add(cost.as_slice()[register])?;
    }
    Some(sum)
}
