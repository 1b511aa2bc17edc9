ghost use Rattle.std.specs.Prelude.{◌≡◌, IfOk, All, length};

use machine_core::{Cost, CostFault, Run, total};
use std::alloc::{AllocError, Global};
use sv_list::Items;
use sv_word::Word;

// A run of one step at these costs.
fn run_with(alloc: Global, step: u64, last: u64) -> Result<Run<u32>, AllocError>
    ensures { IfOk result (λ run. All (λ k. length k ≡ length run.last) run.costs) }
{
    let mut costs = Items::new(alloc);
    costs.push(Cost::from_slice(alloc, &[step])?)?;
    Ok(Run {
        word: Word::new(alloc),
        states: Items::new(alloc),
        costs,
        last: Cost::from_slice(alloc, &[last])?,
    })
}

// The sum, or the register that is past 64 bits.
fn outcome(alloc: Global, run: &Run<u32>) -> Result<u64, usize>
    requires { All (λ k. length k ≡ length run.now.last) run.now.costs }
{
    match total(alloc, run) {
        Ok(cost) => match cost.as_slice() {
            [entry] => Ok(*entry),
            _ => Err(100),
        },
        Err(CostFault::Past(register)) => Err(register),
        Err(CostFault::Memory(_)) => Err(200),
    }
}

// The same, of a run of one step at these costs.
fn sum(alloc: Global, step: u64, last: u64) -> Result<Result<u64, usize>, AllocError> {
    let run = run_with(alloc, step, last)?;
    Ok(outcome(alloc, &run))
}

#[test]
fn costs_add_up(rt: HostRuntime) -> Result<(), AllocError> {
    assert!(rt; sum(rt.alloc(), 5, 3)? == Ok(8) && sum(rt.alloc(), u64::MAX, 1)? == Err(0));
    Ok(())
}
