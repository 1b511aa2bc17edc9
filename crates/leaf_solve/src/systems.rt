//! The system of a question, and what its solutions are.
ghost use Rattle.std.specs.Prelude.{◌≡◌, length, IfOk};
ghost use Rattle.lia_branch.specs.Outcomes.{IsSearchable, IsAnswer, IsSolution};
ghost use Rattle.leaf_solve.specs.Answers.{IsSatAnswer, row_reach};
ghost use Rattle.leaf_solve.specs.Steps.{IsAskedQuestion, IsSystemFor};

use crate::counts::runs_at;
use crate::question::Question;
use farkas_check::System;
use lia_branch::{Outcome, solve};
use parikh_flow::{NetCutter, nets_are_within, solutions_are_hits, system_of, systems_count_edges};
use search_hits::Hit;
use std::alloc::{AllocError, Global};
use sv_list::Items;

/// How many registers the machines have.
fn registers(question: &Question) -> u32
    requires { IsAskedQuestion question.now }
    ensures { result ≡ length question.now.region.now.registers }
{
    question.region.registers.len() as u32
}

/// The reach as it stands in the system: without machines no row speaks of it.
pub fn row_reach(question: &Question) -> Option<u64>
    ensures { result ≡ row_reach question.now.machines.now question.now.reach }
{
    if question.machines.is_empty() {
        None
    } else {
        Some(question.reach)
    }
}

/// The system of the machines and the rows, with the row for reach where there is one.
pub fn system(alloc: Global, question: &Question, reach: Option<u64>) -> Result<System, AllocError>
    requires { IsAskedQuestion question.now }
    ensures system { IfOk result (IsSystemFor question.now reach) }
    ensures searchable { IfOk result IsSearchable }
{
    let system = system_of(
        alloc,
        question.machines,
        question.integers,
        registers(question),
        question.rows,
        reach,
    )?;
    nets_are_within(question.machines, &system);
    systems_count_edges(question.machines, &system);
    Ok(system)
}

/// What the solver says of a system.
pub fn solve_system(alloc: Global, system: &System) -> Result<Outcome, AllocError>
    requires { IsSearchable system.now }
    ensures { IfOk result (IsAnswer system.now) }
{
    solve(alloc, system, &NetCutter::of(system))
}

/// The hit of a solution: runs for its counts, and its first unknowns.
pub fn hit_of(
    alloc: Global,
    question: &Question,
    system: &System,
    point: Items<i128>,
) -> Result<Hit, AllocError>
    requires asked { IsAskedQuestion question.now }
    requires system { IsSystemFor question.now (row_reach question.now.machines.now question.now.reach) system.now }
    requires solution { IsSolution system.now point }
    ensures { IfOk result (IsSatAnswer question.now.machines.now (length question.now.region.now.registers) question.now.integers question.now.rows.now question.now.reach) }
{
    solutions_are_hits(question.machines, system);
    let base = question.integers as usize + question.region.registers.len();
    let runs = runs_at(alloc, question.machines, base, point.as_slice())?;
    let mut integers = point;
    integers.truncate(question.integers as usize);
    Ok(Hit { runs, integers })
}
