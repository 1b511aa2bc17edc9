//! The jobs of a batch.
ghost use Rattle.std.specs.Prelude.{◌≡◌, ◌≤◌, [], ◌⊎◌, length, IfOk};
ghost use Rattle.std.specs.List.{AllByRecursion};
ghost use Rattle.decide.specs.Tallies.{batch};
ghost use Rattle.decide.specs.Batches.{AreAnswersOf, AreJobsOf};
ghost use Rattle.decide.specs.Jobs.{IsAskedCube};

use crate::cube_job::{CubeJob, Shared};
use crate::tally::BATCH;
use bool_cubes::Cubes;
use cube_search::{CubeAnswer, answer_crosses};
use par_phase::{Gate, run_jobs};
use part_machines::machines_cross;
use std::alloc::{AllocError, Global};
use std::thread::Threads;
use sv_list::Items;

/// Jobs for the next cubes, as many as a batch has; fewer only where no more are left.
pub fn next_batch<'a>(
    alloc: Global,
    shared: &'a Shared<'a>,
    cubes: &mut Cubes,
) -> Result<Items<CubeJob<'a>>, AllocError>
    requires asked { AllByRecursion (IsAskedCube shared.now.terms.now) cubes.old }
    ensures taken { IfOk result (λ jobs. AreJobsOf shared.now.terms.now jobs cubes.old cubes.new) }
    ensures size { IfOk result (λ jobs. (length jobs ≡ batch) ⊎ ((cubes.new ≡ []) × (length jobs ≤ batch))) }
{
    let mut jobs = Items::new(alloc);
    for _ in 0..BATCH {
        match cubes.next(alloc)? {
            None => return Ok(jobs),
            Some(cube) => jobs.push(CubeJob { shared, cube })?,
        }
    }
    Ok(jobs)
}

/// The answers of the jobs in their order. Several threads do them at once.
pub fn answers<R: Threads + Sync, G: Gate + Sync>(
    rt: &R,
    alloc: Global,
    jobs: &[CubeJob<'_>],
    workers: u32,
    gate: &G,
) -> Result<Vec<Result<CubeAnswer, AllocError>>, AllocError>
    requires { 1 ≤ workers }
    ensures { IfOk result (λ outcomes. AreAnswersOf jobs.now outcomes.items) }
{
    answer_crosses();
    machines_cross();
    run_jobs(rt, alloc, jobs, workers, gate)
}
