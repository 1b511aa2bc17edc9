ghost use Rattle.std.specs.Prelude.{◌≡◌, ℕ, ◌+◌, ◌<◌, ◌≤◌, length, vec_len, slice_index_or, IfOk};
ghost use Rattle.std.specs.List.{AllZip};
ghost use Rattle.par_phase.specs.Shares.{share_of};

use crate::gate::Gate;
use crate::job::Job;
use crate::shares::{share_count, share_range};
use std::alloc::{AllocError, Global};
use std::thread;
use std::thread::Threads;

/// The outcomes of the jobs, in their order.
///
/// `workers` is how many shares the jobs are cut into at the most. Each share is done by one
/// thread, its jobs in order, each once and announced at `gate` first: no clause says so, tests do.
/// The only error is want of memory; some jobs may then not have been done.
pub fn run_jobs<R: Threads + Sync, J: Job + Sync, G: Gate + Sync>(
    rt: &R,
    alloc: Global,
    jobs: &[J],
    workers: u32,
    gate: &G,
) -> Result<Vec<J::Out>, AllocError>
    requires { 1 ≤ workers }
    ensures { IfOk result (λ outcomes. AllZip J.Yields jobs.now outcomes.items) }
{
    let shares = share_count(jobs.len(), workers);
    let share = |n: usize| -> Result<Vec<J::Out>, AllocError>
        requires { n < shares }
        ensures { IfOk result (λ outcomes. AllZip J.Yields (share_of jobs.entry.now shares n) outcomes.items) }
    { outcomes_of(alloc, jobs, shares, n, gate) };
    let parts = thread::map_indices(rt, alloc, shares, &share)?;
    join_outcomes(alloc, jobs, parts)
}

/// Does the jobs of one share.
fn outcomes_of<J: Job, G: Gate>(
    alloc: Global,
    jobs: &[J],
    shares: usize,
    share: usize,
    gate: &G,
) -> Result<Vec<J::Out>, AllocError>
    requires { share < shares }
    ensures { IfOk result (λ outcomes. AllZip J.Yields (share_of jobs.now shares share) outcomes.items) }
{
    let range = share_range(jobs.len(), shares, share);
    let start = range.start;
    let mine = &jobs[range];
    let mut outcomes = Vec::with_capacity(alloc, mine.len())?;
    for (offset, job) in mine.iter().enumerate() {
        gate.arrive((start + offset) as u64);
        outcomes.push(job.work())?;
    }
    Ok(outcomes)
}

/// The outcomes of all shares, one share after another.
fn join_outcomes<J: Job>(
    alloc: Global,
    jobs: &[J],
    parts: Vec<Result<Vec<J::Out>, AllocError>>,
) -> Result<Vec<J::Out>, AllocError>
    requires whole { vec_len parts ≡ 0 → length jobs.now ≡ 0 }
    requires each { (n : ℕ) (d : _) → n < vec_len parts → IfOk (slice_index_or parts.items n d) (λ outcomes. AllZip J.Yields (share_of jobs.now (vec_len parts) n) outcomes.items) }
    ensures { IfOk result (λ outcomes. AllZip J.Yields jobs.now outcomes.items) }
{
    let mut all = Vec::with_capacity(alloc, jobs.len())?;
    for part in parts {
        let mut outcomes = part?;
        all.append(&mut outcomes)?;
    }
    Ok(all)
}
