// Shares of neighbouring jobs.
ghost use Rattle.std.specs.Prelude.{◌≡◌, ◌+◌, ◌/◌, ◌<◌, ◌≤◌, min};
ghost use Rattle.par_phase.specs.Shares.{first_of};

use std::ops::Range;

/// How many shares there are: one for each worker, and none that would be empty.
pub(crate) fn share_count(jobs: usize, workers: u32) -> usize
    ensures { result ≡ min jobs workers }
{
    jobs.min(workers as usize)
}

/// The places of the jobs of a share, where so many jobs are cut into so many shares.
pub(crate) fn share_range(jobs: usize, shares: usize, share: usize) -> Range<usize>
    requires { share < shares }
    ensures start { result.start ≡ first_of jobs shares share }
    ensures end { result.end ≡ first_of jobs shares (share + 1) }
    ensures inside { result.end ≤ jobs }
    ensures at_least { result.start + jobs / shares ≤ result.end }
    ensures at_most { result.end ≤ result.start + jobs / shares + 1 }
{
    let (least, longer) = (jobs / shares, jobs % shares);
    let start = share * least + share.min(longer);
    start..start + least + usize::from(share < longer)
}
