/// Is told of each job by the thread that is about to do it, before the job's work begins.
///
/// A test can hold a job here, so as to see that two jobs are under way at once.
pub trait Gate {
    /// `job` is the job's place in the list that `run_jobs` was given.
    fn arrive(&self, job: u64);
}

/// The gate that holds no job.
#[derive(Clone, Copy)]
pub struct Free;

impl Gate for Free {
    fn arrive(&self, _job: u64) {}
}
