/// A piece of work that any thread may do.
pub trait Job {
    /// What a job gives back. It crosses from the thread that did the job.
    type Out: Send + Drop;

    /// Which outcomes a job may have.
    ghost Yields: { Self → Self.Out → Type 0 };

    /// Does the job. It may be done again, and may then have another outcome.
    fn work(&self) -> Self::Out
        ensures { Yields self.now result };
}
