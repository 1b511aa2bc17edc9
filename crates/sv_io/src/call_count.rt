ghost use Rattle.std.specs.Prelude.{◌≡◌};
ghost use Rattle.sv_io.specs.Counts.{raised};
ghost use Rattle.sv_io.specs.Memory.{is_failing};

/// How many calls were made, up to the last `u64`, and the numbers of those that fail.
#[derive(Drop)]
pub(crate) struct CallCount {
    pub(crate) failing: Vec<u64>,
    pub(crate) made: u64,
}

impl CallCount {
    /// No call was made.
    pub(crate) fn new(failing: Vec<u64>) -> CallCount
        ensures { result ≡ record { failing = failing; made = 0 } }
    {
        CallCount { failing, made: 0 }
    }

    /// Counts a call, and says whether it is one of those that fail.
    pub(crate) fn fails(&mut self) -> bool
        ensures fails { result ≡ is_failing self.old.failing.items self.old.made }
        ensures counted { self.new ≡ record self.old { made = raised self.old.made } }
    {
        let fails = self.failing.contains(&self.made);
        self.made = self.made.saturating_add(1);
        fails
    }
}
