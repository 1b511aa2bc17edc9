ghost use Rattle.std.specs.Prelude.{◌≡◌, ◌≤◌, ◌<◌, ◌++◌, ℕ, Bool, true, length, take, is_ok, IfOk, IsErrOf, MatchResult};
ghost use Rattle.sv_io.specs.Counts.{Rose, HasCause};
ghost use Rattle.sv_io.specs.Histories.{Output};

use crate::Failed;
use std::alloc::AllocError;
use thiserror::Error;

/// Why a write took nothing.
#[derive(Clone, Copy, Debug, Error, PartialEq, Eq)]
pub enum SinkFault {
    /// It failed, and the sink's count of faults rose.
    #[error("the bytes couldn't be written")]
    Failed,
    /// There was no memory for the bytes.
    #[error("out of memory")]
    Memory(AllocError),
}

/// Where the bytes of replies go.
pub trait Sink {
    /// What was written: the bytes that the writes took, and those of them that were sent, which is all that had been
    /// taken when a flush last answered Ok. Every sink tells it.
    ghost output: { Self → Output };

    /// A call may follow: none has failed so far.
    ghost goes_on: { Self → Bool };

    /// How many calls failed. It stays at the last value of a `u64`.
    ghost faults: { Self → ℕ };

    /// Takes bytes from the front of `piece`, and answers how many: at least 1, and maybe not all.
    /// After an error nothing of the piece was taken, and no call may follow.
    fn write(&mut self, piece: &[u8]) -> Result<usize, SinkFault>
        requires piece { 0 < length piece.now }
        requires goes_on { goes_on self.old ≡ true }
        ensures least { IfOk result (λ count. 1 ≤ count) }
        ensures most { IfOk result (λ count. count ≤ length piece.now) }
        ensures taken { MatchResult result (λ count. (output self.new).taken ≡ (output self.old).taken ++ take count piece.now) (λ _. (output self.new).taken ≡ (output self.old).taken) }
        ensures sent { (output self.new).sent ≡ (output self.old).sent }
        ensures goes_on { goes_on self.new ≡ is_ok result }
        ensures later { faults self.old ≤ faults self.new }
        ensures failed { IsErrOf result SinkFault.Failed → Rose (faults self.old) (faults self.new) };

    /// Sends on what was taken and is still held back. After an error no call may follow.
    fn flush(&mut self) -> Result<(), Failed>
        requires { goes_on self.old ≡ true }
        ensures taken { (output self.new).taken ≡ (output self.old).taken }
        ensures sent { MatchResult result (λ _. (output self.new).sent ≡ (output self.old).taken) (λ _. (output self.new).sent ≡ (output self.old).sent) }
        ensures goes_on { goes_on self.new ≡ is_ok result }
        ensures cause { HasCause (faults self.old) (faults self.new) result };
}
