ghost use Rattle.std.specs.Prelude.{◌≡◌, ◌⊎◌, ◌≤◌};
ghost use Rattle.std.specs.Process.{exit_status};
ghost use Rattle.smt_session.specs.Codes.{code_of};

use crate::log::ReplyLog;
use std::process::ExitCode;
use sv_io::SinkFault;

/// How a run ended.
#[derive(Clone, Copy, PartialEq, Eq)]
pub enum Status {
    /// The script was answered to its end or to an answered `exit`, and no reply is an error. Or a generated one
    /// was, and the line that sums up its verdicts was written.
    Answered,
    /// The script was answered so, or to a syntax fault, and some reply is an error.
    ErrorAnswered,
    /// The words aren't in the written form.
    WrongWords,
    /// The source failed.
    ReadFailed,
    /// The sink failed.
    WriteFailed,
    /// There was no memory.
    NoMemory,
}

impl Status {
    /// The status of the process.
    pub fn code(self) -> u8
        ensures code { result ≡ code_of self }
        ensures most { result ≤ 5 }
    {
        match self {
            Status::Answered => 0,
            Status::ErrorAnswered => 1,
            Status::WrongWords => 2,
            Status::ReadFailed => 3,
            Status::WriteFailed => 4,
            Status::NoMemory => 5,
        }
    }

    /// The exit code with that status, which `main` returns.
    pub fn exit_code(self) -> ExitCode
        ensures { exit_status result ≡ code_of self }
    {
        ExitCode::from(self.code())
    }

    /// How a run ends at a fault of the sink.
    pub fn of_fault(fault: SinkFault) -> Status
        ensures either { (result ≡ Status.WriteFailed) ⊎ (result ≡ Status.NoMemory) }
        ensures failed { result ≡ Status.WriteFailed → fault ≡ SinkFault.Failed }
        ensures memory { result ≡ Status.NoMemory → fault ≡ SinkFault.Failed → ⊥ }
    {
        match fault {
            SinkFault::Failed => Status::WriteFailed,
            SinkFault::Memory(_) => Status::NoMemory,
        }
    }
}

/// A run: how it ended, and the replies.
#[derive(Drop)]
pub struct ProgramRun {
    pub status: Status,
    pub log: ReplyLog,
}
