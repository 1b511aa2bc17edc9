ghost use denote.Param.Send.{IsSend, IsSync};
ghost use Rattle.cube_search.specs.contracts.answer.CubeAnswer.{the_row as answer_row};

use crate::reason::OpenReason;
use sv_terms::Model;

/// How many leaves were closed, by what closed them. The counts end at 2^64 - 1.
#[derive(Clone, Copy)]
pub struct Refutation {
    /// Where a machine has no run.
    pub empty: u64,
    /// Where a tree closes the system.
    pub trees: u64,
    /// Where the box was searched.
    pub boxes: u64,
}

/// The answer for one cube.
#[derive(Drop)]
pub enum CubeAnswer {
    /// Values under which the cube holds.
    Sat(Model),
    /// No values make it hold.
    Unsat(Refutation),
    /// Why it is left open.
    Open(OpenReason),
}

/// An answer may go to another thread, and threads may share it.
pub fn answer_crosses()
    ensures send { IsSend answer_row }
    ensures sync { IsSync answer_row }
{}
