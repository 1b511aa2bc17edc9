ghost use Rattle.std.specs.Prelude.{IfOk};
ghost use Rattle.leaf_solve.specs.Questions.{IsAsked};
ghost use Rattle.leaf_solve.specs.Answers.{IsLeafAnswer, IsDecided, MustDecideLeaf};

use crate::closing::Closing;
use crate::leaf_answer::LeafAnswer;
use crate::question::Question;
use crate::rows::by_rows;
use crate::shortest::{Shortest, shortest_runs};
use crate::words::by_words;
use machine_core::Explicit;
use search_hits::Region;
use std::alloc::{AllocError, Global};
use sv_linear::Row;

/// Runs of the machines, one of each, and whole numbers that together meet the rows, with words of at most
/// `reach` characters together; or why there are none, or none that was found.
///
/// The unknowns of `rows` are the whole numbers, as many as `integers` says, and then the machines'
/// registers, as many as `region` has sides for. Where the solver gives up the region is searched; where
/// `small` is true it holds every hit, and a hit or a closing is answered. Without rows the machines are
/// searched for shortest words, in time linear in them; with rows the cost is that of `solve` and `search`.
pub fn leaf(
    alloc: Global,
    machines: &[Explicit],
    integers: u32,
    rows: &[Row],
    region: &Region,
    small: bool,
    reach: u64,
) -> Result<LeafAnswer, AllocError>
    requires { IsAsked machines.now integers rows.now region.now small reach }
    ensures answer { IfOk result (IsLeafAnswer machines.now integers rows.now region.now small reach) }
    ensures decided { MustDecideLeaf machines.now rows.now small reach → IfOk result IsDecided }
{
    let runs = match shortest_runs(alloc, machines)? {
        Shortest::Empty(place) => return Ok(LeafAnswer::Closed(Closing::Empty(place))),
        Shortest::Runs(runs) => runs,
    };
    let question = Question {
        machines,
        integers,
        rows,
        region,
        small,
        reach,
    };
    if rows.is_empty() {
        by_words(alloc, &question, runs)
    } else {
        by_rows(alloc, &question)
    }
}
