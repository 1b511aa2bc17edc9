//! Laws of machines, each stated by a function that does nothing.
ghost use Rattle.std.specs.Prelude.{◌≡◌, ℕ, ◌+◌, ◌≤◌, List, length, All};
ghost use Rattle.sv_word.specs.Words.{IsWord};
ghost use Rattle.machine_core.specs.Language.{RunsFrom, IsReached};
ghost use Rattle.machine_core.specs.Runs.{IsRun, run_total};
ghost use Rattle.machine_core.specs.RunBounds.{RunsWithin, PathsWithin};
ghost use Rattle.machine_core.specs.Edges.{edges_top, ends_top};
ghost use Rattle.machine_core.specs.Graphs.{graph_top, GraphRunsWithin, GraphPathsWithin};
ghost use Rattle.machine_core.specs.declared.run.Run.{Run};

use crate::explicit::Explicit;
use crate::machine::Machine;

/// The language of a machine is that of its runs: the word and the total of a run are a pair of the
/// language, and each pair has a run. A pair is a word and one number for each register.
pub fn language_of_runs<M: Machine>(machine: &M)
    ensures run { (run : Run M.St)
        → IsRun (M.ends_with machine.now) (M.steps_to machine.now) (M.first machine.now) run
        → RunsFrom (M.ends_with machine.now) (M.steps_to machine.now) (M.first machine.now) run.word (run_total run) }
    ensures pair { (word cost : List ℕ)
        → RunsFrom (M.ends_with machine.now) (M.steps_to machine.now) (M.first machine.now) word cost
        → (run : Run M.St) × IsRun (M.ends_with machine.now) (M.steps_to machine.now) (M.first machine.now) run
        × (run.word ≡ word) × (run_total run ≡ cost) }
    ensures word { (word cost : List ℕ)
        → RunsFrom (M.ends_with machine.now) (M.steps_to machine.now) (M.first machine.now) word cost
        → IsWord word }
    ensures width { (word cost : List ℕ)
        → RunsFrom (M.ends_with machine.now) (M.steps_to machine.now) (M.first machine.now) word cost
        → length cost ≡ M.width machine.now }
{}

/// A run goes through states of the machine alone, and each of its costs has one number for each
/// register, as [`total`](crate::total) asks. What is reached from the first state is a state.
pub fn runs_are_formed<M: Machine>(machine: &M)
    ensures states { (run : Run M.St)
        → IsRun (M.ends_with machine.now) (M.steps_to machine.now) (M.first machine.now) run
        → All (M.is_state machine.now) run.states }
    ensures costs { (run : Run M.St)
        → IsRun (M.ends_with machine.now) (M.steps_to machine.now) (M.first machine.now) run
        → All (λ k. length k ≡ M.width machine.now) run.costs × (length run.last ≡ M.width machine.now) }
    ensures reached { (s : M.St)
        → IsReached (M.steps_to machine.now) (M.first machine.now) s → M.is_state machine.now s }
{}

/// The greatest cost of a step or an end bounds what runs and paths of n characters cost at each
/// register: n + 1 times for a run, n times for a path.
pub fn runs_bounded_by_top<M: Machine>(machine: &M)
    ensures runs { (register : ℕ) → RunsWithin (M.is_state machine.now) (M.ends_with machine.now)
        (M.steps_to machine.now) register (M.top machine.now) (M.top machine.now) }
    ensures paths { (register : ℕ) → PathsWithin (M.is_state machine.now) (M.width machine.now)
        (M.steps_to machine.now) register (M.top machine.now) 0 }
{}

/// With listed edges, a run costs at most the greatest edge for each character and the greatest end.
/// The other way round, what bounds a path of one character and an end bounds the greatest cost.
pub fn listed_costs_are_bounded(machine: &Explicit)
    ensures runs { (register : ℕ)
        → GraphRunsWithin machine.now register (edges_top machine.now.edges) (ends_top machine.now.ends) }
    ensures paths { (register : ℕ) → GraphPathsWithin machine.now register (edges_top machine.now.edges) 0 }
    ensures top { (slope base : ℕ → ℕ) (bound : ℕ)
        → ((k : ℕ) → GraphPathsWithin machine.now k (slope k) (base k))
        → ((k : ℕ) → GraphRunsWithin machine.now k (slope k) (base k))
        → ((k : ℕ) → slope k + base k ≤ bound) → graph_top machine.now ≤ bound }
{}
