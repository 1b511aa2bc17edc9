//! Laws of slices and pre-images, each stated by a function that does nothing.
ghost use Rattle.std.specs.Prelude.{ℕ, ◌<◌, ◌+◌, ◌*◌, ◌↔◌, List, Some};
ghost use Rattle.machine_core.specs.Language.{RunsFrom};
ghost use Rattle.machine_core.specs.Runs.{IsRun};
ghost use Rattle.machine_core.specs.declared.run.Run.{Run};
ghost use Rattle.pre_image.specs.Lifts.{IsJoined};
ghost use Rattle.machine_core.specs.Edges.{StepsBy};
ghost use Rattle.machine_core.specs.Graphs.{GraphRunsWithin, GraphPathsWithin};
ghost use Rattle.machine_core.specs.RunBounds.{RunsWithin, PathsWithin};
ghost use Rattle.pre_image.specs.Slices.{SliceEnds};
ghost use Rattle.sv_terms.specs.Transduction.{WritesWithin};
ghost use Rattle.pre_image.specs.PreImages.{IsPair, PreEnds, PreSteps, Precedes};

use crate::pre::Pre;
use crate::slice::Slice;

/// What bounds the runs and the paths of a machine bounds those of each of its slices.
pub fn slice_costs_are_bounded(slice: &Slice)
    ensures runs { (register slope base : ℕ)
        → GraphRunsWithin slice.now.target.now register slope base
        → GraphPathsWithin slice.now.target.now register slope base
        → RunsWithin (λ s. s < slice.now.target.now.states)
        (SliceEnds slice.now.target.now.registers slice.now.target.now.ends slice.now.to)
        (StepsBy slice.now.target.now.edges) register slope base }
{}

/// A run of the slice to a state between, and one from there on, joined by
/// [`lift_concat`](crate::lift_concat), are a run of the slice.
pub fn joined_runs_are_runs(slice: &Slice)
    ensures { (t : ℕ) (first second whole : Run ℕ)
        → IsRun (SliceEnds slice.now.target.now.registers slice.now.target.now.ends (Some t)) (StepsBy slice.now.target.now.edges) slice.now.from first
        → IsRun (SliceEnds slice.now.target.now.registers slice.now.target.now.ends slice.now.to) (StepsBy slice.now.target.now.edges) t second
        → IsJoined first second whole
        → IsRun (SliceEnds slice.now.target.now.registers slice.now.target.now.ends slice.now.to) (StepsBy slice.now.target.now.edges) slice.now.from whole }
{}

/// A word is in the pre-image at a cost exactly where the transducer may write, for this word, some
/// word that the target has at that cost.
pub fn pre_is_exact(pre: &Pre)
    ensures { (word cost : List ℕ)
        → RunsFrom (PreEnds pre.now.through.now pre.now.target.now) (PreSteps pre.now.through.now pre.now.target.now) (pre.now.through.now.start, 0) word cost
        ↔ Precedes pre.now.through.now pre.now.target.now word cost }
{}

/// Where the transducer writes at most `m * n + e` characters on n, and the target's runs and paths
/// cost at most `slope * n + base`, those of the pre-image cost at most
/// `slope * m * n + (slope * e + base)`.
pub fn pre_costs_are_bounded(pre: &Pre)
    ensures runs { (register slope base m e : ℕ)
        → WritesWithin pre.now.through.now (λ n. m * n + e)
        → GraphRunsWithin pre.now.target.now register slope base
        → RunsWithin (IsPair pre.now.through.now pre.now.target.now)
        (PreEnds pre.now.through.now pre.now.target.now)
        (PreSteps pre.now.through.now pre.now.target.now) register (slope * m) (slope * e + base) }
    ensures paths { (register slope base m e : ℕ)
        → WritesWithin pre.now.through.now (λ n. m * n + e)
        → GraphPathsWithin pre.now.target.now register slope base
        → PathsWithin (IsPair pre.now.through.now pre.now.target.now) pre.now.target.now.registers
        (PreSteps pre.now.through.now pre.now.target.now) register (slope * m) (slope * e + base) }
{}
