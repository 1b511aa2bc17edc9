ghost use Rattle.std.specs.Prelude.{◌≡◌, ℤ, ℕ, false, List, length, IfOk, MatchOption};
ghost use Rattle.machine_core.specs.Costs.{zeros};
ghost use Rattle.machine_core.specs.Edges.{EndsAt, StepsBy};
ghost use Rattle.machine_core.specs.Graphs.{Accepts, IsRunOf};
ghost use Rattle.machine_core.specs.Language.{SameRuns};
ghost use Rattle.machine_core.specs.declared.run.Run.{Run};
ghost use Rattle.trim_search.specs.Lifted.{IsLift};
ghost use Rattle.trim_search.specs.Shortest.{IsShortestRun};
ghost use Rattle.search_hits.specs.Regions.{IsQuestion, IsHitWithin, IsShortHit};
ghost use Rattle.box_layers.specs.Layers.{layer, uppers_of, AreGoodTotals, LayerStep, LayerEnd};
ghost use Rattle.box_layers.specs.Cuts.{IsRunOfAll};
ghost use Rattle.box_layers.specs.declared.layer.Layer.{Layer};

use crate::by_marks::{Told, by_marks};
use crate::layer_table::LayerTable;
use crate::places::TotalPlaces;
use box_layers::{Layer, Layers, hit_of};
use machine_core::{Explicit, Run};
use search_hits::{Hit, Region};
use std::alloc::{AllocError, Global};
use sv_linear::Row;
use trim_search::{BuildFault, Built, explore_with, lifted_runs_are_runs, shortest};

/// Runs of all machines and whole numbers, as many as `integers` says, that lie in the region and meet the
/// rows; `None` exactly where there are none.
///
/// The unknowns of the rows are the numbers and then the registers. A region that isn't marked empty has
/// a side for each of them, and each row can be added up in it within 128 bits. The words of a hit have
/// together at most as many characters as states of the largest machine, points of the region and machines
/// multiplied. Where no numbers and totals of the region meet the rows it looks at no machine. Where there is one
/// register, time is that of the edges of all machines and a word for each 64 totals, of the numbers for each total
/// that is reached, up to the first that has some, and of a way back; memory that of a bit for each state of the
/// largest machine, total and machine, up to 128 MB. Else it explores the machines in turn, with what is spent at the
/// registers: each state with each totals once, whatever the numbers, and looks for numbers once for the totals that
/// the runs end with. What was seen is found by its place in a table, in constant time, up to 4,194,304 places, and by
/// order beyond them.
pub fn search(
    alloc: Global,
    machines: &[Explicit],
    integers: u32,
    rows: &[Row],
    region: &Region,
) -> Result<Option<Hit>, AllocError>
    requires { region.now.empty ≡ false → IsQuestion machines.now integers rows.now region.now }
    ensures { IfOk result (λ o. MatchOption o
        ((runs : List (Run ℕ)) (numbers : List ℤ) → IsHitWithin machines.now integers rows.now region.now runs numbers → ⊥)
        (λ hit. IsShortHit machines.now integers rows.now region.now hit.runs hit.integers)) }
{
    if region.empty {
        return Ok(None);
    }
    let layers = Layers {
        machines,
        integers,
        rows,
        region,
    };
    if !layers.has_point(alloc)? {
        return Ok(None);
    }
    if region.registers.len() == 1 {
        match by_marks(alloc, &layers)? {
            Told::Nothing => return Ok(None),
            Told::Found(hit) => return Ok(Some(hit)),
            Told::Unknown => {}
        }
    }
    by_layers(alloc, &layers)
}

// The same by all layers.
fn by_layers(alloc: Global, layers: &Layers) -> Result<Option<Hit>, AllocError>
    requires { layers.now.region.now.empty ≡ false }
    ensures { IfOk result (λ o. MatchOption o
        ((runs : List (Run ℕ)) (numbers : List ℤ) → IsHitWithin layers.now.machines.now layers.now.integers layers.now.rows.now layers.now.region.now runs numbers → ⊥)
        (λ hit. IsShortHit layers.now.machines.now layers.now.integers layers.now.rows.now layers.now.region.now hit.runs hit.integers)) }
{
    let built = explore_layers(alloc, layers)?;
    shortest_hit(alloc, layers, &built)
}

// The hit of a shortest run of the layers that are reached; `None` exactly where there is none.
fn shortest_hit(
    alloc: Global,
    layers: &Layers,
    built: &Built<Layer>,
) -> Result<Option<Hit>, AllocError>
    requires some { layers.now.region.now.empty ≡ false }
    requires runs { SameRuns
        (LayerEnd layers.now.machines.now (uppers_of layers.now.region.now) (AreGoodTotals layers.now.rows.now layers.now.region.now))
        (LayerStep layers.now.machines.now (uppers_of layers.now.region.now) (AreGoodTotals layers.now.rows.now layers.now.region.now))
        (layer 0 0 (zeros (length layers.now.region.now.registers)))
        (EndsAt built.now.machine.ends) (StepsBy built.now.machine.edges) 0 }
    requires lifts { (run : Run ℕ) (lifted : Run Layer) → IsRunOf built.now.machine run → IsLift built.now.names run lifted
        → IsRunOfAll layers.now.machines.now layers.now.rows.now layers.now.region.now lifted }
    ensures { IfOk result (λ o. MatchOption o
        ((runs : List (Run ℕ)) (numbers : List ℤ) → IsHitWithin layers.now.machines.now layers.now.integers layers.now.rows.now layers.now.region.now runs numbers → ⊥)
        (λ hit. IsShortHit layers.now.machines.now layers.now.integers layers.now.rows.now layers.now.region.now hit.runs hit.integers)) }
{
    let Some(run) = shortest_run(alloc, built)? else {
        return Ok(None);
    };
    Ok(Some(hit_of(alloc, layers, &run)?))
}

// A shortest run of the layers that are reached; `None` exactly where there is none.
fn shortest_run(alloc: Global, built: &Built<Layer>) -> Result<Option<Run<Layer>>, AllocError>
    ensures { IfOk result (λ o. MatchOption o
        ((word cost : List ℕ) → Accepts built.now.machine word cost → ⊥)
        (λ run. (numbered : Run ℕ) × IsShortestRun built.now.machine numbered × IsLift built.now.names numbered run)) }
{
    let Some(numbered) = shortest(alloc, &built.machine)? else {
        return Ok(None);
    };
    Ok(Some(built.lift(alloc, &numbered)?))
}

// All layers that are reached.
fn explore_layers(alloc: Global, layers: &Layers) -> Result<Built<Layer>, AllocError>
    ensures runs { IfOk result (λ b. SameRuns
        (LayerEnd layers.now.machines.now (uppers_of layers.now.region.now) (AreGoodTotals layers.now.rows.now layers.now.region.now))
        (LayerStep layers.now.machines.now (uppers_of layers.now.region.now) (AreGoodTotals layers.now.rows.now layers.now.region.now))
        (layer 0 0 (zeros (length layers.now.region.now.registers)))
        (EndsAt b.machine.ends) (StepsBy b.machine.edges) 0) }
    ensures lifts { IfOk result (λ b. (run : Run ℕ) (lifted : Run Layer) → IsRunOf b.machine run → IsLift b.names run lifted
        → IsRunOfAll layers.now.machines.now layers.now.rows.now layers.now.region.now lifted) }
{
    let sides = layers.region.registers.as_slice();
    let places = TotalPlaces::of(alloc, layers.machines, sides)?;
    let table = LayerTable::new(alloc, places);
    match explore_with(alloc, layers, table, u64::MAX) {
        Ok(built) => {
            lifted_runs_are_runs(layers, &built);
            Ok(built)
        }
        // Only a limit below 2^32 refuses a number of states.
        Err(BuildFault::States(_)) => unreachable!(),
        Err(BuildFault::Memory(e)) => Err(e),
    }
}
