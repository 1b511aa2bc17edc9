//! Laws of hits and of short words, each stated by a function that does nothing.
ghost use Rattle.std.specs.Prelude.{ℕ, ℤ, ◌<◌, List, length};
ghost use Rattle.sv_linear.specs.declared.row.Row.{Row};
ghost use Rattle.machine_core.specs.Graphs.{Accepts};
ghost use Rattle.machine_core.specs.declared.graph.Graph.{Graph};
ghost use Rattle.machine_core.specs.declared.run.Run.{Run};
ghost use Rattle.search_hits.specs.Hits.{HaveRegisters};
ghost use Rattle.search_hits.specs.Regions.{IsHitWithin, IsShortHit};

use machine_core::Explicit;
use search_hits::Region;

/// A region that holds a hit holds one with the same whole numbers whose words are short together.
pub fn hits_are_short(machines: &[Explicit], region: &Region)
    requires { HaveRegisters (length region.now.registers) machines.now }
    ensures { (integers : ℕ) (rows : List Row) (runs : List (Run ℕ)) (numbers : List ℤ)
        → IsHitWithin machines.now integers rows region.now runs numbers
        → (short : List (Run ℕ)) × IsShortHit machines.now integers rows region.now short numbers }
{}

/// A machine that has a word has one with fewer characters than states.
pub fn words_are_short()
    ensures { (m : Graph) (word cost : List ℕ) → Accepts m word cost
        → (short less : List ℕ) × Accepts m short less × (length short < m.states) }
{}
