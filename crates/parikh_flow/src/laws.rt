//! Laws of counts, each stated by a function that does nothing.
ghost use Rattle.std.specs.Prelude.{◌≡◌, ℕ, suc, ℤ, pos, ◌+◌, ◌≤◌, ◌≤ℤ◌, Option, IfSome, List, length, map, All};
ghost use Rattle.std.specs.List.{range_with_len};
ghost use Rattle.sv_linear.specs.Rows.{NameUnknowns};
ghost use Rattle.sv_linear.specs.declared.row.Row.{Row};
ghost use Rattle.farkas_check.specs.Systems.{Meets, Solves, rows_of};
ghost use Rattle.farkas_check.specs.Cuts.{IsNetWithin};
ghost use Rattle.search_hits.specs.Hits.{IsHit, HaveRegisters, characters};
ghost use Rattle.parikh_flow.specs.Rows.{IsSystemOf};
ghost use Rattle.parikh_flow.specs.Solutions.{HaveFlowsAt, HaveJoinedCounts, AreRunValues};
ghost use Rattle.machine_core.specs.Graphs.{IsRunOf};
ghost use Rattle.machine_core.specs.declared.run.Run.{Run};
ghost use Rattle.parikh_flow.specs.Counts.{total_count};
ghost use Rattle.parikh_flow.specs.Balance.{AreBalanced};
ghost use Rattle.parikh_flow.specs.Flows.{IsFlow};
ghost use Rattle.parikh_flow.specs.Nets.{AreJoined, AreApart};

use farkas_check::System;
use machine_core::Explicit;

/// Each run has counts, one for each character and one for its end, and counts are those of some run
/// exactly where they balance and are joined (Euler), however large they are.
pub fn runs_have_flows(machine: &Explicit)
    ensures some { (run : Run ℕ) → IsRunOf machine.now run → (f : List ℕ) × IsFlow machine.now run f }
    ensures run { (run : Run ℕ) (f : List ℕ) → IsFlow machine.now run f → IsRunOf machine.now run }
    ensures balanced { (run : Run ℕ) (f : List ℕ) → IsFlow machine.now run f → AreBalanced machine.now f }
    ensures joined { (run : Run ℕ) (f : List ℕ) → IsFlow machine.now run f → AreJoined machine.now f }
    ensures total { (run : Run ℕ) (f : List ℕ) → IsFlow machine.now run f → total_count f ≡ suc (length run.word) }
    ensures flow { (f : List ℕ) → AreBalanced machine.now f → AreJoined machine.now f → (run : Run ℕ) × IsFlow machine.now run f }
{}

/// Counts that lie apart are no counts of a run, for they aren't joined.
pub fn apart_is_not_joined(machine: &Explicit)
    ensures { (f set : List ℕ) → AreApart machine.now f set → AreJoined machine.now f → ⊥ }
{}

/// Solutions of the system of machines and rows and their hits are the same.
///
/// The counts in a solution balance and are joined, and so are those of runs; any runs with these counts
/// are a hit with the first unknowns. And each hit has counts that solve the system, with the row for
/// reach where its words aren't longer together.
pub fn solutions_are_hits(machines: &[Explicit], system: &System)
    ensures counts { (integers registers : ℕ) (rows : List Row) (reach : Option ℕ) (x : ℕ → ℤ)
        → IsSystemOf machines.now integers registers rows reach system.now → Solves x (rows_of system.now) system.now.nets
        → HaveJoinedCounts x (integers + registers) machines.now }
    ensures flows { (integers registers : ℕ) (rows : List Row) (reach : Option ℕ) (x : ℕ → ℤ)
        → IsSystemOf machines.now integers registers rows reach system.now → Solves x (rows_of system.now) system.now.nets
        → (runs : List (Run ℕ)) × HaveFlowsAt x (integers + registers) machines.now runs }
    ensures hit { (integers registers : ℕ) (rows : List Row) (reach : Option ℕ) (x : ℕ → ℤ) (runs : List (Run ℕ))
        → IsSystemOf machines.now integers registers rows reach system.now → NameUnknowns (integers + registers) rows
        → HaveRegisters registers machines.now
        → Solves x (rows_of system.now) system.now.nets → HaveFlowsAt x (integers + registers) machines.now runs
        → IsHit machines.now registers integers rows runs (map x (range_with_len 0 integers)) × IfSome reach (λ most. characters runs ≤ most) }
    ensures solution { (registers : ℕ) (rows : List Row) (reach : Option ℕ) (runs : List (Run ℕ)) (numbers : List ℤ)
        → IsSystemOf machines.now (length numbers) registers rows reach system.now → NameUnknowns (length numbers + registers) rows
        → HaveRegisters registers machines.now
        → IsHit machines.now registers (length numbers) rows runs numbers → IfSome reach (λ most. characters runs ≤ most)
        → (x : ℕ → ℤ) × AreRunValues x machines.now registers runs numbers × Solves x (rows_of system.now) system.now.nets }
{}

/// The nets of the system of machines and rows name unknowns of the system and states of their own.
pub fn nets_are_within(machines: &[Explicit], system: &System)
    ensures { (integers registers : ℕ) (rows : List Row) (reach : Option ℕ) → IsSystemOf machines.now integers registers rows reach system.now
        → All (IsNetWithin system.now.unknowns) system.now.nets }
{}

/// Where its rows are met, the system of machines and rows counts no edge below 0.
pub fn systems_count_edges(machines: &[Explicit], system: &System)
    ensures { (integers registers : ℕ) (rows : List Row) (reach : Option ℕ) (x : ℕ → ℤ)
        → IsSystemOf machines.now integers registers rows reach system.now → All (Meets x) (rows_of system.now)
        → All (λ net. All (λ e. pos 0 ≤ℤ x e.unknown) net.edges) system.now.nets }
{}
