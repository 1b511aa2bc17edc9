//! The numbers of the unknowns of machines.
ghost use Rattle.std.specs.Prelude.{◌≡◌, ◌+◌, ◌<◌, ◌≤◌, ◌^◌, length, MatchOption};
ghost use Rattle.parikh_flow.specs.Counts.{size_of};
ghost use Rattle.parikh_flow.specs.Rows.{unknowns_after};

use machine_core::Explicit;

/// The unknown of a machine's first end.
pub fn end_base(machine: &Explicit, base: u32) -> u32
    requires { base + size_of machine.now < 2 ^ 32 }
    ensures { result ≡ base + length machine.now.edges }
{
    base + machine.edges().len() as u32
}

/// The first unknown behind those of a machine.
pub fn next_base(machine: &Explicit, base: u32) -> u32
    requires { base + size_of machine.now < 2 ^ 32 }
    ensures { result ≡ base + size_of machine.now }
{
    end_base(machine, base) + machine.finals().len() as u32
}

// The same; `None` where no `u32` counts them.
fn checked_next(machine: &Explicit, base: u32) -> Option<u32>
    ensures { MatchOption result (2 ^ 32 ≤ base + size_of machine.now) (λ next. next ≡ base + size_of machine.now) }
{
    let edges = u32::try_from(machine.edges().len()).ok()?;
    let ends = u32::try_from(machine.finals().len()).ok()?;
    base.checked_add(edges)?.checked_add(ends)
}

/// The first unknown behind those of all machines; `None` where no `u32` counts them.
pub fn unknowns_from(machines: &[Explicit], base: u32) -> Option<u32>
    ensures { MatchOption result (2 ^ 32 ≤ unknowns_after base machines.now) (λ next. next ≡ unknowns_after base machines.now) }
{
    let mut next = base;
    for machine in machines {
        let Some(after) = checked_next(machine, next) else {
            return None;
        };
        next = after;
    }
    Some(next)
}
