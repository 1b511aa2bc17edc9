ghost use Rattle.std.specs.Prelude.{◌≡◌, ◌<◌, IfOk};
ghost use Rattle.machine_core.specs.Edges.{StepsBy, listed_top};
ghost use Rattle.machine_core.specs.Counts.{at_most-below};
ghost use Rattle.machine_core.specs.EdgeLaws.{step_target, step_character, step_cost};
ghost use Rattle.pre_image.specs.Slices.{SliceEnds, stop_costs};
ghost use Rattle.pre_image.specs.SliceLaws.{slice_end_cost};

use machine_core::{Cost, Explicit, Machine, Move};
use std::alloc::{AllocError, Global};
use sv_list::Items;

/// The runs of a machine from the state `from` to the state `to` at no end cost, or where no such
/// state is given to the machine's own ends, at their costs.
///
/// It is explored state by state, and asks the machine itself.
#[derive(Drop)]
pub struct Slice<'a> {
    pub target: &'a Explicit,
    pub from: u32,
    pub to: Option<u32>,
    ghost started: { from < target.now.states },
}

impl<'a> Slice<'a> {
    /// The runs of `target` from the state `from` to the state `to`, or to its ends. Constant time.
    pub fn of(target: &'a Explicit, from: u32, to: Option<u32>) -> Self
        requires { from < target.now.states }
        ensures target { result.target.now ≡ target.now }
        ensures from { result.from ≡ from }
        ensures to { result.to ≡ to }
    {
        Slice { target, from, to }
    }
}

impl<'a> Machine for Slice<'a> {
    type St = u32;

    ghost width = { λ m. m.target.now.registers };

    ghost is_state = { λ m s. s < m.target.now.states };

    ghost first = { λ m. m.from };

    ghost ends_with = { λ m. SliceEnds m.target.now.registers m.target.now.ends m.to };

    ghost steps_to = { λ m. StepsBy m.target.now.edges };

    ghost top = { λ m. listed_top m.target.now.edges m.target.now.ends };

    ghost size = { λ m. m.target.now.states };

    ghost first_is_state = { λ m. m.started };

    ghost step_is_state = { λ m s t c cost h step. step_target m.target.now.states m.target.now.registers m.target.now.edges m.target.now.ends m.target.now.formed s t c cost step };

    ghost step_character = { λ m s t c cost h step. step_character m.target.now.states m.target.now.registers m.target.now.edges m.target.now.ends m.target.now.formed s t c cost step };

    ghost step_cost = { λ m s t c cost h step. step_cost m.target.now.states m.target.now.registers m.target.now.edges m.target.now.ends m.target.now.formed s t c cost step };

    ghost end_cost = { λ m s cost h end. slice_end_cost m.target.now m.to s cost end };

    ghost states_at_most = { λ m. at_most-below m.target.now.states };

    fn registers(&self) -> usize {
        self.target.registers()
    }

    fn start(&self, _alloc: Global) -> Result<u32, AllocError> {
        Ok(self.from)
    }

    fn ends(&self, alloc: Global, at: &u32) -> Result<Items<Cost>, AllocError> {
        match self.to {
            None => self.target.ends(alloc, at),
            Some(to) => stops(alloc, self.target.registers(), *at == to),
        }
    }

    fn moves(&self, alloc: Global, at: &u32) -> Result<Items<Move<u32>>, AllocError> {
        self.target.moves(alloc, at)
    }
}

// Nothing at each register, where a word may stop.
fn stops(alloc: Global, registers: usize, may: bool) -> Result<Items<Cost>, AllocError>
    ensures { IfOk result (λ costs. costs ≡ stop_costs may registers) }
{
    let mut costs = Items::new(alloc);
    if may {
        costs.push(Cost::zeros(alloc, registers)?)?;
    }
    Ok(costs)
}
