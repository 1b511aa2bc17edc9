use literal_forms::Literal;
use std::alloc::AllocError;
use sv_list::Items;
use thiserror::Error;

/// Why a cube isn't straight.
#[derive(Debug, Drop, Error)]
pub enum FlatFault {
    /// The first literal of no written kind.
    #[error("a literal is of no kind that straight-line constraints have")]
    Outside(Literal),
    /// A variable with two definitions.
    #[error("variable {0} has two definitions")]
    Twice(u32),
    /// Variables, at least one: the definition of each uses the next, and that of the last the first.
    #[error("definitions use one another in a cycle")]
    Cycle(Items<u32>),
    /// The number of registers, or of integer constants, above 64.
    #[error("{0} lengths or integer constants in rows are more than 64")]
    Wide(u32),
    #[error("out of memory")]
    Memory(AllocError),
}

impl From<AllocError> for FlatFault {
    ghost use Rattle.std.specs.Prelude.{◌≡◌};
    ghost use Rattle.flat_cubes.specs.declared.fault.FlatFault.TheVariants.{Memory};

    ghost from_gives = { λ error fault. fault ≡ Memory error };

    fn from(error: AllocError) -> FlatFault {
        FlatFault::Memory(error)
    }
}
