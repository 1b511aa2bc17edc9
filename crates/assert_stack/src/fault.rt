use std::alloc::AllocError;
use thiserror::Error;

/// Why levels aren't pushed.
#[derive(Debug, Drop, Error)]
pub enum StackFault {
    /// There would be this number of levels, which is above 65,535.
    #[error("{0} levels are more than 65,535")]
    Full(u64),
    #[error("out of memory")]
    Memory(AllocError),
}

/// There are no more than this number of levels, fewer than were to be popped.
#[derive(Debug, Drop, Error)]
#[error("there are only {0} levels to pop")]
pub struct Below(pub u32);

impl From<AllocError> for StackFault {
    ghost use Rattle.std.specs.Prelude.{◌≡◌};
    ghost use Rattle.assert_stack.specs.declared.fault.StackFault.TheVariants.{Memory};

    ghost from_gives = { λ error fault. fault ≡ Memory error };

    fn from(error: AllocError) -> StackFault {
        StackFault::Memory(error)
    }
}
