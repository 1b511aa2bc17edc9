use std::alloc::AllocError;

/// Why a run stops before its script has ended.
#[derive(Clone, Copy, PartialEq, Eq)]
pub enum TableStop {
    Unread,
    Unwritten,
    Memory(AllocError),
}

impl From<AllocError> for TableStop {
    ghost use Rattle.std.specs.Prelude.{◌≡◌};
    ghost use Rattle.cube_table.specs.declared.stop.TableStop.TheVariants.{Memory};

    ghost from_gives = { λ error stop. stop ≡ Memory error };

    fn from(error: AllocError) -> TableStop {
        TableStop::Memory(error)
    }
}
