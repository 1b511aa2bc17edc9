ghost use Rattle.std.specs.Prelude.{◌≡◌};

use std::alloc::AllocError;
use thiserror::Error;

/// Why words ask for nothing.
#[derive(Clone, Copy, Debug, Error)]
pub enum WordsFault {
    /// They aren't of the form.
    #[error("expected [--workers N] [FILE] or [--workers N] --generate SEED --size N")]
    Outside,
    /// Want of memory.
    #[error(transparent)]
    Memory(AllocError),
}

impl From<AllocError> for WordsFault {
    ghost use Rattle.command_words.specs.declared.words_fault.WordsFault.TheVariants.{Memory};

    ghost from_gives = { λ e f. f ≡ Memory e };

    fn from(e: AllocError) -> WordsFault {
        WordsFault::Memory(e)
    }
}
