ghost use Rattle.std.specs.Prelude.{◌≡◌};

use std::alloc::AllocError;
use thiserror::Error;

/// Why the bytes between the quotes of a string literal are no word: the first fault from the
/// left, with the place of its first byte, counted from 0.
#[derive(Clone, Copy, Debug, PartialEq, Eq, Error)]
pub enum LiteralFault {
    /// A quote that isn't doubled.
    #[error("the quote at byte {0} isn't doubled")]
    Quote(usize),
    /// A byte from 0x80 on that begins no UTF-8.
    #[error("the byte at {0} begins no UTF-8")]
    Utf8(usize),
    /// A code point above 0x2FFFF in UTF-8.
    #[error("the code point at byte {0} is above 0x2FFFF")]
    Above(usize),
    /// Want of memory.
    #[error(transparent)]
    Memory(AllocError),
}

impl From<AllocError> for LiteralFault {
    ghost use Rattle.sv_word.specs.declared.literal_fault.LiteralFault.TheVariants.{Memory};

    ghost from_gives = { λ e f. f ≡ Memory e };

    fn from(e: AllocError) -> LiteralFault {
        LiteralFault::Memory(e)
    }
}
