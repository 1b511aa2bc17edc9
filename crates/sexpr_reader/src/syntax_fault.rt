ghost use Rattle.sexpr_reader.specs.declared.syntax_fault.SyntaxFault.TheVariants.{Memory};
ghost use Rattle.std.specs.Prelude.{◌≡◌};

use std::alloc::AllocError;
use thiserror::Error;

/// The first syntax fault from the left, or want of memory.
///
/// A place is that of the first byte of the fault's token, counted from 0 over all bytes that were fed.
#[derive(Clone, Copy, Debug, Error)]
pub enum SyntaxFault {
    /// Bytes that form no token.
    #[error("the bytes from {0} on form no token")]
    Token(u64),
    /// A `)` with no open list.
    #[error("the `)` at byte {0} closes no list")]
    Close(u64),
    /// A `(` that opens list number 1,001 inside one another.
    #[error("the `(` at byte {0} opens more than 1,000 lists inside one another")]
    Depth(u64),
    /// A literal whose content is the text of no word.
    #[error("the literal at byte {0} is the text of no word")]
    Literal(u64),
    /// A list, literal or quoted symbol is open at the end of the input.
    #[error("a list, literal or quoted symbol isn't closed at the end of the input")]
    Incomplete,
    /// Want of memory.
    #[error("out of memory")]
    Memory(AllocError),
}

impl From<AllocError> for SyntaxFault {
    ghost from_gives = { λ error fault. fault ≡ Memory error };

    fn from(error: AllocError) -> SyntaxFault {
        SyntaxFault::Memory(error)
    }
}
