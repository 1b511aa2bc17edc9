use std::alloc::AllocError;
use thiserror::Error;

/// The first fault of an item, or want of memory.
#[derive(Debug, Drop, Error)]
pub enum CheckFault {
    /// A symbol, index or token that stands for no function, constant or sort.
    #[error("a symbol, index or token stands for no function, constant or sort")]
    Unknown,
    /// An argument, asserted term, body, declared name or term to be valued of the wrong sort.
    #[error("a term, argument or name has a sort that isn't taken there")]
    Sort,
    /// A number of arguments that isn't taken.
    #[error("a function is given a number of arguments that it doesn't take")]
    Arity,
    /// A name that is declared, or that stands twice.
    #[error("a name is declared already, or stands twice")]
    Declared,
    /// A numeral above 2^127 - 1.
    #[error("a numeral is above 2^127 - 1")]
    Number,
    /// A declared name that a function or a word of the syntax has.
    #[error("a name that is to be declared belongs to a function or the syntax")]
    Reserved,
    /// An item, command or term that isn't in its written form.
    #[error("a command or term isn't in its written form")]
    Shape,
    /// A transducer's description has a fault.
    #[error("the description of a transducer has a fault")]
    Transducer,
    /// An index that is too large, missing, too many, no numeral or no character.
    #[error("an index is too large, missing, one too many, or no numeral or character")]
    Index,
    /// A term with more than 1,048,576 nodes or nesting above 1,000.
    #[error("a term has more than 1,048,576 nodes, or more than 1,000 inside one another")]
    Size,
    #[error("out of memory")]
    Memory(AllocError),
}

impl From<AllocError> for CheckFault {
    ghost use Rattle.std.specs.Prelude.{◌≡◌};
    ghost use Rattle.smt_names.specs.declared.check_fault.CheckFault.TheVariants.{Memory};

    ghost from_gives = { λ error fault. fault ≡ Memory error };

    fn from(error: AllocError) -> CheckFault {
        CheckFault::Memory(error)
    }
}
