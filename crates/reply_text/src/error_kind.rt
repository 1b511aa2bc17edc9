//! Why a command or an input was refused.
ghost use Rattle.reply_text.specs.Refusals.{of_check, of_syntax, of_value};
ghost use Rattle.std.specs.Prelude.{◌≡◌, IfOk, None, OnErr, Some};

use sexpr_reader::SyntaxFault;
use smt_names::CheckFault;
use std::alloc::AllocError;
use term_eval::EvalFault;

/// Why a command was refused, one variant for each text that is printed.
#[derive(Clone, Copy)]
pub enum ErrorKind {
    /// A symbol, index or token that stands for no function, constant or sort.
    Unknown,
    /// A term of the wrong sort.
    Sort,
    /// A number of arguments that isn't taken.
    Arity,
    /// A name that is declared, or that stands twice.
    Declared,
    /// A numeral above 2^127 - 1, or a value that isn't within 128 bits.
    Number,
    /// A name that a function or a word of the syntax has.
    Reserved,
    /// An item that isn't in a written form.
    Shape,
    /// The description of a transducer has a fault.
    Transducer,
    /// An index that is too large, missing, too many, no numeral or no character.
    Index,
    /// A term with more than 1,048,576 nodes or nesting above 1,000.
    Size,
    /// `pop` of more levels than there are.
    NoSuchLevel,
    /// `push` to more than 65,535 levels.
    Levels,
    /// The last verdict isn't `sat`, or was dropped.
    NoModel,
    /// The last verdict isn't `unknown`, or was dropped.
    NoReason,
    /// The last verdict isn't `unsat`, or was dropped.
    NoCore,
    /// A term with an opaque part has no value.
    OpaqueValue,
    /// Bytes at this place that form no token.
    SyntaxToken(u64),
    /// A `)` at this place with no open list.
    SyntaxClose(u64),
    /// A `(` at this place that opens list number 1,001 inside one another.
    SyntaxDepth(u64),
    /// A literal at this place that is the text of no word.
    SyntaxLiteral(u64),
    /// The input ends inside an item.
    Incomplete,
}

impl ErrorKind {
    /// The refusal of an item with this fault, or want of memory.
    pub fn of_check(fault: CheckFault) -> Result<ErrorKind, AllocError>
        ensures kind { IfOk result (λ kind. of_check fault ≡ Some kind) }
        ensures memory { OnErr result (of_check fault ≡ None) }
    {
        match fault {
            CheckFault::Unknown => Ok(ErrorKind::Unknown),
            CheckFault::Sort => Ok(ErrorKind::Sort),
            CheckFault::Arity => Ok(ErrorKind::Arity),
            CheckFault::Declared => Ok(ErrorKind::Declared),
            CheckFault::Number => Ok(ErrorKind::Number),
            CheckFault::Reserved => Ok(ErrorKind::Reserved),
            CheckFault::Shape => Ok(ErrorKind::Shape),
            CheckFault::Transducer => Ok(ErrorKind::Transducer),
            CheckFault::Index => Ok(ErrorKind::Index),
            CheckFault::Size => Ok(ErrorKind::Size),
            CheckFault::Memory(error) => Err(error),
        }
    }

    /// The refusal of a term whose value has this fault, or want of memory.
    pub fn of_value(fault: EvalFault) -> Result<ErrorKind, AllocError>
        ensures kind { IfOk result (λ kind. of_value fault ≡ Some kind) }
        ensures memory { OnErr result (of_value fault ≡ None) }
    {
        match fault {
            EvalFault::Opaque => Ok(ErrorKind::OpaqueValue),
            EvalFault::Past { .. } => Ok(ErrorKind::Number),
            EvalFault::Memory(error) => Err(error),
        }
    }

    /// The error that a syntax fault is answered by, or want of memory.
    pub fn of_syntax(fault: SyntaxFault) -> Result<ErrorKind, AllocError>
        ensures kind { IfOk result (λ kind. of_syntax fault ≡ Some kind) }
        ensures memory { OnErr result (of_syntax fault ≡ None) }
    {
        match fault {
            SyntaxFault::Token(place) => Ok(ErrorKind::SyntaxToken(place)),
            SyntaxFault::Close(place) => Ok(ErrorKind::SyntaxClose(place)),
            SyntaxFault::Depth(place) => Ok(ErrorKind::SyntaxDepth(place)),
            SyntaxFault::Literal(place) => Ok(ErrorKind::SyntaxLiteral(place)),
            SyntaxFault::Incomplete => Ok(ErrorKind::Incomplete),
            SyntaxFault::Memory(error) => Err(error),
        }
    }
}
