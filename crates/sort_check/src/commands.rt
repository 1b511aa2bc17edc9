use sexpr_reader::Sexpr;
use sv_list::Items;
use sv_terms::{Entry, Name, Sort, Term};

/// A command of SMT-LIB 2.6 with its sorted terms, `let` and macros put in.
#[derive(Drop)]
pub enum Command {
    /// `set-logic`, `set-info`, and `set-option` of what a check is to make, which have no effect.
    Inform,
    /// `(set-option :print-success B)`
    PrintSuccess(bool),
    /// `declare-const`, or `declare-fun` without parameters.
    Declare(Name, Sort),
    /// `define-fun` or `define-transducer`: the name, and its macro or its transducer. Each parameter `p` of a macro
    /// stands as `\\p`, in the list of the parameters and in the body. No symbol holds a backslash, so that a parameter is never taken
    /// for a declared constant of its name, which the body of another macro may bring in.
    Define(Name, Entry),
    /// `assert` of a term of sort Bool.
    Assert(Term),
    /// `assert` of a term of sort Bool with a name for it, which is new. The name stands for a macro without parameters, whose body
    /// is the term.
    AssertNamed(Name, Term),
    /// `push` of so many levels; more than 4,294,967,295 stand as that number.
    Push(u32),
    /// `pop` of so many levels; more than 4,294,967,295 stand as that number.
    Pop(u32),
    CheckSat,
    /// `check-sat-assuming` of these terms of sort Bool, each a symbol or one negated symbol, in the order as read; there may be none.
    CheckAssuming(Items<Term>),
    GetModel,
    /// `get-value` of one or more terms, each the s-expression as it was read. `asked_term` builds
    /// them one by one, so that no more than one need be in memory.
    GetValue(Items<Sexpr>),
    /// `get-unsat-core`
    GetCore,
    /// `get-info` of this keyword, colon included.
    GetInfo(Items<u8>),
    /// `echo` of this literal as it stood, quotes included.
    Echo(Items<u8>),
    Reset,
    ResetAssertions,
    Exit,
    /// Any other list that begins with a symbol, and `set-option` of any other keyword, or with a value other than
    /// `true` and `false`.
    Unsupported,
}
