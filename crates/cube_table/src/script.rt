//! The declarations and assertions of a script.
ghost use Rattle.std.specs.Prelude.{◌≡◌, [], ◌∷◌, Some};
ghost use Rattle.std.specs.List.{AllByRecursion};
ghost use Rattle.assert_stack.specs.Levels.{dropped_last, empty, live, symbols_of};
ghost use Rattle.sort_check.specs.WellFormed.{IsAdded};
ghost use Rattle.sv_terms.specs.Sorting.{sort_of};
ghost use Rattle.sv_terms.specs.declared.entry.Body.TheVariants as body;
ghost use Rattle.sv_terms.specs.declared.entry.Entry.TheVariants as entry;
ghost use Rattle.sv_terms.specs.declared.sort.Sort.TheVariants as sort;

use assert_stack::{Stack, StackFault};
use sexpr_reader::Sexpr;
use sort_check::{
    CheckFault, Command, additions_are_well_formed, command, fronts_are_well_formed,
    terms_are_sorted,
};
use std::alloc::{AllocError, Global};
use sv_list::Items;
use sv_terms::{Entry, Name, Term};

/// What a command asks the table for.
#[derive(Drop)]
pub enum Asked {
    Nothing,
    /// The cubes of the live assertions.
    Cubes,
    /// The cubes of the live assertions, of which the last so many are assumptions, to be left after it.
    CubesUnder(usize),
    /// This literal, quotes included.
    Echo(Items<u8>),
    /// A word on what is wrong.
    Fault(&'static str),
    /// No command follows.
    End,
}

/// The levels of a script, with their symbols and assertions. Contracts see the levels.
#[derive(Drop)]
pub struct Script {
    stack: Stack,
}

impl std::marker::Model for Script {
    ghost use Rattle.std.specs.Prelude.{List};
    ghost use Rattle.std.specs.Coded.{codes};
    ghost use Rattle.assert_stack.specs.Levels.{Level};
    ghost use Rattle.sv_terms.specs.contracts.regex.Regex as regex;
    ghost use Rattle.sv_terms.specs.contracts.term.Term as term;
    ghost use Rattle.cube_table.specs.Standing.{IsStanding};

    ghost Value = { List Level };

    ghost coded = { Prim.hlevel (codes, regex.the_row.coded, term.the_row.coded) };

    ghost view = { λ s. s.stack };

    ghost invariant = { λ s. IsStanding s.stack };
}

impl Script {
    /// Nothing is declared or asserted.
    #[tactic(auto, using(crate::proofs::Standing::stands_opened))]
    pub fn new(alloc: Global) -> Script
        ensures { result ≡ empty ∷ [] }
    {
        Script {
            stack: Stack::new(alloc),
        }
    }

    /// The live assertions, each of sort Bool.
    pub fn live(&self) -> &[Term]
        ensures live { result.now ≡ live self.now }
        ensures sorted { AllByRecursion (λ t. sort_of t ≡ Some sort.Bool) result.now }
    {
        self.stack.live()
    }

    /// Does a command that declares, asserts, or changes the levels; the others ask for something or do
    /// nothing.
    pub fn step(&mut self, alloc: Global, item: &Sexpr) -> Result<Asked, CheckFault> {
        terms_are_sorted();
        additions_are_well_formed();
        match command(alloc, self.stack.symbols(), item)? {
            Command::Declare(name, sort) => Ok(self.declare(name, Entry::Constant(sort))?),
            Command::Define(name, entry) => Ok(self.declare(name, entry)?),
            Command::Assert(term) => Ok(self.assert(term)?),
            Command::AssertNamed(name, term) => Ok(self.assert_named(alloc, name, term)?),
            Command::Push(levels) => Ok(self.push(levels)?),
            Command::Pop(levels) => Ok(self.pop(levels)),
            Command::CheckSat => Ok(Asked::Cubes),
            Command::CheckAssuming(terms) => Ok(self.assume(terms)?),
            Command::Echo(text) => Ok(Asked::Echo(text)),
            Command::Reset | Command::ResetAssertions => Ok(self.reset()),
            Command::Exit => Ok(Asked::End),
            Command::Unsupported => Ok(Asked::Fault("unsupported")),
            _ => Ok(Asked::Nothing),
        }
    }

    #[tactic(auto, using(crate::proofs::Standing::stands_declared))]
    fn declare(&mut self, name: Name, entry: Entry) -> Result<Asked, AllocError>
        requires { IsAdded (symbols_of self.old) name entry }
    {
        self.stack.declare(name, entry)?;
        Ok(Asked::Nothing)
    }

    #[tactic(auto, using(crate::proofs::Standing::stands_asserted))]
    fn assert(&mut self, term: Term) -> Result<Asked, AllocError>
        requires { sort_of term ≡ Some sort.Bool }
    {
        self.stack.assert(term)?;
        Ok(Asked::Nothing)
    }

    #[tactic(auto, using(crate::proofs::Standing::stands_named))]
    fn assert_named(&mut self, alloc: Global, name: Name, term: Term) -> Result<Asked, AllocError>
        requires added { IsAdded (symbols_of self.old) name (entry.Macro [] (body.Term term)) }
        requires sorted { sort_of term ≡ Some sort.Bool }
    {
        self.stack.assert_named(alloc, name, term)?;
        Ok(Asked::Nothing)
    }

    #[tactic(auto, using(crate::proofs::Standing::stands_assumed))]
    fn assume(&mut self, terms: Items<Term>) -> Result<Asked, AllocError>
        requires { AllByRecursion (λ t. sort_of t ≡ Some sort.Bool) terms }
    {
        let count = terms.len();
        self.stack.assert_all(terms)?;
        Ok(Asked::CubesUnder(count))
    }

    /// The last `count` assertions of the innermost level go.
    #[tactic(auto, using(crate::proofs::Standing::stands_left))]
    pub fn leave(&mut self, count: usize)
        ensures { self.new ≡ dropped_last count self.old }
    {
        self.stack.drop_last(count)
    }

    #[tactic(auto, using(crate::proofs::Standing::stands_pushed))]
    fn push(&mut self, levels: u32) -> Result<Asked, AllocError> {
        match self.stack.push(levels) {
            Ok(()) => Ok(Asked::Nothing),
            Err(StackFault::Full(_)) => Ok(Asked::Fault("levels")),
            Err(StackFault::Memory(error)) => Err(error),
        }
    }

    #[tactic(auto, using(crate::proofs::Standing::stands_dropped))]
    fn pop(&mut self, levels: u32) -> Asked {
        fronts_are_well_formed();
        match self.stack.pop(levels) {
            Ok(()) => Asked::Nothing,
            Err(_) => Asked::Fault("no such level"),
        }
    }

    #[tactic(auto, using(crate::proofs::Standing::stands_opened))]
    fn reset(&mut self) -> Asked {
        self.stack.reset();
        Asked::Nothing
    }
}
