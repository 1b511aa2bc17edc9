ghost use Rattle.std.specs.Prelude.{◌≡◌, [], ◌∷◌, ◌++◌, None, length, take, slice_get, OnOk, OnErr};
ghost use Rattle.std.specs.Map.{lookup};
ghost use Rattle.std.specs.Option.{option_copied, option_map};
ghost use Rattle.smt_names.specs.Signature.{same_name};
ghost use Rattle.term_weight.specs.Macros.{entry_of};

use crate::declared::{Declared, Macro};
use crate::summaries::Summaries;
use crate::symbols::Symbols;
use std::alloc::{AllocError, Global};
use sv_terms::{Entry, Name};

/// The declared names, and of each macro what its calls weigh.
///
/// Contracts see the list of pairs of a name and its entry, in the order of their declarations; no
/// name stands twice.
#[derive(Drop)]
pub struct Declarations {
    alloc: Global,
    symbols: Symbols,
    summaries: Summaries,
}

impl std::marker::Model for Declarations {
    ghost use Rattle.std.specs.Prelude.{List, ℕ};
    ghost use Rattle.std.specs.Coded.{codes};
    ghost use Rattle.sv_terms.specs.contracts.regex.Regex as regex;
    ghost use Rattle.sv_terms.specs.contracts.term.Term as term;
    ghost use Rattle.sv_terms.specs.declared.entry.Entry.{Entry as AnyEntry};
    ghost use Rattle.term_weight.specs.Macros.{HaveSummaries};

    ghost Value = { List (List ℕ × AnyEntry) };

    ghost coded = { Prim.hlevel (codes, regex.the_row.coded, term.the_row.coded) };

    ghost view = { λ m. m.symbols };

    ghost invariant = { λ m. HaveSummaries m.symbols m.summaries };
}

impl Declarations {
    /// No names. It takes no memory.
    pub fn new(alloc: Global) -> Declarations
        ensures { result ≡ [] }
    {
        Declarations {
            alloc,
            symbols: Symbols::new(alloc),
            summaries: Summaries::new(alloc),
        }
    }

    /// The number of names.
    pub fn len(&self) -> usize
        ensures { result ≡ length self.now }
    {
        self.symbols.len()
    }

    /// The entry of the name, if it is declared. Time is linear in the name, by its hash.
    pub fn get(&self, name: &Name) -> Option<&Entry>
        ensures { option_copied result ≡ lookup (same_name name.now) self.now }
    {
        self.symbols.get(name)
    }

    /// What the name was declared for, if it is declared. Time is linear in the name, by its hash.
    pub fn find(&self, name: &Name) -> Option<Declared<'_>>
        ensures { option_map entry_of result ≡ lookup (same_name name.now) self.now }
    {
        match self.symbols.get(name) {
            Some(Entry::Constant(sort)) => Some(Declared::Constant(*sort)),
            Some(Entry::Macro { parameters, body }) => match self.summaries.get(name) {
                Some(summary) => Some(Declared::Macro(Macro {
                    parameters: parameters.as_slice(),
                    body,
                    summary,
                })),
                None => None,
            },
            Some(Entry::Machine(transducer)) => Some(Declared::Machine(transducer)),
            None => None,
        }
    }

    /// The name and entry at this place in the order of declarations, counted from 0.
    pub fn at(&self, place: usize) -> Option<(&Name, &Entry)>
        ensures { option_map (λ p. (p.0.now, p.1.now)) result ≡ slice_get self.now place }
    {
        self.symbols.at(place)
    }

    /// Declares a new name, as the last one. Time is linear in the name and, for a macro, in its
    /// body, but for the moves of a growing map.
    pub fn declare(&mut self, name: Name, entry: Entry) -> Result<(), AllocError>
        requires { lookup (same_name name) self.old ≡ None }
        ensures ok { OnOk result (self.new ≡ self.old ++ (name, entry) ∷ []) }
        ensures err { OnErr result (self.new ≡ self.old) }
    {
        match self.summaries.keep(self.alloc, &name, &entry) {
            Ok(()) => self.symbols.declare(name, entry),
            Err(error) => {
                // both are dropped by a call, and not in place with a branch for each form
                drop((name, entry));
                Err(error)
            }
        }
    }

    /// Keeps the first `n` names, in time linear in those that it takes away.
    pub fn truncate(&mut self, n: usize)
        ensures { self.new ≡ take n self.old }
    {
        self.symbols.truncate(n);
        self.summaries.forget(&self.symbols);
    }
}
