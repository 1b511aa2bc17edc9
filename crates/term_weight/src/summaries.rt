ghost use Rattle.std.specs.Prelude.{◌≡◌, ◌<◌, [], ◌++◌, length, OnOk, IsTrue, option_to_list};
ghost use Rattle.std.specs.Map.{lookup};
ghost use Rattle.std.specs.Option.{option_copied};
ghost use Rattle.smt_names.specs.Signature.{same_name};
ghost use Rattle.term_weight.specs.Macros.{HaveSummaries, HasSummary, IsUndeclared, KeepsOthers};

use crate::summary::Summary;
use crate::symbols::Symbols;
use indexmap::IndexMap;
use std::alloc::{AllocError, Global};
use sv_terms::{Entry, Name};

/// Summaries of macros by their names, in the order of their declarations.
///
/// Contracts see the list of pairs of a name and its summary.
#[derive(Drop)]
pub struct Summaries {
    map: IndexMap<Name, Summary>,
}

impl std::marker::Model for Summaries {
    ghost use Rattle.std.specs.Prelude.{List, ℕ};
    ghost use Rattle.std.specs.Coded.{codes};
    ghost use Rattle.term_weight.specs.contracts.summary.Summary as summary;
    ghost use Rattle.term_weight.specs.declared.summary.Summary.{Summary as AnySummary};

    ghost Value = { List (List ℕ × AnySummary) };

    ghost coded = { Prim.hlevel (codes, summary.the_row.coded) };

    ghost view = { λ m. m.map.entries };
}

impl Summaries {
    /// None. It takes no memory.
    pub fn new(alloc: Global) -> Summaries
        ensures { result ≡ [] }
    {
        Summaries {
            map: IndexMap::new(alloc),
        }
    }

    /// The summary under this name. Time is linear in the name, by its hash.
    pub fn get(&self, name: &Name) -> Option<&Summary>
        ensures { option_copied result ≡ lookup (same_name name.now) self.now }
    {
        self.map.get(name)
    }

    /// Keeps the summary of a macro of this name, if the entry is one. Linear in its body.
    pub fn keep(&mut self, alloc: Global, name: &Name, entry: &Entry) -> Result<(), AllocError>
        ensures kept { OnOk result (HasSummary entry.now (lookup (same_name name.now) self.new)) }
        ensures others { KeepsOthers name.now self.old self.new }
    {
        match entry {
            Entry::Macro { parameters, body } => {
                let name = name.copy(alloc)?;
                let summary = Summary::of(alloc, parameters.as_slice(), body)?;
                // what comes back is dropped by a call, and not in place with a branch for each form
                match self.map.insert(name, summary) {
                    Ok(replaced) => {
                        drop(replaced);
                        Ok(())
                    }
                    Err(refused) => {
                        drop(refused);
                        Err(AllocError)
                    }
                }
            }
            Entry::Constant(_) => Ok(()),
            Entry::Machine(_) => Ok(()),
        }
    }

    /// Whether there is a last macro, and it is no longer declared.
    fn is_past(&self, symbols: &Symbols) -> bool
        ensures { IsTrue result → IsUndeclared symbols.now self.now }
    {
        match self.map.last() {
            Some((name, _)) => symbols.get(name).is_none(),
            None => false,
        }
    }

    /// Takes the last one off.
    fn pop(&mut self) -> Option<(Name, Summary)>
        ensures rest { self.old ≡ self.new ++ option_to_list result }
        ensures fewer { 0 < length self.old → length self.new < length self.old }
    {
        self.map.pop()
    }

    /// Forgets the macros that are no longer declared, which are the last ones.
    pub fn forget(&mut self, symbols: &Symbols)
        ensures { HaveSummaries symbols.now self.old → HaveSummaries symbols.now self.new }
    {
        while self.is_past(symbols) {
            self.pop();
        }
    }
}
