ghost use Rattle.std.specs.Prelude.{◌≡◌, ◌<◌, IfOk, MatchOption};
ghost use Rattle.sv_terms.specs.Bounds.{size};
ghost use Rattle.regex_machine.specs.Reversed.{ReadsSameWithin};
ghost use Rattle.part_machines.specs.Kept.{IsMachineOf, IsKept};

use crate::part::MOST_STATES;
use lang_pool::Keyed;
use machine_core::Explicit;
use regex_machine::{build, least};
use std::alloc::{AllocError, Global};
use std::marker::Model;
use sv_list::Copied;
use sv_terms::{Regex, languages_are_words};
use trim_search::BuildFault;

/// What came of building the machine of a regular expression, kept beside it: the machine, or that it takes more states
/// than a machine may have.
#[derive(Drop)]
pub struct Keep {
    key: Regex,
    machine: Option<Explicit>,
}

impl Model for Keep {
    ghost use Rattle.std.specs.Prelude.{Option};
    ghost use Rattle.std.specs.Coded.{codes};
    ghost use Rattle.sv_terms.specs.contracts.regex.Regex as regex;
    ghost use Rattle.sv_terms.specs.declared.regex.Regex.{Regex as AnyRegex};
    ghost use Rattle.machine_core.specs.declared.graph.Graph.{Graph};
    ghost use Rattle.part_machines.specs.Kept.{IsKept};

    ghost Value = { AnyRegex × Option Graph };

    ghost coded = { Prim.hlevel (codes, regex.the_row.coded) };

    ghost view = { λ keep. (keep.key, keep.machine) };

    ghost invariant = { λ keep. IsKept keep.key keep.machine };
}

impl Keyed<Regex> for Keep {
    ghost use Rattle.sv_terms.specs.Written.{same_regex-exact};
    ghost use Rattle.part_machines.specs.Kept.{IsKept};

    ghost key_of = { λ keep. keep.0 };

    ghost Fits = { λ key keep. IsKept key keep.1 };

    ghost exact = { λ a b same. (same_regex-exact a b).0 same };

    fn key(&self) -> &Regex {
        &self.key
    }
}

// Of a machine of more states the least isn't sought, which looks at up to five times as many sets of them.
const MOST_MADE_LEAST: u32 = 512;

// The least machine of the same words, where it is sought and has no more states, and else a copy.
fn make_least(alloc: Global, machine: &Explicit) -> Result<Explicit, AllocError>
    requires { machine.now.registers ≡ 0 }
    ensures { IfOk result (ReadsSameWithin machine.now machine.now.states) }
{
    if machine.states() > MOST_MADE_LEAST {
        return machine.copy(alloc);
    }
    match least(alloc, machine)? {
        Some(fewest) => Ok(fewest),
        None => machine.copy(alloc),
    }
}

// The machine of the regular expression; `None` only where its size is above that of any machine.
fn build_within(alloc: Global, key: &Regex) -> Result<Option<Explicit>, AllocError>
    ensures { IfOk result (IsKept key.now) }
{
    languages_are_words();
    match build(alloc, key, MOST_STATES) {
        Ok(machine) => Ok(Some(machine)),
        Err(BuildFault::States(_)) => Ok(None),
        Err(BuildFault::Memory(e)) => Err(e),
    }
}

impl Keep {
    /// What comes of building the machine of the regular expression.
    pub fn of(alloc: Global, key: &Regex) -> Result<Keep, AllocError>
        ensures key { IfOk result (λ keep. keep.0 ≡ key.now) }
    {
        let machine = build_within(alloc, key)?;
        let key = key.copy(alloc)?;
        Ok(Keep { key, machine })
    }

    /// The same with the least machine of its words, where that is sought: products with it stay small.
    pub fn made_least(&self, alloc: Global) -> Result<Keep, AllocError>
        ensures key { IfOk result (λ keep. keep.0 ≡ self.now.0) }
    {
        let machine = match &self.machine {
            Some(machine) => Some(make_least(alloc, machine)?),
            None => None,
        };
        let key = self.key.copy(alloc)?;
        Ok(Keep { key, machine })
    }

    /// Its machine; `None` where it takes more than [`MOST_STATES`](crate::MOST_STATES) states, as only one whose size
    /// is above that does.
    pub fn machine(&self) -> Option<&Explicit>
        ensures { MatchOption result (MOST_STATES < size self.now.0) (λ m. IsMachineOf self.now.0 m.now) }
    {
        self.machine.as_ref()
    }
}
