//! Places for the machines of the regular expressions of terms.

use part_machines::{Machines, digest, digest_of_others};
use std::alloc::{AllocError, Global};
use sv_terms::Term;

#[cycle(collect)]
fn collect(digests: &mut Vec<u64>, term: &Term) -> Result<(), AllocError> {
    match term {
        Term::Apply(_, terms) => collect_all(digests, terms.as_slice()),
        Term::InRe(term, regex) => {
            collect(digests, term.get())?;
            digests.push(digest(regex))?;
            digests.push(digest_of_others(regex))?;
            Ok(())
        }
        Term::Related(_, read, written) => {
            collect(digests, read.get())?;
            collect(digests, written.get())
        }
        Term::Truth(_) | Term::Number(_) | Term::Text(_) | Term::Constant(_, _) | Term::Opaque(_) =>
            Ok(()),
    }
}

#[cycle(collect)]
fn collect_all(digests: &mut Vec<u64>, terms: &[Term]) -> Result<(), AllocError> {
    for term in terms {
        collect(digests, term)?;
    }
    Ok(())
}

/// Machines with a place for each regular expression that stands in the terms, and for its complement. None is
/// built yet. Time is that of their digests, linear in the terms, and of sorting these.
pub fn machines_for(alloc: Global, terms: &[Term]) -> Result<Machines, AllocError> {
    let mut digests = Vec::new(alloc);
    collect_all(&mut digests, terms)?;
    Machines::new(alloc, digests)
}
