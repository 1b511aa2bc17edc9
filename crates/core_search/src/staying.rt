//! Terms of which some are left out.
ghost use Rattle.std.specs.Prelude.{◌≡◌, IfOk, get_or, false};
ghost use Rattle.core_search.specs.Cores.{staying};

use std::alloc::{AllocError, Global};
use sv_list::Items;
use sv_terms::Term;

// Whether the term at this place is left out.
fn is_out(outs: &[bool], at: usize) -> bool
    ensures { result ≡ get_or outs.now at false }
{
    match outs.get(at) {
        Some(out) => *out,
        None => false,
    }
}

/// A copy of the terms that stay, linear in their sizes.
pub fn staying_terms(
    alloc: Global,
    terms: &[Term],
    outs: &[bool],
) -> Result<Items<Term>, AllocError>
    ensures { IfOk result (λ stay. stay ≡ staying outs.now terms.now) }
{
    let mut stay = Items::new(alloc);
    for at in 0..terms.len() {
        if !is_out(outs, at) {
            stay.push(terms[at].copy(alloc)?)?;
        }
    }
    Ok(stay)
}
