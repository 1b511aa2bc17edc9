//! Assertions with opaque parts, and those without.
ghost use Rattle.std.specs.Prelude.{◌≡◌, IfOk};
ghost use Rattle.sv_terms.specs.Truth.{clear_of, opaque_of};
ghost use Rattle.assertion_parts.specs.Firsts.{first_of};

use std::alloc::{AllocError, Global};
use sv_list::Items;
use sv_terms::Term;
use term_eval::has_opaque;

/// Copies of the terms without opaque parts, in their order. Linear.
pub fn clear_terms(alloc: Global, terms: &[Term]) -> Result<Items<Term>, AllocError>
    ensures { IfOk result (λ clear. clear ≡ clear_of terms.now) }
{
    let mut clear = Items::new(alloc);
    for term in terms {
        if !has_opaque(term) {
            clear.push(term.copy(alloc)?)?;
        }
    }
    Ok(clear)
}

/// A copy of the first term with an opaque part. Linear.
pub fn first_opaque(alloc: Global, terms: &[Term]) -> Result<Option<Term>, AllocError>
    ensures { IfOk result (λ found. found ≡ first_of (opaque_of terms.now)) }
{
    for term in terms {
        if has_opaque(term) {
            return Ok(Some(term.copy(alloc)?));
        }
    }
    Ok(None)
}
