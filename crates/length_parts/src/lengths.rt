//! Regular expressions that have just the words of some lengths.
ghost use Rattle.std.specs.Prelude.{◌≡◌, ◌∷◌, [], IfOk};
ghost use Rattle.sv_terms.specs.declared.regex.Regex.TheVariants as regex;
ghost use Rattle.length_parts.specs.Rewriting.{HasWordsOf};

use crate::bound::LengthBound;
use std::alloc::{AllocError, Global};
use sv_list::{Boxed, Items};
use sv_terms::Regex;

/// The words of so many characters.
fn characters(alloc: Global, least: u32, most: u32) -> Result<Regex, AllocError>
    ensures { IfOk result (λ r. r ≡ regex.Loop regex.AnyChar least most) }
{
    let one = Boxed::new(alloc, Regex::AnyChar)?;
    Ok(Regex::Loop(one, least, most))
}

/// The words of at least so many characters.
fn long_words(alloc: Global, least: u32) -> Result<Regex, AllocError>
    ensures { IfOk result (λ r. r ≡ regex.Concat (regex.Loop regex.AnyChar least least ∷ regex.All ∷ [])) }
{
    let first = characters(alloc, least, least)?;
    let mut both = Items::new(alloc);
    both.push(first)?;
    both.push(Regex::All)?;
    Ok(Regex::Concat(both))
}

/// The words of the lengths within the bound.
pub fn regex_of(alloc: Global, bound: LengthBound) -> Result<Regex, AllocError>
    ensures { IfOk result (HasWordsOf bound) }
{
    match bound {
        LengthBound::AtMost(most) => {
            let regex = characters(alloc, 0, most)?;
            Ok(regex)
        }
        LengthBound::AtLeast(least) => {
            let regex = long_words(alloc, least)?;
            Ok(regex)
        }
        LengthBound::Exactly(length) => {
            let regex = characters(alloc, length, length)?;
            Ok(regex)
        }
    }
}
