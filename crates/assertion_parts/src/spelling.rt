//! That the string literals of terms are words.
ghost use Rattle.std.specs.Prelude.{IsTrue};
ghost use Rattle.std.specs.List.{list_all};
ghost use Rattle.assertion_parts.specs.Constants.{has_words};

use sv_terms::Term;

#[cycle(words)]
#[tactic(auto, using(crate::proofs::Terms::words))]
fn words(term: &Term)
    ensures { IsTrue (has_words term.now) }
{
    match term {
        Term::Truth(_) => {}
        Term::Number(_) => {}
        Term::Text(word) => word.is_word(),
        Term::Constant(_, _) => {}
        Term::Apply(_, terms) => string_literals_are_words(terms.as_slice()),
        Term::InRe(term, _) => words(term.get()),
        Term::Related(_, read, written) => {
            words(read.get());
            words(written.get());
        }
        Term::Opaque(_) => {}
    }
}

/// A law: each string literal of the terms is a word. It goes over the terms, linear in them.
#[cycle(words)]
#[tactic(auto, using(crate::proofs::Terms::words))]
pub fn string_literals_are_words(terms: &[Term])
    ensures { IsTrue (list_all has_words terms.now) }
{
    for term in terms {
        words(term);
    }
}
