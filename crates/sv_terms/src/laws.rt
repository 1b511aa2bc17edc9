//! Laws of the definitions. Each is a function without a body, whose clause is the law.
ghost use Rattle.std.specs.Prelude.{◌≡◌, false, IsTrue, ◌↔◌, None, Some, List, [], ◌∷◌, ℕ, ◌+◌, ◌*◌};
ghost use Rattle.sv_terms.specs.Language.{In, Word};
ghost use Rattle.sv_terms.specs.Matches.{matches};
ghost use Rattle.sv_terms.specs.Meaning.{Named, val};
ghost use Rattle.sv_terms.specs.Parts.{is_opaque};
ghost use Rattle.sv_terms.specs.Sorting.{is_valued, kind, sort_of};
ghost use Rattle.sv_terms.specs.Replacement.{ReplacedFirst, ReplacedAll, replace_first, replace_all};
ghost use Rattle.sv_terms.specs.TransducerSizes.{edges_most, ends_most, is_formed};
ghost use Rattle.sv_terms.specs.Transduction.{Pairs, writes, IsFormed, IsTransduction, WritesWithin};
ghost use Rattle.sv_terms.specs.Written.{same_regex};
ghost use Rattle.sv_terms.specs.Truth.{clear_of, HasNoValues, HasValues};
ghost use Rattle.sv_terms.specs.declared.op.Op.TheVariants as op;
ghost use Rattle.sv_terms.specs.declared.regex.Regex.{Regex as AnyRegex};
ghost use Rattle.sv_terms.specs.declared.regex.Regex.TheVariants as regex;
ghost use Rattle.sv_terms.specs.declared.sort.Sort.{Sort as AnySort};
ghost use Rattle.sv_terms.specs.declared.sort.Sort.TheVariants as sort;
ghost use Rattle.sv_terms.specs.declared.term.Term.{Term as AnyTerm};
ghost use Rattle.sv_terms.specs.declared.term.Term.TheVariants as term;
ghost use Rattle.sv_terms.specs.declared.transducer.Transducer.{Transducer as AnyTransducer};
ghost use Rattle.sv_terms.specs.declared.value.Value.{Value as AnyValue};
ghost use Rattle.sv_word.specs.Words.{IsWord};

/// Every language is a set of words: what is in a regular expression is a word.
pub fn languages_are_words()
    ensures { (r : AnyRegex) (w : Word) → In r w → IsWord w }
{}

/// Membership is decided by the test that the meaning of `str.in_re` computes.
pub fn membership_is_decided()
    ensures { (r : AnyRegex) (w : Word) → IsTrue (matches r w) ↔ In r w }
{}

/// What a transducer relates is decided by the test that its meaning computes.
pub fn pairs_are_decided()
    ensures { (t : AnyTransducer) (read : Word) (written : Word) → IsTrue (writes t t.start read written) ↔ Pairs t read written }
{}

/// A formed transducer relates words with words. A pair is what some run reads and writes.
pub fn pairs_are_runs()
    ensures words { (t : AnyTransducer) (read written : Word) → IsFormed t → Pairs t read written → IsWord read × IsWord written }
    ensures run { (t : AnyTransducer) (places : List ℕ) (read written : Word) → IsTransduction t places read written → Pairs t read written }
    ensures pair { (t : AnyTransducer) (read written : Word) → Pairs t read written → (places : List ℕ) × IsTransduction t places read written }
{}

/// Whether a transducer is formed is decided by a test. Over n characters it writes at most n times what
/// an edge writes and what an end writes besides.
pub fn transducers_are_bounded()
    ensures formed { (t : AnyTransducer) → IsTrue (is_formed t) ↔ IsFormed t }
    ensures within { (t : AnyTransducer) → WritesWithin t (λ n. n * edges_most t.edges + ends_most t.ends) }
{}

/// What `str.replace` and `str.replace_all` compute is the word with the first occurrence, or each
/// occurrence from the left without overlap, replaced, and no other word.
pub fn replacements_are_exact()
    ensures first { (pattern by word answer : Word) → (answer ≡ replace_first pattern by word) ↔ ReplacedFirst pattern by word answer }
    ensures all { (pattern by word answer : Word) → (answer ≡ replace_all pattern by word) ↔ ReplacedAll pattern by word answer }
{}

/// A term of some sort without opaque parts, whose constants have values of their sorts, has a
/// value of its sort.
pub fn terms_have_values()
    ensures { (values : Named) (t : AnyTerm) (s : AnySort) → sort_of t ≡ Some s → IsTrue (is_valued values t) → is_opaque t ≡ false → (v : AnyValue) × (val values t ≡ Some v) × (kind v ≡ s) }
{}

/// A constant of sort Bool is true or false: no three are all different.
pub fn truths_are_two()
    ensures { (p q r : List ℕ) → HasNoValues (term.Apply op.Distinct (term.Constant p sort.Bool ∷ term.Constant q sort.Bool ∷ term.Constant r sort.Bool ∷ []) ∷ []) }
{}

/// A constant of sort String is a word: none is outside the language of all words.
pub fn texts_are_words()
    ensures { (x : List ℕ) → HasNoValues (term.Apply op.Not (term.InRe (term.Constant x sort.String) regex.All ∷ []) ∷ []) }
{}

/// A term with an opaque part has no meaning, so that no values make it true; nor does it say that
/// none do: the assertions without opaque parts are none, and those have values.
pub fn opaque_is_neither()
    ensures meaning { (values : Named) (t : AnyTerm) → IsTrue (is_opaque t) → val values t ≡ None }
    ensures untrue { (t : AnyTerm) → IsTrue (is_opaque t) → HasValues (t ∷ []) → ⊥ }
    ensures left_out { (t : AnyTerm) → IsTrue (is_opaque t) → HasValues (clear_of (t ∷ [])) }
{}

/// `==` of regular expressions is exact: two that compare equal are one.
pub fn equal_are_one()
    ensures { (r s : AnyRegex) → IsTrue (same_regex r s) ↔ (r ≡ s) }
{}
