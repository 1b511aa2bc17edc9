//! Laws of evaluation: within 128 bits it is the meaning. Each is a function without a body, whose
//! clause is the law.
ghost use Rattle.std.specs.Prelude.{◌≡◌, ◌↔◌, IsTrue, IsSome, Some};
ghost use Rattle.sv_terms.specs.Meaning.{Named, val};
ghost use Rattle.sv_terms.specs.Parts.{is_opaque};
ghost use Rattle.sv_terms.specs.Sorting.{is_valued, sort_of};
ghost use Rattle.sv_terms.specs.declared.term.Term.{Term as AnyTerm};
ghost use Rattle.sv_terms.specs.declared.value.Value.{Value as AnyValue};
ghost use Rattle.term_eval.specs.Evaluation.{value_or_fault};
ghost use Rattle.term_eval.specs.declared.fault.EvalFault.TheVariants.{Opaque};

/// A value that evaluation gives is the term's meaning, over numbers without bound.
pub fn value_is_meant()
    ensures { (values : Named) (t : AnyTerm) (v : AnyValue) → value_or_fault values t ≡ Ok v → val values t ≡ Some v }
{}

/// Evaluation gives Opaque exactly where an opaque part stands in the term, if the term has a sort
/// and its constants have values of theirs.
pub fn opaque_is_told()
    ensures { (values : Named) (t : AnyTerm) → IsSome (sort_of t) → IsTrue (is_valued values t) → value_or_fault values t ≡ Err Opaque ↔ IsTrue (is_opaque t) }
{}
