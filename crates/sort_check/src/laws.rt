//! Laws of the definitions. Each is a function whose clauses are the law, and which does nothing.
ghost use Rattle.std.specs.Prelude.{◌≡◌, IsTrue, ℕ, List, [], ◌++◌, All, Ok, Some, take};
ghost use Rattle.std.specs.Map.{lookup};
ghost use Rattle.sexpr_reader.specs.declared.sexpr.Sexpr.{Sexpr as AnySexpr};
ghost use Rattle.sv_terms.specs.Meaning.{Named};
ghost use Rattle.sv_terms.specs.Sorting.{is_valued};
ghost use Rattle.sv_terms.specs.declared.entry.Body.TheVariants as body;
ghost use Rattle.sv_terms.specs.declared.entry.Entry.{Entry as AnyEntry};
ghost use Rattle.sv_terms.specs.declared.entry.Entry.TheVariants as entry;
ghost use Rattle.sv_terms.specs.declared.sort.Sort.{Sort as AnySort};
ghost use Rattle.sv_terms.specs.declared.sort.Sort.TheVariants as sort;
ghost use Rattle.sv_terms.specs.declared.term.Term.{Term as AnyTerm};
ghost use Rattle.sort_check.specs.declared.commands.Command.TheVariants as command;
ghost use Rattle.sort_check.specs.Checking.{checked, asked_term, IsAskable};
ghost use Rattle.smt_names.specs.Form.{Form};
ghost use Rattle.term_walk.specs.Meant.{Names};
ghost use Rattle.smt_names.specs.Signature.{Name, same_name};
ghost use Rattle.sort_check.specs.WellFormed.{is_well_formed, constants_known, is_entry, AreGiven, IsTermOf, IsOfWrittenSort, IsAdded};

/// No names are well formed, and so are the first ones of those that are.
pub fn fronts_are_well_formed()
    ensures empty { IsTrue (is_well_formed []) }
    ensures prefix { (xs ys : Names) → IsTrue (is_well_formed (xs ++ ys)) → IsTrue (is_well_formed xs) }
    ensures taken { (n : ℕ) (symbols : Names) → IsTrue (is_well_formed symbols) → IsTrue (is_well_formed (take n symbols)) }
{}

/// Of well formed names each is found under its name, and stands for what may be declared: a
/// constant of a sort other than RegLan, a macro, or a formed transducer.
pub fn entries_are_well_formed()
    ensures allowed { (symbols : Names) → IsTrue (is_well_formed symbols) → All (λ e. IsTrue (is_entry symbols e.1)) symbols }
    ensures found { (symbols : Names) → IsTrue (is_well_formed symbols) → All (λ e. lookup (same_name e.0) symbols ≡ Some e.1) symbols }
{}

/// Under well formed names a term that is asserted or assumed has sort Bool, and one whose value is asked for
/// has a sort other than RegLan; its constants are declared, and its transducers are formed.
pub fn terms_are_sorted()
    ensures asserted { (symbols : Names) (item : Form) (term : AnyTerm) → IsTrue (is_well_formed symbols) → checked symbols item ≡ Ok (command.Assert term) → IsTermOf symbols sort.Bool term }
    ensures named { (symbols : Names) (item : Form) (name : Name) (term : AnyTerm) → IsTrue (is_well_formed symbols) → checked symbols item ≡ Ok (command.AssertNamed name term) → IsTermOf symbols sort.Bool term }
    ensures assumed { (symbols : Names) (item : Form) (terms : List AnyTerm) → IsTrue (is_well_formed symbols) → checked symbols item ≡ Ok (command.CheckAssuming terms) → All (IsTermOf symbols sort.Bool) terms }
    ensures asked { (symbols : Names) (item : Form) (term : AnyTerm) → IsTrue (is_well_formed symbols) → asked_term symbols item ≡ Ok term → IsOfWrittenSort symbols term }
{}

/// The terms that a `get-value` takes together under well formed names are taken one by one.
pub fn terms_are_taken_one_by_one()
    ensures { (symbols : Names) (item : Form) (asked : List AnySexpr) → IsTrue (is_well_formed symbols) → checked symbols item ≡ Ok (command.GetValue asked) → All (IsAskable symbols) asked }
{}

/// A name that an item declares, defines or gives to its assertion is new, and well formed names stay so with it.
pub fn additions_are_well_formed()
    ensures declared { (symbols : Names) (item : Form) (name : Name) (s : AnySort) → IsTrue (is_well_formed symbols) → checked symbols item ≡ Ok (command.Declare name s) → IsAdded symbols name (entry.Constant s) }
    ensures defined { (symbols : Names) (item : Form) (name : Name) (e : AnyEntry) → IsTrue (is_well_formed symbols) → checked symbols item ≡ Ok (command.Define name e) → IsAdded symbols name e }
    ensures named { (symbols : Names) (item : Form) (name : Name) (term : AnyTerm) → IsTrue (is_well_formed symbols) → checked symbols item ≡ Ok (command.AssertNamed name term) → IsAdded symbols name (entry.Macro [] (body.Term term)) }
{}

/// Constants that are declared stay so when more names are, and have values of their sorts where
/// each declared constant has one.
pub fn constants_have_values()
    ensures kept { (xs ys : Names) (term : AnyTerm) → IsTrue (constants_known xs term) → IsTrue (constants_known (xs ++ ys) term) }
    ensures valued { (values : Named) (symbols : Names) (term : AnyTerm) → AreGiven values symbols → IsTrue (constants_known symbols term) → IsTrue (is_valued values term) }
{}
