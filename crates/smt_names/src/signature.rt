// The names of the functions, sorts and commands, each found in a table.
ghost use Rattle.std.specs.Prelude.{◌≡◌};
ghost use Rattle.std.specs.List.{list_any};
ghost use Rattle.std.specs.Map.{lookup};
ghost use Rattle.smt_names.specs.Form.{seen};
ghost use Rattle.smt_names.specs.Tokens as t;
ghost use Rattle.smt_names.specs.Signature as s;
ghost use Rattle.smt_names.specs.Verbs as v;

use crate::function::{ArgumentSorts, Function, Interpretation};
use crate::token::{bare_name, symbol};
use crate::verb::CommandName;
use sexpr_reader::Sexpr;
use sv_terms::{Op, Sort};

// Rows of a table of functions: the name, the sorts of the arguments, the sort that it gives, and what it is.
macro_rules! rows {
    ($($name:literal: $takes:ident $(($($sort:ident),*))? => $gives:ident, $sense:ident $(($of:expr))?;)*) => {
        [$((
            $name,
            Function {
                takes: ArgumentSorts::$takes $(($(Sort::$sort),*))?,
                gives: Sort::$gives,
                sense: Interpretation::$sense $(($of))?,
            },
        )),*]
    };
}

// The functions without an index.
static SIGNATURE: [(&[u8], Function); 53] = rows! {
    // the theory Core
    b"true": Nothing => Bool, Truth(true);
    b"false": Nothing => Bool, Truth(false);
    b"not": One(Bool) => Bool, Meaning(Op::Not);
    b"and": Each(Bool) => Bool, Meaning(Op::And);
    b"or": Each(Bool) => Bool, Meaning(Op::Or);
    b"xor": Many(Bool) => Bool, Meaning(Op::Xor);
    b"=>": Many(Bool) => Bool, Meaning(Op::Implies);
    b"=": Alike => Bool, Equality(Op::Equal);
    b"distinct": Alike => Bool, Equality(Op::Distinct);
    b"ite": Choice => Bool, Choice;
    // the theory Ints
    b"<=": Many(Int) => Bool, Meaning(Op::LessEqual);
    b"<": Many(Int) => Bool, Meaning(Op::Less);
    b">=": Many(Int) => Bool, Meaning(Op::GreaterEqual);
    b">": Many(Int) => Bool, Meaning(Op::Greater);
    b"+": Each(Int) => Int, Meaning(Op::Add);
    b"-": Each(Int) => Int, Meaning(Op::Subtract);
    b"*": Each(Int) => Int, Product;
    b"div": Many(Int) => Int, Opaque;
    b"mod": Two(Int, Int) => Int, Opaque;
    b"abs": One(Int) => Int, Opaque;
    // the theory UnicodeStrings: words that have a meaning here
    b"str.len": One(String) => Int, Meaning(Op::Length);
    b"str.++": Each(String) => String, Meaning(Op::Concat);
    b"str.is_digit": One(String) => Bool, Meaning(Op::IsDigit);
    b"str.in_re": Two(String, RegLan) => Bool, Membership;
    // the theory UnicodeStrings: words in words
    b"str.prefixof": Two(String, String) => Bool, Meaning(Op::PrefixOf);
    b"str.suffixof": Two(String, String) => Bool, Meaning(Op::SuffixOf);
    b"str.contains": Two(String, String) => Bool, Meaning(Op::Contains);
    // the theory UnicodeStrings: replacements; those by languages are read and sorted alone
    b"str.replace": Three(String, String, String) => String, Replacement(Op::Replace);
    b"str.replace_all": Three(String, String, String) => String, Replacement(Op::ReplaceAll);
    b"str.replace_re": Three(String, RegLan, String) => String, Opaque;
    b"str.replace_re_all": Three(String, RegLan, String) => String, Opaque;
    // the theory UnicodeStrings: places in words, which are read and sorted alone
    b"str.at": Two(String, Int) => String, Opaque;
    b"str.substr": Three(String, Int, Int) => String, Opaque;
    b"str.indexof": Three(String, String, Int) => Int, Opaque;
    // the theory UnicodeStrings: the order of words, and conversions, which are read and sorted alone
    b"str.<": Many(String) => Bool, Opaque;
    b"str.<=": Many(String) => Bool, Opaque;
    b"str.to_code": One(String) => Int, Opaque;
    b"str.to_int": One(String) => Int, Opaque;
    b"str.from_code": One(Int) => String, Opaque;
    b"str.from_int": One(Int) => String, Opaque;
    // the theory UnicodeStrings: regular expressions
    b"str.to_re": One(String) => RegLan, TextOf;
    b"re.none": Nothing => RegLan, Empty;
    b"re.all": Nothing => RegLan, All;
    b"re.allchar": Nothing => RegLan, AnyChar;
    b"re.++": Each(RegLan) => RegLan, Concat;
    b"re.union": Each(RegLan) => RegLan, Union;
    b"re.inter": Each(RegLan) => RegLan, Inter;
    b"re.*": One(RegLan) => RegLan, Star;
    b"re.+": One(RegLan) => RegLan, Plus;
    b"re.opt": One(RegLan) => RegLan, Opt;
    b"re.comp": One(RegLan) => RegLan, Comp;
    b"re.diff": Many(RegLan) => RegLan, Diff;
    b"re.range": Two(String, String) => RegLan, Range;
};

static VERBS: [(&[u8], CommandName); 20] = [
    (b"set-logic", CommandName::SetLogic),
    (b"set-info", CommandName::SetInfo),
    (b"set-option", CommandName::SetOption),
    (b"declare-const", CommandName::DeclareConst),
    (b"declare-fun", CommandName::DeclareFun),
    (b"define-fun", CommandName::DefineFun),
    (b"define-transducer", CommandName::DefineTransducer),
    (b"assert", CommandName::Assert),
    (b"get-value", CommandName::GetValue),
    (b"push", CommandName::Push),
    (b"pop", CommandName::Pop),
    (b"check-sat", CommandName::CheckSat),
    (b"check-sat-assuming", CommandName::CheckSatAssuming),
    (b"get-model", CommandName::GetModel),
    (b"get-unsat-core", CommandName::GetUnsatCore),
    (b"get-info", CommandName::GetInfo),
    (b"echo", CommandName::Echo),
    (b"reset", CommandName::Reset),
    (b"reset-assertions", CommandName::ResetAssertions),
    (b"exit", CommandName::Exit),
];

static INDEXED_NAMES: [&[u8]; 3] = [b"re.^", b"re.loop", b"char"];

static TERM_WORDS: [&[u8]; 8] = [
    b"!", b"_", b"as", b"exists", b"forall", b"let", b"match", b"par",
];

static SORTS: [(&[u8], Sort); 4] = [
    (b"Bool", Sort::Bool),
    (b"Int", Sort::Int),
    (b"String", Sort::String),
    (b"RegLan", Sort::RegLan),
];

/// Whether the name is one of these, in time linear in their number.
fn stands_in(names: &[&[u8]], name: &[u8]) -> bool
    ensures { result ≡ list_any (λ n. s.same_name name.now n.now) names.now }
{
    names.iter().any(|n| name == *n)
}

/// What stands beside the name in a table, in time linear in the table.
fn find<T: Copy>(table: &[(&[u8], T)], name: &[u8]) -> Option<T>
    ensures { result ≡ lookup (λ n. s.same_name name.now n.now) table.now }
{
    for row in table {
        if name == row.0 {
            return Some(row.1);
        }
    }
    None
}

/// The function of this name, if it has no index. It takes a bounded number of comparisons.
pub fn function(name: &[u8]) -> Option<Function>
    ensures { result ≡ lookup (s.same_name name.now) s.signature }
{
    find(&SIGNATURE, name)
}

/// `((_ re.loop i j) r)`, and with one number twice `((_ re.^ n) r)`.
pub fn loop_from(i: u32, j: u32) -> Function
    ensures { result ≡ s.loop i j }
{
    Function {
        takes: ArgumentSorts::One(Sort::RegLan),
        gives: Sort::RegLan,
        sense: Interpretation::Loop(i, j),
    }
}

/// `(_ char #xH)`
pub fn character(c: u32) -> Function
    ensures { result ≡ s.character c }
{
    Function {
        takes: ArgumentSorts::Nothing,
        gives: Sort::String,
        sense: Interpretation::Character(c),
    }
}

/// Whether it is the name of a function with indices.
pub fn is_indexed(name: &[u8]) -> bool
    ensures { result ≡ s.stands_in s.indexed_names name.now }
{
    stands_in(&INDEXED_NAMES, name)
}

fn is_term_word(name: &[u8]) -> bool
    ensures { result ≡ s.stands_in s.term_words name.now }
{
    stands_in(&TERM_WORDS, name)
}

/// Whether the name can't be declared.
pub fn is_reserved(name: &[u8]) -> bool
    ensures { result ≡ s.is_reserved name.now }
{
    function(name).is_some() || is_indexed(name) || is_term_word(name)
}

fn named_sort(name: &[u8]) -> Option<Sort>
    ensures { result ≡ lookup (s.same_name name.now) s.sorts }
{
    find(&SORTS, name)
}

/// The sort, if it is a known one.
pub fn sort_of(item: &Sexpr) -> Option<Sort>
    ensures { result ≡ t.sort_of (seen item.now) }
{
    match symbol(item) {
        Some(text) => named_sort(bare_name(text)),
        None => None,
    }
}

fn named_truth(name: &[u8]) -> Option<bool>
    ensures { result ≡ lookup (s.same_name name.now) t.truths }
{
    match name {
        b"true" => Some(true),
        b"false" => Some(false),
        _ => None,
    }
}

/// `true` or `false`.
pub fn truth(item: &Sexpr) -> Option<bool>
    ensures { result ≡ t.truth (seen item.now) }
{
    match symbol(item) {
        Some(text) => named_truth(bare_name(text)),
        None => None,
    }
}

/// The command of this word.
pub fn verb(word: &[u8]) -> Option<CommandName>
    ensures { result ≡ lookup (s.same_name word.now) v.verbs }
{
    find(&VERBS, word)
}
