ghost use Rattle.std.specs.Prelude.{◌≡◌, map, length, ◌||◌};
ghost use Rattle.std.specs.List.{list_all, list_any, filter};
ghost use Rattle.term_weight.specs.Bodies as b;
ghost use Rattle.term_weight.specs.Sizes as z;
ghost use Rattle.term_weight.specs.Weights as w;

use sv_terms::{MOST_NESTING, MOST_NODES, Op, Sort};

/// What a factor of a product is: a literal word, something without unknowns, or something that
/// holds an unknown: a constant, the length of a term that is no literal, or an opaque part.
#[derive(Clone, Copy)]
pub enum Factor {
    Literal,
    Known,
    Unknown,
}

/// What is known of a term or regular expression before it is built. Numbers end at 2^32 - 1,
/// which stands for all that are larger.
#[derive(Clone, Copy)]
pub struct Weight {
    pub sort: Sort,
    pub factor: Factor,
    /// Whether it is a regular expression without opaque parts.
    pub is_language: bool,
    pub nodes: u32,
    pub nesting: u32,
}

impl Weight {
    /// A term of one node.
    pub fn leaf(sort: Sort, factor: Factor) -> Weight
        ensures { result ≡ w.leaf sort factor }
    {
        Weight {
            sort,
            factor,
            is_language: false,
            nodes: 1,
            nesting: 0,
        }
    }

    /// An opaque term.
    pub fn opaque(sort: Sort) -> Weight
        ensures { result ≡ w.opaque_weight sort }
    {
        Weight::leaf(sort, Factor::Unknown)
    }

    /// A regular expression of this size.
    pub(crate) fn language(nodes: u32, nesting: u32) -> Weight
        ensures { result ≡ w.language nodes nesting }
    {
        Weight {
            sort: Sort::RegLan,
            factor: Factor::Known,
            is_language: true,
            nodes,
            nesting,
        }
    }

    /// Whether it isn't too large.
    pub fn fits(&self) -> bool
        ensures { result ≡ w.weight_fits self.now }
    {
        self.nodes <= MOST_NODES && self.nesting <= MOST_NESTING
    }

    /// What stands in its place where a term is wanted: a regular expression is opaque there.
    pub(crate) fn as_term(self) -> Weight
        ensures { result ≡ w.as_term self }
    {
        if self.is_language {
            Weight::opaque(Sort::RegLan)
        } else {
            self
        }
    }

    /// The part as it counts where terms are wanted, or as it is.
    fn count(self, as_terms: bool) -> Weight
        ensures { result ≡ w.counted as_terms self }
    {
        if as_terms { self.as_term() } else { self }
    }
}

/// Unknown where it holds one.
pub(crate) fn holds(unknown: bool) -> Factor
    ensures { result ≡ b.holds unknown }
{
    if unknown {
        Factor::Unknown
    } else {
        Factor::Known
    }
}

pub(crate) fn is_unknown(factor: Factor) -> bool
    ensures { result ≡ b.is_unknown factor }
{
    match factor {
        Factor::Unknown => true,
        _ => false,
    }
}

pub(crate) fn is_literal(factor: Factor) -> bool
    ensures { result ≡ w.is_literal factor }
{
    match factor {
        Factor::Literal => true,
        _ => false,
    }
}

/// One node more than these have.
#[tactic(auto, using(crate::proofs::Sums::sums))]
fn nodes(weights: &[Weight], as_terms: bool) -> u32
    ensures { result ≡ w.capped (z.one_more (map (λ x. x.nodes) (map (w.counted as_terms) weights.now))) }
{
    let mut n: u32 = 1;
    for weight in weights {
        n = n.saturating_add(weight.count(as_terms).nodes);
    }
    n
}

/// One level more than the deepest of these; none where there are none.
#[tactic(auto, using(crate::proofs::Sums::sums))]
fn nesting(weights: &[Weight], as_terms: bool) -> u32
    ensures { result ≡ w.capped (z.one_deeper (map (λ x. x.nesting) (map (w.counted as_terms) weights.now))) }
{
    let mut n: u32 = 0;
    for weight in weights {
        n = n.max(weight.count(as_terms).nesting.saturating_add(1));
    }
    n
}

/// A function of parts of these weights.
fn weight_around(
    sort: Sort,
    factor: Factor,
    is_language: bool,
    weights: &[Weight],
    as_terms: bool,
) -> Weight
    ensures { result ≡ w.around sort factor is_language (map (w.counted as_terms) weights.now) }
{
    Weight {
        sort,
        factor,
        is_language,
        nodes: nodes(weights, as_terms),
        nesting: nesting(weights, as_terms),
    }
}

/// How many hold an unknown.
#[tactic(auto, using(crate::proofs::Sums::sums))]
pub(crate) fn unknowns(weights: &[Weight]) -> usize
    ensures { result ≡ length (filter (λ x. b.is_unknown x.factor) weights.now) }
{
    weights.iter().filter(|w| is_unknown(w.factor)).count()
}

/// Whether one holds an unknown, each taken as a term.
#[tactic(auto, using(crate::proofs::Sums::sums))]
fn any_unknown(weights: &[Weight]) -> bool
    ensures { result ≡ list_any b.is_unknown (map (λ x. x.factor) (map w.as_term weights.now)) }
{
    for weight in weights {
        if is_unknown(weight.as_term().factor) {
            return true;
        }
    }
    false
}

#[tactic(auto, using(crate::proofs::Sums::sums))]
pub(crate) fn are_languages(weights: &[Weight]) -> bool
    ensures { result ≡ list_all (λ x. x.is_language) weights.now }
{
    for weight in weights {
        if !weight.is_language {
            return false;
        }
    }
    true
}

fn op_factor(op: Op, weights: &[Weight]) -> Factor
    ensures { result ≡ b.applied_factor op (map (λ x. x.factor) (map w.as_term weights.now)) }
{
    match op {
        Op::Length => match weights {
            [word] => holds(!is_literal(word.as_term().factor)),
            _ => Factor::Unknown,
        },
        _ => holds(any_unknown(weights)),
    }
}

/// A function with a meaning at terms of these weights.
pub(crate) fn op_weight(op: Op, weights: &[Weight]) -> Weight
    ensures { result ≡ w.op_weight op (map w.as_term weights.now) }
{
    weight_around(op.sort(), op_factor(op, weights), false, weights, true)
}

/// The membership of a word in a regular expression of these weights.
pub(crate) fn weigh_membership(word: Weight, regex: Weight) -> Weight
    ensures { result ≡ w.in_weight (w.as_term word) regex }
{
    let word = word.as_term();
    weight_around(
        Sort::Bool,
        holds(is_unknown(word.factor)),
        false,
        &[word, regex],
        false,
    )
}

/// What a transducer relates, of these weights.
pub(crate) fn related_weight(read: Weight, written: Weight) -> Weight
    ensures { result ≡ w.related_weight (w.as_term read) (w.as_term written) }
{
    let read = read.as_term();
    let written = written.as_term();
    let unknown = is_unknown(read.factor) || is_unknown(written.factor);
    weight_around(Sort::Bool, holds(unknown), false, &[read, written], false)
}

pub(crate) fn combined_weight(weights: &[Weight]) -> Weight
    ensures { result ≡ w.combined_weight weights.now }
{
    weight_around(Sort::RegLan, Factor::Known, true, weights, false)
}

/// Of any other number of parts than one none is made.
pub(crate) fn one_weight(weights: &[Weight]) -> Weight
    ensures { result ≡ w.one_weight weights.now }
{
    match weights {
        [_] => combined_weight(weights),
        _ => Weight::language(1, 0),
    }
}
