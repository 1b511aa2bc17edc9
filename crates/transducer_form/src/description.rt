// The written form of a transducer's description. Each takes time linear in the s-expression.
ghost use Rattle.std.specs.List.{list_all};
ghost use Rattle.std.specs.Option.{option_map};
ghost use Rattle.std.specs.Prelude.{◌≡◌, codes};
ghost use Rattle.smt_names.specs.Form.{seen, two};
ghost use Rattle.smt_names.specs.Tokens as t;
ghost use Rattle.transducer_form.specs.Written as w;

use sexpr_reader::Sexpr;
use smt_names::token::{bare_name, digits, list_items, literal_text, pair, symbol};

/// A transducer's description in its written form: its states, its start, its edges and its ends.
#[derive(Drop)]
pub struct Description<'a> {
    pub states: &'a [Sexpr],
    pub start: &'a Sexpr,
    pub edges: &'a [Sexpr],
    pub ends: &'a [Sexpr],
}

/// The parts of an edge.
#[derive(Drop)]
pub struct EdgeParts<'a> {
    pub from: &'a Sexpr,
    pub low: &'a Sexpr,
    pub high: &'a Sexpr,
    pub items: &'a [Sexpr],
    pub to: &'a Sexpr,
}

impl<'a> Description<'a> {
    /// The description of these parts, if they are in the written form.
    #[tactic(auto, using(crate::proofs::Listed::listed))]
    pub fn of(
        states: &'a Sexpr,
        start: &'a Sexpr,
        edges: &'a Sexpr,
        ends: &'a Sexpr,
    ) -> Option<Description<'a>>
        ensures { option_map w.description_seen result ≡ w.description_form (seen states.now) (seen start.now) (seen edges.now) (seen ends.now) }
    {
        let states = list_items(states)?;
        let edges = list_items(edges)?;
        let ends = list_items(ends)?;
        if are_symbols(states) && is_symbol(start) && are_edges(edges) && are_ends(ends) {
            Some(Description {
                states,
                start,
                edges,
                ends,
            })
        } else {
            None
        }
    }
}

/// The parts of an edge, if it is a list of five of which the fourth is a list.
#[tactic(auto, using(smt_names::specs::Shapes::shapes, crate::proofs::Five::fives))]
pub(crate) fn edge_parts(edge: &Sexpr) -> Option<EdgeParts<'_>>
    ensures { option_map w.edge_seen result ≡ w.edge_form (seen edge.now) }
{
    match edge {
        Sexpr::List(parts) => match parts.as_slice() {
            [from, low, high, items, to] => match list_items(items) {
                Some(items) => Some(EdgeParts {
                    from,
                    low,
                    high,
                    items,
                    to,
                }),
                None => None,
            },
            _ => None,
        },
        Sexpr::Atom(_, _) => None,
    }
}

fn is_symbol(part: &Sexpr) -> bool
    ensures { result ≡ w.is_symbol (seen part.now) }
{
    symbol(part).is_some()
}

fn is_text(part: &Sexpr) -> bool
    ensures { result ≡ w.is_text (seen part.now) }
{
    literal_text(part).is_some()
}

/// Whether it is the symbol `in`.
fn is_in(part: &Sexpr) -> bool
    ensures { result ≡ w.is_named (codes "in") (t.symbol (seen part.now)) }
{
    match symbol(part) {
        Some(text) => bare_name(text) == b"in".as_slice(),
        None => false,
    }
}

/// Whether it is the symbol `-`.
fn is_minus(part: &Sexpr) -> bool
    ensures { result ≡ w.is_named (codes "-") (t.symbol (seen part.now)) }
{
    match symbol(part) {
        Some(text) => bare_name(text) == b"-".as_slice(),
        None => false,
    }
}

/// Whether it is `(- K)`.
fn is_below(part: &Sexpr) -> bool
    ensures { result ≡ w.is_below (two (seen part.now)) }
{
    match pair(part) {
        Some((sign, amount)) => is_minus(sign) && digits(amount).is_some(),
        None => false,
    }
}

/// Whether it is `(in K)` or `(in (- K))`.
fn is_move(part: &Sexpr) -> bool
    ensures { result ≡ w.is_move (two (seen part.now)) }
{
    match pair(part) {
        Some((word, amount)) => is_in(word) && (digits(amount).is_some() || is_below(amount)),
        None => false,
    }
}

fn is_item(part: &Sexpr) -> bool
    ensures { result ≡ w.is_item (seen part.now) }
{
    is_text(part) || is_in(part) || is_move(part)
}

#[tactic(auto, using(crate::proofs::Listed::listed))]
fn is_edge(edge: &Sexpr) -> bool
    ensures { result ≡ w.is_edge (seen edge.now) }
{
    match edge_parts(edge) {
        Some(parts) => {
            is_symbol(parts.from)
                && is_text(parts.low)
                && is_text(parts.high)
                && are_items(parts.items)
                && is_symbol(parts.to)
        }
        None => false,
    }
}

#[tactic(auto, using(crate::proofs::Listed::listed))]
fn is_end(end: &Sexpr) -> bool
    ensures { result ≡ w.is_end (seen end.now) }
{
    match pair(end) {
        Some((state, words)) => match list_items(words) {
            Some(words) => is_symbol(state) && are_texts(words),
            None => false,
        },
        None => false,
    }
}

fn are_symbols(parts: &[Sexpr]) -> bool
    ensures { result ≡ list_all (λ part. w.is_symbol (seen part)) parts.now }
{
    parts.iter().all(is_symbol)
}

fn are_texts(parts: &[Sexpr]) -> bool
    ensures { result ≡ list_all (λ part. w.is_text (seen part)) parts.now }
{
    parts.iter().all(is_text)
}

fn are_items(parts: &[Sexpr]) -> bool
    ensures { result ≡ list_all (λ part. w.is_item (seen part)) parts.now }
{
    parts.iter().all(is_item)
}

fn are_edges(parts: &[Sexpr]) -> bool
    ensures { result ≡ list_all (λ part. w.is_edge (seen part)) parts.now }
{
    parts.iter().all(is_edge)
}

fn are_ends(parts: &[Sexpr]) -> bool
    ensures { result ≡ list_all (λ part. w.is_end (seen part)) parts.now }
{
    parts.iter().all(is_end)
}
