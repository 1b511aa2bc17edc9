// What the parts of a term add to its weight.
ghost use Rattle.std.specs.Prelude.{◌≡◌, true};
ghost use Rattle.term_weight.specs.Summaries as sums;

use crate::weight::{Weight, is_literal, is_unknown};

/// What a part adds to the weight of what it stands in: its nodes, the deepest place in it, and
/// whether it holds an unknown. Numbers end as those of a weight.
#[derive(Clone, Copy)]
pub struct Share {
    pub nodes: u32,
    pub nesting: u32,
    pub is_unknown: bool,
}

impl Share {
    /// A part of this weight, that deep.
    pub fn of(weight: Weight, depth: u32) -> Share
        ensures { result ≡ sums.share depth weight }
    {
        Share {
            nodes: weight.nodes,
            nesting: depth.saturating_add(weight.nesting),
            is_unknown: is_unknown(weight.factor),
        }
    }

    pub fn nothing() -> Share
        ensures { result ≡ sums.nothing }
    {
        Share {
            nodes: 0,
            nesting: 0,
            is_unknown: false,
        }
    }

    /// An unknown of no size.
    pub fn unknown() -> Share
        ensures { result ≡ sums.unknown_if true }
    {
        Share {
            nodes: 0,
            nesting: 0,
            is_unknown: true,
        }
    }

    /// Two parts of one whole.
    pub fn plus(self, other: Share) -> Share
        ensures { result ≡ sums.plus self other }
    {
        Share {
            nodes: self.nodes.saturating_add(other.nodes),
            nesting: self.nesting.max(other.nesting),
            is_unknown: self.is_unknown || other.is_unknown,
        }
    }
}

/// Where a parameter stands: how often, the deepest place if it does, and whether once right under
/// a length, which is unknown but for a literal.
#[derive(Clone, Copy)]
pub struct Uses {
    pub count: u32,
    pub deepest: Option<u32>,
    pub is_measured: bool,
}

/// How deep an argument of this nesting comes to stand.
fn reach(deepest: Option<u32>, nesting: u32) -> u32
    ensures { result ≡ sums.reach deepest nesting }
{
    match deepest {
        Some(depth) => depth.saturating_add(nesting),
        None => 0,
    }
}

/// The deeper of two places, where the first may be missing.
fn deeper(deepest: Option<u32>, depth: u32) -> u32
    ensures { result ≡ sums.deeper deepest depth }
{
    match deepest {
        Some(other) => other.max(depth),
        None => depth,
    }
}

impl Uses {
    pub fn none() -> Uses
        ensures { result ≡ sums.unused }
    {
        Uses {
            count: 0,
            deepest: None,
            is_measured: false,
        }
    }

    /// One more, that deep.
    pub fn with(self, depth: u32) -> Uses
        ensures { result ≡ sums.used_at depth self }
    {
        Uses {
            count: self.count.saturating_add(1),
            deepest: Some(deeper(self.deepest, depth)),
            is_measured: self.is_measured,
        }
    }

    /// One of them right under a length.
    pub fn measured_use(self) -> Uses
        ensures { result ≡ sums.measured self }
    {
        Uses {
            count: self.count,
            deepest: self.deepest,
            is_measured: true,
        }
    }

    /// What the parameter adds with an argument of this weight in its place.
    pub fn share(self, weight: Weight) -> Share
        ensures { result ≡ sums.used self weight }
    {
        let stands = self.deepest.is_some() && is_unknown(weight.factor);
        let measures = self.is_measured && !is_literal(weight.factor);
        Share {
            nodes: self.count.saturating_mul(weight.nodes),
            nesting: reach(self.deepest, weight.nesting),
            is_unknown: stands || measures,
        }
    }
}
