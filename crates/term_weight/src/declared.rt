ghost use Rattle.term_weight.specs.Summaries.{Summarises};

use crate::summary::Summary;
use sv_terms::{Body, Name, Sort, Transducer};

/// A macro: its parameters in their order, its body over them, and what its calls weigh.
#[derive(Clone, Copy)]
pub struct Macro<'a> {
    pub parameters: &'a [(Name, Sort)],
    pub body: &'a Body,
    pub summary: &'a Summary,
    pub ghost summarised: { Summarises summary.now parameters.now body.now },
}

/// What a name was declared for.
#[derive(Clone, Copy)]
pub enum Declared<'a> {
    Constant(Sort),
    Macro(Macro<'a>),
    Machine(&'a Transducer),
}
