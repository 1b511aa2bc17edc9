ghost use Rattle.std.specs.Prelude.{◌≡◌, [], map, slice_get, IfOk};
ghost use Rattle.term_weight.specs.Bodies.{body_sort as sort_of, opaque as no_meaning, called, related};
ghost use Rattle.term_draft.specs.Drafts.{Adds, Calls, argument_place, if_term, sense, senses, at_place, at_places};
ghost use Rattle.term_weight.specs.Ranks.{applied};
ghost use Rattle.term_weight.specs.Sizes.{fits as is_fit};
ghost use Rattle.term_weight.specs.Weights.{weight_of};

use smt_names::{Function, Interpretation};
use std::alloc::{AllocError, Global};
use std::marker::Model;
use sv_list::Items;
use sv_terms::{Body, Name, Sort, Term, Transducer};
use sv_word::Word;
use term_weight::{Factor, Macro, Weight, opacity, pair_weight, plain_weight, room};

/// A part of a term that is read and not built yet. Parts are named by their places; a part names
/// parts before it alone.
#[derive(Drop)]
pub enum DraftNode<'a> {
    /// This, as it stands.
    Leaf(Body),
    /// An application that isn't opaque.
    Applied(Interpretation, Items<usize>),
    /// The body of a macro with the arguments in the place of its parameters.
    Called(&'a [(Name, Sort)], &'a Body, Items<usize>),
    /// What the transducer reads, and what it may write.
    Related(&'a Transducer, Items<usize>),
}

/// A part and its weight.
#[derive(Drop)]
pub struct DraftPart<'a> {
    pub node: DraftNode<'a>,
    pub weight: Weight,
}

/// Parts in their order. A part that is used many times, as the value of a `let` is, stands once,
/// so that nothing is put in before the size is known.
///
/// Contracts see the list of what the parts are, with everything put in.
#[derive(Drop)]
pub struct TermDraft<'a> {
    parts: Items<DraftPart<'a>>,
}

impl<'a> Model for TermDraft<'a> {
    ghost use Rattle.std.specs.Prelude.{List, ◌≡◌, map};
    ghost use Rattle.std.specs.Coded.{codes};
    ghost use Rattle.sv_terms.specs.contracts.regex.Regex as regex;
    ghost use Rattle.sv_terms.specs.contracts.term.Term as term;
    ghost use Rattle.sv_terms.specs.declared.entry.Body.{Body as Meaning};
    ghost use Rattle.term_draft.specs.Drafts.{senses};
    ghost use Rattle.term_weight.specs.Weights.{weight_of};

    ghost Value = { List Meaning };

    ghost coded = { Prim.hlevel (codes, regex.the_row.coded, term.the_row.coded) };

    ghost view = { λ x. senses x.parts };

    ghost invariant = { λ x. map (λ p. p.weight) x.parts ≡ map weight_of (senses x.parts) };
}

impl<'a> TermDraft<'a> {
    /// No parts.
    pub fn new(alloc: Global) -> TermDraft<'a>
        ensures { result ≡ [] }
    {
        TermDraft {
            parts: Items::new(alloc),
        }
    }

    /// Adds a part of this weight.
    #[tactic(auto, using(crate::proofs::Drafting::drafting))]
    fn put(&mut self, node: DraftNode<'a>, weight: Weight) -> Result<usize, AllocError>
        requires { weight ≡ weight_of (sense self.old node) }
        ensures { Adds (sense self.old node.entry) self.old self.new result }
    {
        let place = self.parts.len();
        self.parts.push(DraftPart { node, weight })?;
        Ok(place)
    }

    fn put_leaf(&mut self, term: Term, weight: Weight) -> Result<usize, AllocError>
        requires { weight ≡ weight_of (Body.Term term) }
        ensures { Adds (Body.Term term) self.old self.new result }
    {
        self.put(DraftNode::Leaf(Body::Term(term)), weight)
    }

    /// Adds an opaque part, and answers its place.
    #[tactic(auto, using(term_weight::specs::LayerLaws::weights))]
    pub fn put_opaque(&mut self, sort: Sort) -> Result<usize, AllocError>
        ensures { Adds (no_meaning sort) self.old self.new result }
    {
        self.put_leaf(Term::Opaque(sort), Weight::opaque(sort))
    }

    /// Adds a constant, and answers its place.
    #[tactic(auto, using(term_weight::specs::LayerLaws::weights))]
    pub fn put_constant(&mut self, name: Name, sort: Sort) -> Result<usize, AllocError>
        ensures { Adds (Body.Term (Term.Constant name sort)) self.old self.new result }
    {
        let weight = Weight::leaf(sort, Factor::Unknown);
        self.put_leaf(Term::Constant(name, sort), weight)
    }

    /// Adds a number, and answers its place.
    #[tactic(auto, using(term_weight::specs::LayerLaws::weights))]
    pub fn put_number(&mut self, n: i128) -> Result<usize, AllocError>
        ensures { Adds (Body.Term (Term.Number n)) self.old self.new result }
    {
        self.put_leaf(Term::Number(n), Weight::leaf(Sort::Int, Factor::Known))
    }

    /// Adds a literal, and answers its place.
    #[tactic(auto, using(term_weight::specs::LayerLaws::weights))]
    pub fn put_word(&mut self, word: Word) -> Result<usize, AllocError>
        ensures { Adds (Body.Term (Term.Text word)) self.old self.new result }
    {
        let weight = Weight::leaf(Sort::String, Factor::Literal);
        self.put_leaf(Term::Text(word), weight)
    }

    /// Adds what a function of the theories is at the arguments at these places, and answers its
    /// place. Linear in their number.
    pub fn put_applied(
        &mut self,
        alloc: Global,
        function: Function,
        places: Items<usize>,
    ) -> Result<usize, AllocError>
        ensures { Adds (applied function (at_places self.old places)) self.old self.new result }
    {
        let weights = self.weights(alloc, places.as_slice())?;
        let weights = weights.as_slice();
        match opacity(function.gives, function.sense, weights) {
            Some(sort) => self.put_opaque(sort),
            None => {
                let weight = plain_weight(function.sense, weights);
                self.put(DraftNode::Applied(function.sense, places), weight)
            }
        }
    }

    /// The place of the body of a macro with the arguments at these places in the place of its
    /// parameters. It is added, but where the body is a parameter alone: then it is the argument, a
    /// term, and its place is the answer, so that a chain of such calls goes no deeper than what it
    /// means. Linear in the parameters and the arguments.
    #[tactic(auto, using(crate::proofs::Calling::calling))]
    pub fn put_called(
        &mut self,
        alloc: Global,
        defined: Macro<'a>,
        places: Items<usize>,
    ) -> Result<usize, AllocError>
        ensures { Calls (argument_place self.old defined.entry.parameters.now defined.entry.body.now places) (called defined.entry.parameters.now defined.entry.body.now (at_places self.old places)) self.old self.new result }
    {
        match self.argument(defined, places.as_slice()) {
            Some(place) => Ok(place),
            None => self.put_call(alloc, defined, places),
        }
    }

    /// Adds a call, whatever it is.
    fn put_call(
        &mut self,
        alloc: Global,
        defined: Macro<'a>,
        places: Items<usize>,
    ) -> Result<usize, AllocError>
        ensures { Adds (called defined.entry.parameters.now defined.entry.body.now (at_places self.old places)) self.old self.new result }
    {
        let weights = self.weights(alloc, places.as_slice())?;
        let weight = defined.summary.weight(weights.as_slice());
        self.put(
            DraftNode::Called(defined.parameters, defined.body, places),
            weight,
        )
    }

    /// The place of the argument that a call is, if it is one.
    #[tactic(auto, using(crate::proofs::Calling::arguing))]
    fn argument(&self, defined: Macro<'_>, places: &[usize]) -> Option<usize>
        ensures { result ≡ argument_place self.now defined.entry.parameters.now defined.entry.body.now places.now }
    {
        match defined.summary.parameter() {
            Some(parameter) => match places.get(parameter) {
                Some(place) => self.term_place(*place),
                None => None,
            },
            None => None,
        }
    }

    /// This place, if a term is there.
    #[tactic(auto, using(crate::proofs::Calling::standing))]
    fn term_place(&self, place: usize) -> Option<usize>
        ensures { result ≡ if_term place (slice_get self.now place) }
    {
        match self.parts.get(place) {
            Some(part) => {
                if part.weight.is_language {
                    None
                } else {
                    Some(place)
                }
            }
            None => None,
        }
    }

    /// Adds that a transducer may write the second of two terms where it reads the first, and
    /// answers its place. Constant.
    pub fn put_related(
        &mut self,
        alloc: Global,
        transducer: &'a Transducer,
        places: Items<usize>,
    ) -> Result<usize, AllocError>
        ensures { Adds (related transducer.now (at_places self.old places)) self.old self.new result }
    {
        let weights = self.weights(alloc, places.as_slice())?;
        let weight = pair_weight(weights.as_slice());
        self.put(DraftNode::Related(transducer, places), weight)
    }

    #[tactic(auto, using(crate::proofs::Drafting::drafting))]
    fn weight(&self, place: usize) -> Weight
        ensures { result ≡ weight_of (at_place self.now place) }
    {
        match self.parts.get(place) {
            Some(part) => part.weight,
            None => Weight::opaque(Sort::Bool),
        }
    }

    #[tactic(auto, using(crate::proofs::Drafting::drafting))]
    fn weights(&self, alloc: Global, places: &[usize]) -> Result<Items<Weight>, AllocError>
        ensures { IfOk result (λ ws. ws ≡ map weight_of (at_places self.now places.now)) }
    {
        let mut all = room(alloc, places.len())?;
        for place in places {
            all.push(self.weight(*place))?;
        }
        Ok(all)
    }

    /// The sort of the part at a place. Constant.
    pub fn sort(&self, place: usize) -> Sort
        ensures { result ≡ sort_of (at_place self.now place) }
    {
        self.weight(place).sort
    }

    /// The sorts of the parts at these places. Linear in their number.
    #[tactic(auto, using(crate::proofs::Drafting::drafting))]
    pub fn sorts(&self, alloc: Global, places: &[usize]) -> Result<Items<Sort>, AllocError>
        ensures { IfOk result (λ ss. ss ≡ map sort_of (at_places self.now places.now)) }
    {
        let mut all = room(alloc, places.len())?;
        for place in places {
            all.push(self.sort(*place))?;
        }
        Ok(all)
    }

    /// Whether the part at a place isn't too large: at most 1,048,576 nodes, nested at most 1,000
    /// deep. Constant.
    #[tactic(auto, using(crate::proofs::Drafting::fitting))]
    pub fn fits(&self, place: usize) -> bool
        ensures { result ≡ is_fit (at_place self.now place) }
    {
        self.weight(place).fits()
    }

    /// The parts in their order.
    pub(crate) fn parts(&self) -> &[DraftPart<'a>]
        ensures { senses result.now ≡ self.now }
    {
        self.parts.as_slice()
    }
}
