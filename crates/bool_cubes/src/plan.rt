//! Trees by nodes, and the nodes of formulas made of formulas.
ghost use Rattle.std.specs.Prelude.{◌≡◌, ◌∷◌, [], ◌<◌, IfOk, length, true};
ghost use Rattle.sv_terms.specs.declared.op.Op.TheVariants as op;
ghost use Rattle.sv_terms.specs.declared.term.Term.TheVariants as any_term;
ghost use Rattle.bool_cubes.specs.Cubes.{count};
ghost use Rattle.bool_cubes.specs.Nodes.{AreOf, IsAddedNode, IsLonger, IsOfEarlier, IsPlan, IsPlanned, HasBothTrees, made, tree_at, trees_of};
ghost use Rattle.sv_terms.specs.CutOff.{cut_off};
ghost use Rattle.bool_cubes.specs.Trees.{Formula, agreement, always, atom, both, choice, comparison, conjoined, disjoined, either, equal_numbers, fixed, implication, never, one};

use crate::node::{CubeNode, NodeKind, NodePair};
use literal_forms::Literal;
use std::alloc::{AllocError, Global};
use sv_list::Items;
use sv_terms::{Op, Term};

/// Trees by nodes: each node is made of earlier ones, so a tree that stands in several is kept once.
#[derive(Drop)]
pub struct Plan {
    pub nodes: Items<CubeNode>,
}

impl Plan {
    pub fn new(alloc: Global) -> Plan
        ensures { IsPlan result.nodes }
    {
        Plan {
            nodes: Items::new(alloc),
        }
    }

    /// The number of cubes of a node's tree, 2^64 - 1 where they are more.
    pub fn count_at(&self, node: usize) -> u64
        requires plan { IsPlan self.now.nodes }
        requires node { node < length self.now.nodes }
        ensures { result ≡ cut_off (count (tree_at self.now.nodes node)) }
    {
        self.nodes.as_slice()[node].cubes
    }

    fn push(&mut self, kind: NodeKind, cubes: u64) -> Result<usize, AllocError>
        requires plan { IsPlan self.old.nodes }
        requires earlier { IsOfEarlier (length self.old.nodes) kind }
        requires cubes { cubes ≡ cut_off (count (made (trees_of self.old.nodes) kind)) }
        ensures { IfOk result (λ k. IsAddedNode self.old.nodes self.new.nodes k (made (trees_of self.old.nodes) kind)) }
    {
        let at = self.nodes.len();
        self.nodes.push(CubeNode { kind, cubes })?;
        Ok(at)
    }

    fn push_always(&mut self) -> Result<usize, AllocError>
        requires { IsPlan self.old.nodes }
        ensures { IfOk result (λ k. IsAddedNode self.old.nodes self.new.nodes k always) }
    {
        self.push(NodeKind::Always, 1)
    }

    fn push_never(&mut self) -> Result<usize, AllocError>
        requires { IsPlan self.old.nodes }
        ensures { IfOk result (λ k. IsAddedNode self.old.nodes self.new.nodes k never) }
    {
        self.push(NodeKind::Never, 0)
    }

    fn one(&mut self, literal: Literal) -> Result<usize, AllocError>
        requires { IsPlan self.old.nodes }
        ensures { IfOk result (λ k. IsAddedNode self.old.nodes self.new.nodes k (one literal)) }
    {
        self.push(NodeKind::One(literal), 1)
    }

    #[tactic(auto, using(crate::proofs::Plans::both_cubes))]
    fn both(&mut self, left: usize, right: usize) -> Result<usize, AllocError>
        requires plan { IsPlan self.old.nodes }
        requires left { left < length self.old.nodes }
        requires right { right < length self.old.nodes }
        ensures { IfOk result (λ k. IsAddedNode self.old.nodes self.new.nodes k (both (tree_at self.old.nodes left) (tree_at self.old.nodes right))) }
    {
        let cubes = {
            let nodes = self.nodes.as_slice();
            nodes[left].cubes.saturating_mul(nodes[right].cubes)
        };
        self.push(NodeKind::Both(left, right), cubes)
    }

    #[tactic(auto, using(crate::proofs::Plans::either_cubes))]
    fn either(&mut self, left: usize, right: usize) -> Result<usize, AllocError>
        requires plan { IsPlan self.old.nodes }
        requires left { left < length self.old.nodes }
        requires right { right < length self.old.nodes }
        ensures { IfOk result (λ k. IsAddedNode self.old.nodes self.new.nodes k (either (tree_at self.old.nodes left) (tree_at self.old.nodes right))) }
    {
        let cubes = {
            let nodes = self.nodes.as_slice();
            nodes[left].cubes.saturating_add(nodes[right].cubes)
        };
        self.push(NodeKind::Either(left, right), cubes)
    }

    // The first two, or the last two.
    #[tactic(auto, using(crate::proofs::Plans::longer_trans))]
    fn two_ways(&mut self, a: usize, b: usize, c: usize, d: usize) -> Result<usize, AllocError>
        requires plan { IsPlan self.old.nodes }
        requires a { a < length self.old.nodes }
        requires b { b < length self.old.nodes }
        requires c { c < length self.old.nodes }
        requires d { d < length self.old.nodes }
        ensures { IfOk result (λ k. IsAddedNode self.old.nodes self.new.nodes k (either (both (tree_at self.old.nodes a) (tree_at self.old.nodes b)) (both (tree_at self.old.nodes c) (tree_at self.old.nodes d)))) }
    {
        let first = self.both(a, b)?;
        let second = self.both(c, d)?;
        self.either(first, second)
    }

    /// The nodes of `true` or of `false`.
    #[tactic(auto, using(crate::proofs::Plans::two_added, crate::proofs::Plans::turned))]
    pub fn settle(&mut self, value: bool) -> Result<NodePair, AllocError>
        requires { IsPlan self.old.nodes }
        ensures { IfOk result (λ s. IsPlanned self.old.nodes self.new.nodes s (fixed value)) }
    {
        let holding = self.push_always()?;
        let failing = self.push_never()?;
        let sides = NodePair { holding, failing };
        Ok(if value { sides } else { sides.negation() })
    }

    // The node of a term as a literal.
    fn plan_literal(
        &mut self,
        alloc: Global,
        term: &Term,
        positive: bool,
    ) -> Result<usize, AllocError>
        requires { IsPlan self.old.nodes }
        ensures { IfOk result (λ k. IsAddedNode self.old.nodes self.new.nodes k (atom term.now positive)) }
    {
        let atom = term.copy(alloc)?;
        self.one(Literal { atom, positive })
    }

    /// The nodes of a term that is a literal.
    #[tactic(auto, using(crate::proofs::Plans::two_added))]
    pub fn atom(&mut self, alloc: Global, term: &Term) -> Result<NodePair, AllocError>
        requires { IsPlan self.old.nodes }
        ensures { IfOk result (λ s. IsPlanned self.old.nodes self.new.nodes s (atom term.now)) }
    {
        let holding = self.plan_literal(alloc, term, true)?;
        let failing = self.plan_literal(alloc, term, false)?;
        Ok(NodePair { holding, failing })
    }

    fn plan_comparison(
        &mut self,
        alloc: Global,
        op: Op,
        left: &Term,
        right: &Term,
        positive: bool,
    ) -> Result<usize, AllocError>
        requires { IsPlan self.old.nodes }
        ensures { IfOk result (λ k. IsAddedNode self.old.nodes self.new.nodes k (comparison op left.now right.now positive)) }
    {
        let atom = comparison_of(alloc, op, left, right)?;
        self.one(Literal { atom, positive })
    }

    /// The nodes of a function of two terms as a literal.
    #[tactic(auto, using(crate::proofs::Plans::two_added))]
    pub fn comparison(
        &mut self,
        alloc: Global,
        op: Op,
        left: &Term,
        right: &Term,
    ) -> Result<NodePair, AllocError>
        requires { IsPlan self.old.nodes }
        ensures { IfOk result (λ s. IsPlanned self.old.nodes self.new.nodes s (comparison op left.now right.now)) }
    {
        let holding = self.plan_comparison(alloc, op, left, right, true)?;
        let failing = self.plan_comparison(alloc, op, left, right, false)?;
        Ok(NodePair { holding, failing })
    }

    /// The nodes of an equality of whole numbers: its negation is that the first is less or greater.
    #[tactic(auto, using(crate::proofs::Plans::two_added, crate::proofs::Plans::longer_trans, crate::proofs::Plans::added_trans))]
    pub fn equal_numbers(
        &mut self,
        alloc: Global,
        left: &Term,
        right: &Term,
    ) -> Result<NodePair, AllocError>
        requires { IsPlan self.old.nodes }
        ensures { IfOk result (λ s. IsPlanned self.old.nodes self.new.nodes s (equal_numbers left.now right.now)) }
    {
        let holding = self.plan_comparison(alloc, Op::Equal, left, right, true)?;
        let less = self.plan_comparison(alloc, Op::Less, left, right, true)?;
        let greater = self.plan_comparison(alloc, Op::Greater, left, right, true)?;
        let failing = self.either(less, greater)?;
        Ok(NodePair { holding, failing })
    }

    /// The nodes of an and of two.
    #[tactic(auto, using(crate::proofs::Plans::and_added, crate::proofs::Plans::or_within, crate::proofs::Plans::longer_trans, crate::proofs::Plans::stands_longer))]
    pub fn and(&mut self, left: NodePair, right: NodePair) -> Result<NodePair, AllocError>
        requires plan { IsPlan self.old.nodes }
        requires left { AreOf self.old.nodes left }
        requires right { AreOf self.old.nodes right }
        ensures longer { IfOk result (λ s. IsLonger self.old.nodes self.new.nodes) }
        ensures within { IfOk result (λ s. AreOf self.new.nodes s) }
        ensures formula { (f g : Formula) → HasBothTrees self.old.nodes left f → HasBothTrees self.old.nodes right g → IfOk result (λ s. IsPlanned self.old.nodes self.new.nodes s (conjoined f g)) }
    {
        let holding = self.both(left.holding, right.holding)?;
        let failing = self.either(left.failing, right.failing)?;
        Ok(NodePair { holding, failing })
    }

    /// The nodes of an or of two: its negation is the and of their negations.
    #[tactic(auto, using(crate::proofs::Plans::turned_within))]
    pub fn or(&mut self, left: NodePair, right: NodePair) -> Result<NodePair, AllocError>
        requires plan { IsPlan self.old.nodes }
        requires left { AreOf self.old.nodes left }
        requires right { AreOf self.old.nodes right }
        ensures longer { IfOk result (λ s. IsLonger self.old.nodes self.new.nodes) }
        ensures within { IfOk result (λ s. AreOf self.new.nodes s) }
        ensures formula { (f g : Formula) → HasBothTrees self.old.nodes left f → HasBothTrees self.old.nodes right g → IfOk result (λ s. IsPlanned self.old.nodes self.new.nodes s (disjoined f g)) }
    {
        let failing = self.and(left.negation(), right.negation())?;
        Ok(failing.negation())
    }

    /// The nodes of this: the first fails or the second holds.
    #[tactic(auto, using(crate::proofs::Plans::stands_of, crate::proofs::Plans::stands_longer, crate::proofs::Plans::longer_trans, crate::proofs::Plans::turned_within, crate::proofs::Plans::within_longer))]
    pub fn implication(&mut self, left: NodePair, right: NodePair) -> Result<NodePair, AllocError>
        requires plan { IsPlan self.old.nodes }
        requires left { AreOf self.old.nodes left }
        requires right { AreOf self.old.nodes right }
        ensures { (f g : Formula) → HasBothTrees self.old.nodes left f → HasBothTrees self.old.nodes right g → IfOk result (λ s. IsPlanned self.old.nodes self.new.nodes s (implication f g)) }
    {
        let never = self.settle(false)?;
        let last = self.or(right, never)?;
        self.or(left.negation(), last)
    }

    /// The nodes of an equality of two formulas.
    #[tactic(auto, using(crate::proofs::Plans::agreement_added, crate::proofs::Plans::stands_longer))]
    pub fn agreement(&mut self, left: NodePair, right: NodePair) -> Result<NodePair, AllocError>
        requires plan { IsPlan self.old.nodes }
        requires left { AreOf self.old.nodes left }
        requires right { AreOf self.old.nodes right }
        ensures { (f g : Formula) → HasBothTrees self.old.nodes left f → HasBothTrees self.old.nodes right g → IfOk result (λ s. IsPlanned self.old.nodes self.new.nodes s (agreement f g)) }
    {
        let holding = self.two_ways(left.holding, right.holding, left.failing, right.failing)?;
        let failing = self.two_ways(left.holding, right.failing, left.failing, right.holding)?;
        Ok(NodePair { holding, failing })
    }

    /// The nodes of the choice between two formulas by a third.
    #[tactic(auto, using(crate::proofs::Plans::choice_added, crate::proofs::Plans::stands_longer))]
    pub fn choice(
        &mut self,
        test: NodePair,
        first: NodePair,
        second: NodePair,
    ) -> Result<NodePair, AllocError>
        requires plan { IsPlan self.old.nodes }
        requires test { AreOf self.old.nodes test }
        requires first { AreOf self.old.nodes first }
        requires second { AreOf self.old.nodes second }
        ensures { (c f g : Formula) → HasBothTrees self.old.nodes test c → HasBothTrees self.old.nodes first f → HasBothTrees self.old.nodes second g → IfOk result (λ s. IsPlanned self.old.nodes self.new.nodes s (choice c f g)) }
    {
        let holding = self.two_ways(test.holding, first.holding, test.failing, second.holding)?;
        let failing = self.two_ways(test.holding, first.failing, test.failing, second.failing)?;
        Ok(NodePair { holding, failing })
    }
}

fn comparison_of(alloc: Global, op: Op, left: &Term, right: &Term) -> Result<Term, AllocError>
    ensures { IfOk result (λ t. t ≡ any_term.Apply op (left.now ∷ right.now ∷ [])) }
{
    let mut terms = Items::new(alloc);
    terms.push(left.copy(alloc)?)?;
    terms.push(right.copy(alloc)?)?;
    Ok(Term::Apply(op, terms))
}
