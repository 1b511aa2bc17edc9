ghost use Rattle.std.specs.Prelude.{◌≡◌, ◌∷◌, [], ◌++◌, ◌<◌, ◌≤◌, IfOk, OnOk, OnErr, MatchOption, drop, length, map, take};
ghost use Rattle.std.specs.List.{AllByRecursion};
ghost use Rattle.bool_cubes.specs.Contradictions.{IsContradictoryCube};
ghost use Rattle.bool_cubes.specs.Cubes.{count, cube, cubes, cubes_of};
ghost use Rattle.bool_cubes.specs.Jumps.{HasJumps};
ghost use Rattle.bool_cubes.specs.Laws.{IsClearBool};
ghost use Rattle.bool_cubes.specs.Nodes.{IsPlan, tree_at};
ghost use Rattle.sv_terms.specs.CutOff.{cut_off};
ghost use Rattle.bool_cubes.specs.Picking.{cube_at};
ghost use Rattle.bool_cubes.specs.Planned.{IsRootOf};
ghost use Rattle.bool_cubes.specs.Refusing.{IsRefusedBySteps, IsRefusedExactly, IsRefusedWhereMany, most_numbered};

use crate::fault::{CubeFault, cube_fault};
use crate::jumps::{self, Jump};
use crate::known::{Known, known_of};
use crate::marks::is_set;
use crate::node::{CubeNode, NodeKind};
use crate::past;
use crate::plan::Plan;
use crate::planning::all_sides;
use crate::stretch::stretches;
use literal_forms::{Cube, Literal};
use std::alloc::{AllocError, Global};
use std::marker::Model;
use sv_list::{Copied, Items};
use sv_terms::{MOST_CUBES, Term};

// Cubes have numbers where they are at most so many, so that sums of two numbers are numbers of 64 bits.
const MOST_NUMBERED: u64 = 9_223_372_036_854_775_807;

/// The cubes of assertions that are still to be given, one after another.
///
/// Contracts see the list of these cubes. It keeps the trees of the assertions, each part once, and how
/// many cubes were given, and never the cubes themselves.
#[derive(Drop)]
pub struct Cubes {
    nodes: Items<CubeNode>,
    /// A jump from each node.
    jumps: Items<Jump>,
    known: Known,
    root: usize,
    count: u64,
    given: u64,
    /// How many literals the last cube had: the next one is given room for as many.
    room: usize,
}

impl Model for Cubes {
    ghost use Rattle.std.specs.Prelude.{List, drop, map};
    ghost use Rattle.std.specs.Coded.{codes};
    ghost use Rattle.sv_terms.specs.contracts.regex.Regex as regex;
    ghost use Rattle.sv_terms.specs.contracts.term.Term as term;
    ghost use Rattle.literal_forms.specs.declared.literal.Cube.{Cube as AnyCube};
    ghost use Rattle.bool_cubes.specs.Cubes.{cube, cubes};
    ghost use Rattle.bool_cubes.specs.Given.{IsGiving};
    ghost use Rattle.bool_cubes.specs.Held.{IsKnown};
    ghost use Rattle.bool_cubes.specs.Jumps.{HasJumps};
    ghost use Rattle.bool_cubes.specs.Nodes.{tree_at};

    ghost Value = { List AnyCube };

    ghost coded = { Prim.hlevel (codes, regex.the_row.coded, term.the_row.coded) };

    ghost view = { λ c. drop c.given (map cube (cubes (tree_at c.nodes c.root))) };

    ghost invariant = { λ c. IsGiving c.nodes c.root c.count c.given × HasJumps c.nodes c.jumps × IsKnown c.nodes c.root c.known };
}

impl Cubes {
    /// The cubes of assertions without opaque parts, each of sort Bool. Takes time and memory linear in the
    /// terms, but for `distinct`, which has a part for each pair, and the forms of atoms: their terms are added
    /// up from the left, and each unknown is sought among the atom's others, so a sum of many unknowns takes
    /// time their number squared.
    pub fn new(alloc: Global, terms: &[Term]) -> Result<Cubes, CubeFault>
        requires { AllByRecursion IsClearBool terms.now }
        ensures cubes { IfOk result (λ c. c ≡ cubes_of terms.now) }
        ensures refused { IsRefusedExactly terms.now result }
    {
        Cubes::of(alloc, terms)
    }

    /// The same of any terms.
    pub(crate) fn of(alloc: Global, terms: &[Term]) -> Result<Cubes, CubeFault>
        ensures cubes { IfOk result (λ c. c ≡ cubes_of terms.now) }
        ensures refused { IsRefusedExactly terms.now result }
    {
        let root = root_of(alloc, terms)?;
        if root.cubes > MOST_CUBES {
            return Err(CubeFault::TooMany(root.cubes));
        }
        let cubes = Cubes::from_root(alloc, root)?;
        Ok(cubes)
    }

    /// The same, also of more than 1,048,576 cubes, where at most so many are left without those that are known to hold
    /// an atom and its negation: by literals that are in every cube, and by what follows from these. Names of conditions,
    /// such as `(= p (= x y))` with `p`, double the cubes, and leave as many. Numbers of cubes are below 2^63.
    pub fn with_few_left(alloc: Global, terms: &[Term]) -> Result<Cubes, CubeFault>
        requires { AllByRecursion IsClearBool terms.now }
        ensures cubes { IfOk result (λ c. c ≡ cubes_of terms.now) }
        ensures refused { IsRefusedWhereMany terms.now result }
    {
        let root = root_of(alloc, terms)?;
        let count = root.cubes;
        if count > MOST_NUMBERED {
            return Err(CubeFault::TooMany(count));
        }
        let cubes = Cubes::from_root(alloc, root)?;
        if count > MOST_CUBES && cubes.count_left(alloc)? > MOST_CUBES {
            return Err(CubeFault::TooMany(count));
        }
        Ok(cubes)
    }

    /// The cubes of a root, none of them given.
    fn from_root(alloc: Global, root: CubeRoot) -> Result<Cubes, AllocError>
        requires plan { IsPlan root.nodes }
        requires root { root.at < length root.nodes }
        requires count { root.cubes ≡ cut_off (count (tree_at root.nodes root.at)) }
        requires most { root.cubes ≤ most_numbered }
        ensures { IfOk result (λ c. c ≡ map cube (cubes (tree_at root.nodes root.at))) }
    {
        let jumps = jumps::all(alloc, root.nodes.as_slice())?;
        let known = known_of(alloc, root.nodes.as_slice(), root.at)?;
        Ok(Cubes {
            nodes: root.nodes,
            jumps,
            known,
            root: root.at,
            count: root.cubes,
            given: 0,
            room: 0,
        })
    }

    /// How many cubes there are without those that are known to hold an atom and its negation, 2^64 - 1 where they are
    /// more. Linear in the terms.
    fn count_left(&self, alloc: Global) -> Result<u64, AllocError> {
        let mut left: Vec<u64> = Vec::with_capacity(alloc, self.nodes.len())?;
        for (at, node) in self.nodes.as_slice().iter().enumerate() {
            let at_node = |place: usize| left.get(place).copied().unwrap_or(0);
            let cubes = match &node.kind {
                _ if is_set(self.known.dead.as_slice(), at) => 0,
                NodeKind::Always => 1,
                NodeKind::Never => 0,
                NodeKind::One(_) => 1,
                NodeKind::Both(first, second) => at_node(*first).saturating_mul(at_node(*second)),
                NodeKind::Either(first, second) => at_node(*first).saturating_add(at_node(*second)),
            };
            left.push(cubes)?;
        }
        Ok(left.get(self.root).copied().unwrap_or(0))
    }

    /// The next cube, in their order; `None` exactly where all were given. Costs the literals of the cube, each
    /// `true` counted as one, and of each `or` on the way to them the logarithm of its arguments' number.
    pub fn next(&mut self, alloc: Global) -> Result<Option<Cube>, AllocError>
        ensures next { IfOk result (λ o. MatchOption o ((self.old ≡ []) × (self.new ≡ [])) (λ c. self.old ≡ c ∷ self.new)) }
        ensures err { OnErr result (self.new ≡ self.old) }
    {
        if self.given >= self.count {
            return Ok(None);
        }
        let literals = pick(
            alloc,
            self.nodes.as_slice(),
            self.jumps.as_slice(),
            self.root,
            self.given,
            self.room,
        )?;
        self.room = literals.len();
        self.given += 1;
        Ok(Some(Cube { literals }))
    }

    /// How many of the next cubes, one after another, hold an atom and its negation, as far as is found: by literals
    /// that stand in every cube, by what follows from them, and by choices that a stretch of cubes shares. For each
    /// stretch time and memory are linear in the terms.
    pub fn count_contradictory(&self, alloc: Global) -> Result<u64, AllocError>
        ensures within { IfOk result (λ cubes. cubes ≤ length self.now) }
        ensures contradictory { IfOk result (λ cubes. AllByRecursion IsContradictoryCube (take cubes self.now)) }
    {
        let cubes = stretches(
            alloc,
            self.nodes.as_slice(),
            self.jumps.as_slice(),
            &self.known,
            self.root,
            self.given,
        )?;
        Ok(cubes)
    }

    /// Leaves the next cubes out, so many or all. Takes no memory.
    #[tactic(auto, using(crate::proofs::Gathered::skipped))]
    pub fn skip(&mut self, cubes: u64)
        ensures { self.new ≡ drop cubes self.old }
    {
        self.given += cubes.min(self.count - self.given);
    }
}

/// The tree of assertions: its node among nodes, and how many cubes it has, 2^64 - 1 where they are more.
#[derive(Drop)]
struct CubeRoot {
    nodes: Items<CubeNode>,
    at: usize,
    cubes: u64,
}

/// The tree of the and of terms. No step of their atoms' linear forms leaves 128 bits.
fn root_of(alloc: Global, terms: &[Term]) -> Result<CubeRoot, CubeFault>
    ensures root { IfOk result (λ root. IsRootOf terms.now root.nodes root.at root.cubes) }
    ensures refused { IsRefusedBySteps terms.now result }
{
    let mut plan = Plan::new(alloc);
    let sides = all_sides(&mut plan, alloc, terms)?;
    match past::tree(alloc, plan.nodes.as_slice(), sides.holding) {
        Ok(()) => {}
        Err(fault) => return Err(cube_fault(fault)),
    }
    let cubes = plan.count_at(sides.holding);
    Ok(CubeRoot {
        nodes: plan.nodes,
        at: sides.holding,
        cubes,
    })
}

/// The literals of the cube of this number of a node's tree, with room for so many. Costs what `Cubes::next` does.
fn pick(
    alloc: Global,
    nodes: &[CubeNode],
    jumps: &[Jump],
    root: usize,
    number: u64,
    room: usize,
) -> Result<Items<Literal>, AllocError>
    requires plan { IsPlan nodes.now }
    requires jumps { HasJumps nodes.now jumps.now }
    requires root { root < length nodes.now }
    requires number { number < count (tree_at nodes.now root) }
    requires most { count (tree_at nodes.now root) ≤ most_numbered }
    ensures { IfOk result (λ ls. ls ≡ cube_at (tree_at nodes.now root) number) }
{
    let mut literals = Items::new(alloc);
    literals.reserve(room)?;
    gather(alloc, nodes, jumps, root, number, &mut literals)?;
    Ok(literals)
}

/// Appends the literals of a cube. Of a node of both trees the number is cut into one for each, of a node of
/// either it tells which; a jump is taken wherever it doesn't lead past the cube.
fn gather(
    alloc: Global,
    nodes: &[CubeNode],
    jumps: &[Jump],
    root: usize,
    number: u64,
    literals: &mut Items<Literal>,
) -> Result<(), AllocError>
    requires plan { IsPlan nodes.now }
    requires jumps { HasJumps nodes.now jumps.now }
    requires root { root < length nodes.now }
    requires number { number < count (tree_at nodes.now root) }
    requires most { count (tree_at nodes.now root) ≤ most_numbered }
    ensures { OnOk result (literals.new ≡ literals.old ++ cube_at (tree_at nodes.now root) number) }
{
    let mut at = root;
    let mut left = number;
    loop {
        match &nodes[at].kind {
            NodeKind::Always => return Ok(()),
            NodeKind::Never => return Ok(()),
            NodeKind::One(literal) => return literals.push(literal.copy(alloc)?),
            NodeKind::Both(first, second) => {
                let cubes = nodes[*second].cubes;
                gather(alloc, nodes, jumps, *first, left / cubes, literals)?;
                left %= cubes;
                at = *second;
            }
            NodeKind::Either(first, second) => {
                let jump = jumps[at];
                let cubes = nodes[*first].cubes;
                if jump.steps > 0 && jump.cubes <= left {
                    left -= jump.cubes;
                    at = jump.to;
                } else if left < cubes {
                    at = *first;
                } else {
                    left -= cubes;
                    at = *second;
                }
            }
        }
    }
}
