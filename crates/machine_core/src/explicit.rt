ghost use Rattle.std.specs.Prelude.{◌≡◌, ℕ, ◌<◌, ◌↔◌, List, [], ◌∷◌, ◌++◌, length, map, max, slice_get, Some, IfOk, OnOk, OnErr};
ghost use Rattle.sv_word.specs.Ranges.{IsInhabited};
ghost use Rattle.machine_core.specs.Costs.{zeros, cost_top};
ghost use Rattle.machine_core.specs.Counts.{at_most-below};
ghost use Rattle.machine_core.specs.Places.{places, pick};
ghost use Rattle.machine_core.specs.Edges.{edge, ending, from_of, at_of, move_of, wide_edge, wide_end, EndsAt, StepsBy, listed_top};
ghost use Rattle.machine_core.specs.EdgeLaws.{step_target, step_character, step_cost, end_cost};
ghost use Rattle.machine_core.specs.Graphs.{Accepts, graph_top};

use crate::cost::Cost;
use crate::edge::Edge;
use crate::end::End;
use crate::graph::Graph;
use crate::index::Index;
use crate::machine::{Machine, Move};
use std::alloc::{AllocError, Global};
use std::marker::Model;
use sv_list::{Copied, Items};
use sv_word::Ranges;

/// A machine whose states are numbers and whose edges and ends are listed.
///
/// Contracts see a [`Graph`]. Beside the lists it keeps, for each state, the places of its edges and
/// of its ends, so that what leaves a state is found without a look at the others. Memory is linear
/// in states, edges and ends, and so is a copy.
pub struct Explicit {
    graph: Graph,
    edge_places: Index,
    end_places: Index,
}

// A drop by hand is one call where a derived one is a call for each vector inside.
impl Drop for Explicit {
    fn drop(self) {
        let Self {
            graph: _,
            edge_places: _,
            end_places: _,
        } = self;
    }
}

impl Model for Explicit {
    ghost use Rattle.machine_core.specs.declared.graph.Graph.{Graph};

    ghost Value = { Graph };

    ghost use Rattle.machine_core.specs.Indexed.{AreIndexed};

    ghost view = { λ m. m.graph };

    ghost invariant = { λ m. AreIndexed m.graph.states m.graph.edges m.graph.ends m.edge_places m.end_places };
}

impl Explicit {
    /// A machine with this number of states, at least one, and no edges or ends. The start is state 0.
    /// Linear in the states.
    pub fn new(alloc: Global, states: u32, registers: usize) -> Result<Explicit, AllocError>
        requires { 0 < states }
        ensures states { IfOk result (λ m. m.states ≡ states) }
        ensures registers { IfOk result (λ m. m.registers ≡ registers) }
        ensures edges { IfOk result (λ m. m.edges ≡ []) }
        ensures ends { IfOk result (λ m. m.ends ≡ []) }
    {
        let graph = Graph {
            states,
            registers,
            edges: Items::new(alloc),
            ends: Items::new(alloc),
        };
        let edge_places = Index::new(alloc, states)?;
        let end_places = Index::new(alloc, states)?;
        Ok(Explicit {
            graph,
            edge_places,
            end_places,
        })
    }

    /// The number of states.
    pub fn states(&self) -> u32
        ensures { result ≡ self.now.states }
    {
        self.graph.states
    }

    /// The edges, in the order in which they were added.
    pub fn edges(&self) -> &[Edge]
        ensures { result.now ≡ self.now.edges }
    {
        self.graph.edges.as_slice()
    }

    /// The ends, in the order in which they were added.
    pub fn finals(&self) -> &[End]
        ensures { result.now ≡ self.now.ends }
    {
        self.graph.ends.as_slice()
    }

    /// The places in `edges` of the edges that leave state `at`, ascending. Constant time.
    pub fn edges_from(&self, at: u32) -> &[usize]
        requires { at < self.now.states }
        ensures { result.now ≡ places from_of at self.now.edges }
    {
        self.edge_places.row(at)
    }

    /// The places in `finals` of the ends of state `at`, ascending. Constant time.
    pub fn ends_at(&self, at: u32) -> &[usize]
        requires { at < self.now.states }
        ensures { result.now ≡ places at_of at self.now.ends }
    {
        self.end_places.row(at)
    }

    /// Adds an edge from state `from` to state `to` on the characters of `on`, of which there is at
    /// least one, with one number of `cost` for each register. Amortised constant time.
    pub fn add_edge(&mut self, from: u32, on: Ranges, cost: Cost, to: u32) -> Result<(), AllocError>
        requires from { from < self.old.states }
        requires to { to < self.old.states }
        requires cost { length cost ≡ self.old.registers }
        requires on { IsInhabited on }
        ensures states { self.new.states ≡ self.old.states }
        ensures registers { self.new.registers ≡ self.old.registers }
        ensures ends { self.new.ends ≡ self.old.ends }
        ensures ok { OnOk result (self.new.edges ≡ self.old.edges ++ edge from on cost to ∷ []) }
        ensures top { OnOk result (graph_top self.new ≡ max (graph_top self.old) (cost_top cost)) }
        ensures err { OnErr result (self.new.edges ≡ self.old.edges) }
    {
        let _characters = on.as_slice();
        let place = self.graph.edges.len();
        self.graph.edges.push(Edge { from, on, cost, to })?;
        if self.edge_places.add(from, place).is_err() {
            let _edge = self.graph.edges.pop();
            return Err(AllocError);
        }
        Ok(())
    }

    /// Adds an end to state `at`, with one number of `cost` for each register. Amortised constant time.
    pub fn add_end(&mut self, at: u32, cost: Cost) -> Result<(), AllocError>
        requires at { at < self.old.states }
        requires cost { length cost ≡ self.old.registers }
        ensures states { self.new.states ≡ self.old.states }
        ensures registers { self.new.registers ≡ self.old.registers }
        ensures edges { self.new.edges ≡ self.old.edges }
        ensures ok { OnOk result (self.new.ends ≡ self.old.ends ++ ending at cost ∷ []) }
        ensures top { OnOk result (graph_top self.new ≡ max (graph_top self.old) (cost_top cost)) }
        ensures err { OnErr result (self.new.ends ≡ self.old.ends) }
    {
        let place = self.graph.ends.len();
        self.graph.ends.push(End { at, cost })?;
        if self.end_places.add(at, place).is_err() {
            let _end = self.graph.ends.pop();
            return Err(AllocError);
        }
        Ok(())
    }

    /// The machine with the same runs and with zeros as costs, from one without registers. Linear in
    /// the machine and the registers.
    pub fn widen(&self, alloc: Global, registers: usize) -> Result<Explicit, AllocError>
        requires { self.now.registers ≡ 0 }
        ensures states { IfOk result (λ m. m.states ≡ self.now.states) }
        ensures registers { IfOk result (λ m. m.registers ≡ registers) }
        ensures edges { IfOk result (λ m. m.edges ≡ map (wide_edge registers) self.now.edges) }
        ensures ends { IfOk result (λ m. m.ends ≡ map (wide_end registers) self.now.ends) }
        ensures runs { IfOk result (λ m. (word cost : List ℕ) → Accepts m word cost ↔ (Accepts self.now word [] × (cost ≡ zeros registers))) }
        ensures top { IfOk result (λ m. graph_top m ≡ 0) }
    {
        let mut wide = Explicit::new(alloc, self.states(), registers)?;
        for edge in self.edges() {
            wide.add_free_edge(alloc, edge)?;
        }
        for end in self.finals() {
            wide.add_free_end(alloc, end)?;
        }
        Ok(wide)
    }

    // Adds the edge at no cost.
    fn add_free_edge(&mut self, alloc: Global, edge: &Edge) -> Result<(), AllocError>
        requires from { edge.now.from < self.old.states }
        requires to { edge.now.to < self.old.states }
        requires on { IsInhabited edge.now.on }
        ensures states { self.new.states ≡ self.old.states }
        ensures registers { self.new.registers ≡ self.old.registers }
        ensures ends { self.new.ends ≡ self.old.ends }
        ensures ok { OnOk result (self.new.edges ≡ self.old.edges ++ wide_edge self.old.registers edge.now ∷ []) }
        ensures err { OnErr result (self.new.edges ≡ self.old.edges) }
    {
        let on = edge.on.copy(alloc)?;
        let cost = Cost::zeros(alloc, self.registers())?;
        self.add_edge(edge.from, on, cost, edge.to)?;
        Ok(())
    }

    /// Adds the end, whatever it costs, at no cost. As `add_end`, and linear in the registers.
    pub fn add_free_end(&mut self, alloc: Global, end: &End) -> Result<(), AllocError>
        requires { end.now.at < self.old.states }
        ensures states { self.new.states ≡ self.old.states }
        ensures registers { self.new.registers ≡ self.old.registers }
        ensures edges { self.new.edges ≡ self.old.edges }
        ensures ok { OnOk result (self.new.ends ≡ self.old.ends ++ wide_end self.old.registers end.now ∷ []) }
        ensures err { OnErr result (self.new.ends ≡ self.old.ends) }
    {
        let cost = Cost::zeros(alloc, self.registers())?;
        self.add_end(end.at, cost)?;
        Ok(())
    }
}

impl Copied for Explicit {
    fn copy(&self, alloc: Global) -> Result<Self, AllocError> {
        let graph = Graph {
            states: self.graph.states,
            registers: self.graph.registers,
            edges: self.graph.edges.copy(alloc)?,
            ends: self.graph.ends.copy(alloc)?,
        };
        Ok(Explicit {
            graph,
            edge_places: self.edge_places.copy(alloc)?,
            end_places: self.end_places.copy(alloc)?,
        })
    }
}

// The moves of the edges at these places.
fn moves_of(alloc: Global, edges: &[Edge], places: &[usize]) -> Result<Items<Move<u32>>, AllocError>
    requires { (i p : ℕ) → slice_get places.now i ≡ Some p → p < length edges.now }
    ensures { IfOk result (λ moves. moves ≡ map move_of (pick edges.now places.now)) }
{
    let room = Vec::with_capacity(alloc, places.len())?;
    let mut moves = Items::from_vec(room);
    for place in places {
        let edge = &edges[*place];
        moves.push(Move {
            on: edge.on.copy(alloc)?,
            cost: edge.cost.copy(alloc)?,
            to: edge.to,
        })?;
    }
    Ok(moves)
}

// The costs of the ends at these places.
fn costs_of(alloc: Global, ends: &[End], places: &[usize]) -> Result<Items<Cost>, AllocError>
    requires { (i p : ℕ) → slice_get places.now i ≡ Some p → p < length ends.now }
    ensures { IfOk result (λ costs. costs ≡ map (λ e. e.cost) (pick ends.now places.now)) }
{
    let room = Vec::with_capacity(alloc, places.len())?;
    let mut costs = Items::from_vec(room);
    for place in places {
        costs.push(ends[*place].cost.copy(alloc)?)?;
    }
    Ok(costs)
}

impl Machine for Explicit {
    type St = u32;

    ghost width = { λ m. m.registers };

    ghost is_state = { λ m s. s < m.states };

    ghost first = { λ m. 0 };

    ghost ends_with = { λ m. EndsAt m.ends };

    ghost steps_to = { λ m. StepsBy m.edges };

    ghost top = { λ m. listed_top m.edges m.ends };

    ghost size = { λ m. m.states };

    ghost first_is_state = { λ m. m.started };

    ghost step_is_state = { λ m s t c cost h step. step_target m.states m.registers m.edges m.ends m.formed s t c cost step };

    ghost step_character = { λ m s t c cost h step. step_character m.states m.registers m.edges m.ends m.formed s t c cost step };

    ghost step_cost = { λ m s t c cost h step. step_cost m.states m.registers m.edges m.ends m.formed s t c cost step };

    ghost end_cost = { λ m s cost h end. end_cost m.states m.registers m.edges m.ends m.formed s cost end };

    ghost states_at_most = { λ m. at_most-below m.states };

    fn registers(&self) -> usize {
        self.graph.registers
    }

    fn start(&self, _alloc: Global) -> Result<u32, AllocError> {
        Ok(0)
    }

    fn ends(&self, alloc: Global, at: &u32) -> Result<Items<Cost>, AllocError> {
        costs_of(alloc, self.finals(), self.ends_at(*at))
    }

    fn moves(&self, alloc: Global, at: &u32) -> Result<Items<Move<u32>>, AllocError> {
        moves_of(alloc, self.edges(), self.edges_from(*at))
    }
}
