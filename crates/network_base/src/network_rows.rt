ghost use Rattle.std.specs.Prelude.{◌≡◌, ◌+◌, ◌≤◌, cond, not, false, true, pos, Some, None, Err, is_some, IfOk, IfErr, OnOk, OnErr};
ghost use Rattle.mm_base.specs.KeyedRows.{contains, with_key};
ghost use Rattle.graph_base.specs.Degrees.{degree_of};
ghost use Rattle.graph_base.specs.Edges.{without_edges_at};
ghost use Rattle.graph_base.specs.Graphs.{empty, size, without_node};
ghost use Rattle.network_base.specs.declared.faults.NetFault.TheVariants.{Taken, Loop};
ghost use Rattle.network_base.specs.Sides.{way_of};
ghost use Rattle.network_base.specs.Faults.{RefusesEdge};
ghost use Rattle.network_base.specs.Networks.{ends_of, with_edge, without_edge, has_other_ends, IsNetwork};

mod views;

use crate::named_edges::NamedEdges;
use crate::network_edits::{are_joined, drop_edge, drop_edges_at, is_refused, put_new_edge};
use crate::sides::way_of;
use crate::{NetFault, Side};
use elem::{Elem, NoMemory, Steps};
use graph_base::degrees::{Degrees, degree_by, put_node};
use hash_seed::Seed;
use linked_base::FreeLinkedMap;
use std::alloc::Global;
use std::marker::Model;
use std::sync::ledger::Ledger;

/// A network, as Guava's `MutableNetwork` with parallel edges in insertion order: nodes and edges stand in the order of
/// their coming. Each call that takes `steps` counts one, and takes O(1) where it says nothing else.
#[derive(Drop)]
pub struct NetworkRows {
    nodes: FreeLinkedMap<Degrees>,
    edges: NamedEdges,
    directed: bool,
    loops: bool,
}

impl Model for NetworkRows {
    ghost use Rattle.elem.specs.Keyed.{value_at};
    ghost use Rattle.graph_base.specs.Graphs.{Graph};
    ghost use Rattle.graph_base.specs.Counted.{AreGraph};
    ghost use Rattle.network_base.specs.Held.{network};

    ghost Value = { Graph };

    ghost view = { λ m. network m.nodes m.edges m.directed m.loops };

    ghost invariant = { λ m. AreGraph (value_at m.nodes) m.nodes m.edges m.loops };
}

impl NetworkRows {
    /// A network with no nodes, under the fixed seed.
    pub fn new(alloc: Global, directed: bool, loops: bool) -> Result<NetworkRows, NoMemory>
        ensures { IfOk result (λ g. g ≡ empty directed loops) }
    {
        NetworkRows::with_hasher(alloc, Seed::fixed(), directed, loops)
    }

    /// A network with no nodes, which are hashed by a seed, as its edges are.
    pub fn with_hasher(
        alloc: Global,
        seed: Seed,
        directed: bool,
        loops: bool,
    ) -> Result<NetworkRows, NoMemory>
        ensures { IfOk result (λ g. g ≡ empty directed loops) }
    {
        Ok(NetworkRows {
            nodes: FreeLinkedMap::with_hasher(alloc, seed),
            edges: NamedEdges::with_hasher(alloc, seed),
            directed,
            loops,
        })
    }

    /// The number of nodes and edges together.
    pub fn len(&self) -> usize
        ensures len { result ≡ size self.now }
        ensures network { IsNetwork self.now }
    {
        self.nodes.len() + self.edges.len()
    }

    /// Whether edges have directions.
    pub fn directed(&self) -> bool
        ensures { result ≡ self.now.directed }
    {
        self.directed
    }

    /// Whether an edge may end where it begins.
    pub fn loops(&self) -> bool
        ensures { result ≡ self.now.loops }
    {
        self.loops
    }

    /// Whether there is a node.
    pub fn has_node<L: Ledger>(&self, a: Elem, steps: &mut Steps<L>) -> bool
        ensures answer { result ≡ contains a self.now.nodes }
        ensures step { steps.new ≡ steps.old + 1 }
    {
        steps.tick();
        self.nodes.probe(a).is_some()
    }

    /// The ends of an edge, in the order in which it was put, or none where there is no such edge: Guava's `incidentNodes`.
    pub fn ends<L: Ledger>(&self, x: Elem, steps: &mut Steps<L>) -> Option<(Elem, Elem)>
        ensures answer { result ≡ ends_of x self.now.edges }
        ensures step { steps.new ≡ steps.old + 1 }
    {
        steps.tick();
        self.edges.ends(&x)
    }

    /// How many edges a node has on a side, or none where there is no such node. A loop counts twice in `Side::At`. Where
    /// there are no directions all three are equal.
    pub fn degree<L: Ledger>(&self, a: Elem, side: Side, steps: &mut Steps<L>) -> Option<i32>
        ensures answer { result ≡ cond (contains a self.now.nodes) (Some (pos (degree_of self.now.directed (way_of side) a self.now.edges))) None }
        ensures step { steps.new ≡ steps.old + 1 }
    {
        steps.tick();
        match self.nodes.probe(a) {
            None => None,
            Some(degrees) => {
                let way = way_of(side);
                Some(degree_by(self.directed, way, degrees.leaving, degrees.entering))
            }
        }
    }

    /// Puts a node, last, where it is new, and tells whether it is. After `NoMemory` nothing has changed.
    pub fn add_node<L: Ledger>(&mut self, a: Elem, steps: &mut Steps<L>) -> Result<bool, NoMemory>
        requires { size self.old ≤ 1073741820 }
        ensures answer { IfOk result (λ new. new ≡ not (contains a self.old.nodes)) }
        ensures network { OnOk result (self.new ≡ record self.old { nodes = with_key a self.old.nodes }) }
        ensures err { OnErr result (self.new ≡ self.old) }
        ensures step { steps.new ≡ steps.old + 1 }
    {
        steps.tick();
        let new = put_node(&mut self.nodes, &a)?;
        Ok(new)
    }

    /// Puts an edge from one node to another, and tells whether it is new. The edge and the nodes that are new go last.
    /// An edge that joins the nodes already stays as it is, and without directions either way round is the same.
    ///
    /// `NetFault::Taken` comes exactly where the edge has other ends, and `NetFault::Loop` exactly where it is new, its ends
    /// are one node, and loops are not allowed. After an error nothing has changed.
    pub fn add_edge<L: Ledger>(
        &mut self,
        a: Elem,
        b: Elem,
        x: Elem,
        steps: &mut Steps<L>,
    ) -> Result<bool, NetFault>
        requires { size self.old ≤ 1073741820 }
        ensures answer { IfOk result (λ new. new ≡ not (is_some (ends_of x self.old.edges))) }
        ensures network { OnOk result (self.new ≡ with_edge a b x self.old) }
        ensures err { OnErr result (self.new ≡ self.old) }
        ensures taken { has_other_ends a b x self.old ≡ true → result ≡ Err Taken }
        ensures looped { ends_of x self.old.edges ≡ None → a ≡ b → self.old.loops ≡ false → result ≡ Err Loop }
        ensures refused { IfErr result (RefusesEdge self.old a b x) }
        ensures step { steps.new ≡ steps.old + 1 }
    {
        steps.tick();
        if let Some((from, to)) = self.edges.ends(&x) {
            if are_joined(self.directed, &a, &b, &from, &to) {
                return Ok(false);
            }
            return Err(NetFault::Taken);
        }
        if is_refused(self.loops, &a, &b) {
            return Err(NetFault::Loop);
        }
        if put_new_edge(&mut self.nodes, &mut self.edges, &a, &b, &x).is_err() {
            return Err(NetFault::NoMemory);
        }
        Ok(true)
    }

    /// Removes a node and the edges at it, in time in proportion to their number, and tells whether it was there.
    pub fn remove_node<L: Ledger>(&mut self, a: Elem, steps: &mut Steps<L>) -> bool
        ensures answer { result ≡ contains a self.old.nodes }
        ensures network { self.new ≡ record self.old { nodes = without_node a self.old.nodes; edges = without_edges_at a self.old.edges } }
        ensures step { steps.new ≡ steps.old + 1 }
    {
        steps.tick();
        let _len = self.nodes.len();
        if self.nodes.probe(a).is_none() {
            return false;
        }
        drop_edges_at(&mut self.nodes, &mut self.edges, &a);
        self.nodes.remove(a);
        true
    }

    /// Removes an edge, and tells whether it was there. Its nodes stay.
    pub fn remove_edge<L: Ledger>(&mut self, x: Elem, steps: &mut Steps<L>) -> bool
        ensures answer { result ≡ is_some (ends_of x self.old.edges) }
        ensures network { self.new ≡ record self.old { edges = without_edge x self.old.edges } }
        ensures step { steps.new ≡ steps.old + 1 }
    {
        steps.tick();
        drop_edge(&mut self.nodes, &mut self.edges, &x)
    }
}
