ghost use Rattle.std.specs.Prelude.{◌≡◌, ◌+◌, ◌≤◌, ◌&&◌, cond, not, false, pos, slice_get, Ok, Err, IfOk, IfErr, OnOk, OnErr};
ghost use Rattle.mm_base.specs.KeyedRows.{contains, with_key};
ghost use Rattle.graph_base.specs.declared.faults.GraphFault.TheVariants.{Loop, NoNode};
ghost use Rattle.graph_base.specs.Degrees.{degree_of};
ghost use Rattle.graph_base.specs.Edges.{value_joining, with_edge, without_edge, incident, without_edges_at};
ghost use Rattle.graph_base.specs.Faults.{RefusesPut};
ghost use Rattle.graph_base.specs.Graphs.{empty, size, without_node, IsValid};

mod walking;

use crate::degrees::{Degrees, degree_by, put_node};
use crate::edge_rows::EdgeRows;
use crate::graph_edits::{drop_edge, drop_edges_at, is_refused, put_new_edge};
use crate::{GraphFault, Way};
use elem::{Elem, NoMemory, Steps};
use hash_seed::Seed;
use linked_base::FreeLinkedMap;
use std::alloc::Global;
use std::marker::Model;
use std::sync::ledger::Ledger;

/// A graph with a value on each edge, as Guava's `MutableValueGraph` in insertion order: nodes and edges stand in the
/// order in which they were first put. Each call that takes `steps` counts one.
#[derive(Drop)]
pub struct ValueGraphRows {
    nodes: FreeLinkedMap<Degrees>,
    edges: EdgeRows,
    loops: bool,
}

impl Model for ValueGraphRows {
    ghost use Rattle.std.specs.Map.{keys_of};
    ghost use Rattle.elem.specs.Keyed.{value_at};
    ghost use Rattle.graph_base.specs.Graphs.{Graph};
    ghost use Rattle.graph_base.specs.Counted.{AreGraph};

    ghost Value = { Graph };

    ghost view = { λ m. record { nodes = keys_of m.nodes; edges = m.edges.edges; directed = m.edges.directed; loops = m.loops } };

    ghost invariant = { λ m. AreGraph (value_at m.nodes) m.nodes m.edges.edges m.loops };
}

impl ValueGraphRows {
    /// A graph with no nodes, under the fixed seed.
    pub fn new(alloc: Global, directed: bool, loops: bool) -> Result<ValueGraphRows, NoMemory>
        ensures { IfOk result (λ g. g ≡ empty directed loops) }
    {
        ValueGraphRows::with_hasher(alloc, Seed::fixed(), directed, loops)
    }

    /// A graph with no nodes, which are hashed by a seed.
    pub fn with_hasher(
        alloc: Global,
        seed: Seed,
        directed: bool,
        loops: bool,
    ) -> Result<ValueGraphRows, NoMemory>
        ensures { IfOk result (λ g. g ≡ empty directed loops) }
    {
        Ok(ValueGraphRows {
            nodes: FreeLinkedMap::with_hasher(alloc, seed),
            edges: EdgeRows::with_hasher(alloc, seed, directed),
            loops,
        })
    }

    /// The number of nodes and edges together.
    pub fn len(&self) -> usize
        ensures len { result ≡ size self.now }
        ensures valid { IsValid self.now }
    {
        self.nodes.len() + self.edges.len()
    }

    /// Whether edges have directions.
    pub fn directed(&self) -> bool
        ensures { result ≡ self.now.directed }
    {
        self.edges.directed()
    }

    /// Whether an edge may end where it begins.
    pub fn loops(&self) -> bool
        ensures { result ≡ self.now.loops }
    {
        self.loops
    }

    /// Whether there is a node.
    pub fn has_node<L: Ledger>(&self, a: Elem, steps: &mut Steps<L>) -> bool
        ensures answer { result ≡ contains a self.now.nodes }
        ensures step { steps.new ≡ steps.old + 1 }
    {
        steps.tick();
        self.nodes.probe(a).is_some()
    }

    /// The value of the edge between two nodes.
    pub fn edge<L: Ledger>(
        &self,
        a: Elem,
        b: Elem,
        steps: &mut Steps<L>,
    ) -> Result<Option<Elem>, GraphFault>
        ensures answer { result ≡ cond (contains a self.now.nodes && contains b self.now.nodes) (Ok (value_joining self.now.directed a b self.now.edges)) (Err NoNode) }
        ensures step { steps.new ≡ steps.old + 1 }
    {
        steps.tick();
        if self.nodes.probe(a).is_none() {
            return Err(GraphFault::NoNode);
        }
        if self.nodes.probe(b).is_none() {
            return Err(GraphFault::NoNode);
        }
        match self.edges.edge(&a, &b) {
            None => Ok(None),
            Some((_from, _to, value)) => Ok(Some(value)),
        }
    }

    /// How many edges a node has. A loop counts twice in `Way::Both`. Where there are no directions all three are equal.
    pub fn degree<L: Ledger>(
        &self,
        a: Elem,
        way: Way,
        steps: &mut Steps<L>,
    ) -> Result<i32, GraphFault>
        ensures answer { result ≡ cond (contains a self.now.nodes) (Ok (pos (degree_of self.now.directed way a self.now.edges))) (Err NoNode) }
        ensures step { steps.new ≡ steps.old + 1 }
    {
        steps.tick();
        let Some(degrees) = self.nodes.probe(a) else {
            return Err(GraphFault::NoNode);
        };
        let directed = self.edges.directed();
        Ok(degree_by(directed, way, degrees.leaving, degrees.entering))
    }

    /// Node number `i`, counted from 0.
    pub fn node_at<L: Ledger>(&self, i: usize, steps: &mut Steps<L>) -> Option<Elem>
        ensures answer { result ≡ slice_get self.now.nodes i }
        ensures step { steps.new ≡ steps.old + 1 }
    {
        steps.tick();
        let (node, _degrees) = self.nodes.row_at(i)?;
        Some(node)
    }

    /// The ends and the value of edge number `i`, counted from 0.
    pub fn edge_at<L: Ledger>(&self, i: usize, steps: &mut Steps<L>) -> Option<(Elem, Elem, Elem)>
        ensures answer { result ≡ slice_get self.now.edges i }
        ensures step { steps.new ≡ steps.old + 1 }
    {
        steps.tick();
        self.edges.edge_at(i)
    }

    /// Edge number `i` of those at a node, in the order of the edges. A loop is one.
    pub fn incident_at<L: Ledger>(
        &self,
        a: Elem,
        i: usize,
        steps: &mut Steps<L>,
    ) -> Option<(Elem, Elem, Elem)>
        ensures answer { result ≡ slice_get (incident a self.now.edges) i }
        ensures step { steps.new ≡ steps.old + 1 }
    {
        steps.tick();
        self.edges.incident_at(&a, i)
    }

    /// Puts a node, last, where it is new, and tells whether it is.
    pub fn add_node<L: Ledger>(&mut self, a: Elem, steps: &mut Steps<L>) -> Result<bool, NoMemory>
        requires { size self.old ≤ 1073741820 }
        ensures answer { IfOk result (λ new. new ≡ not (contains a self.old.nodes)) }
        ensures graph { OnOk result (self.new ≡ record self.old { nodes = with_key a self.old.nodes }) }
        ensures err { OnErr result (self.new ≡ self.old) }
        ensures step { steps.new ≡ steps.old + 1 }
    {
        steps.tick();
        let new = put_node(&mut self.nodes, &a)?;
        Ok(new)
    }

    /// Puts an edge with a value between two nodes, and tells the former value. The edge and the nodes that are new go
    /// last. An edge that is there keeps its place and its ends.
    pub fn put_edge<L: Ledger>(
        &mut self,
        a: Elem,
        b: Elem,
        v: Elem,
        steps: &mut Steps<L>,
    ) -> Result<Option<Elem>, GraphFault>
        requires { size self.old ≤ 1073741820 }
        ensures former { IfOk result (λ former. former ≡ value_joining self.old.directed a b self.old.edges) }
        ensures nodes { OnOk result (self.new.nodes ≡ with_key b (with_key a self.old.nodes)) }
        ensures edges { OnOk result (self.new.edges ≡ with_edge self.old.directed a b v self.old.edges) }
        ensures flags { (self.new.directed ≡ self.old.directed) × (self.new.loops ≡ self.old.loops) }
        ensures err { OnErr result (self.new ≡ self.old) }
        ensures looped { a ≡ b → self.old.loops ≡ false → result ≡ Err Loop }
        ensures refused { IfErr result (RefusesPut self.old.loops a b) }
        ensures step { steps.new ≡ steps.old + 1 }
    {
        steps.tick();
        if is_refused(self.loops, &a, &b) {
            return Err(GraphFault::Loop);
        }
        let _len = self.edges.len();
        if let Some(former) = self.edges.replace(&a, &b, &v) {
            return Ok(Some(former));
        }
        if put_new_edge(&mut self.nodes, &mut self.edges, &a, &b, &v).is_err() {
            return Err(GraphFault::NoMemory);
        }
        Ok(None)
    }

    /// Removes a node and the edges at it, and tells whether it was there.
    pub fn remove_node<L: Ledger>(&mut self, a: Elem, steps: &mut Steps<L>) -> bool
        ensures answer { result ≡ contains a self.old.nodes }
        ensures graph { self.new ≡ record self.old { nodes = without_node a self.old.nodes; edges = without_edges_at a self.old.edges } }
        ensures step { steps.new ≡ steps.old + 1 }
    {
        steps.tick();
        let _len = self.nodes.len();
        if self.nodes.probe(a).is_none() {
            return false;
        }
        drop_edges_at(&mut self.nodes, &mut self.edges, &a);
        self.nodes.remove(a);
        true
    }

    /// Removes the edge between two nodes, and tells its value. The nodes stay.
    pub fn remove_edge<L: Ledger>(&mut self, a: Elem, b: Elem, steps: &mut Steps<L>) -> Option<Elem>
        ensures value { result ≡ value_joining self.old.directed a b self.old.edges }
        ensures graph { self.new ≡ record self.old { edges = without_edge self.old.directed a b self.old.edges } }
        ensures step { steps.new ≡ steps.old + 1 }
    {
        steps.tick();
        drop_edge(&mut self.nodes, &mut self.edges, &a, &b)
    }
}
