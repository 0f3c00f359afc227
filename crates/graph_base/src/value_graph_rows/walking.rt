//! From node to node, and from edge to edge at a node.
ghost use Rattle.std.specs.Prelude.{◌≡◌, ℕ, ◌+◌, true, slice_get, Some};
ghost use Rattle.mm_base.specs.KeyedRows.{contains};
ghost use Rattle.graph_base.specs.Edges.{incident};
ghost use Rattle.graph_base.specs.Nexts.{behind, nexts};

use super::ValueGraphRows;
use crate::next_nodes::{first_next, next_after};
use elem::{Elem, Steps};
use std::sync::ledger::Ledger;

impl ValueGraphRows {
    /// The first node. O(1).
    pub fn first_node<L: Ledger>(&self, steps: &mut Steps<L>) -> Option<Elem>
        ensures answer { result ≡ slice_get self.now.nodes 0 }
        ensures step { steps.new ≡ steps.old + 1 }
    {
        steps.tick();
        self.nodes.first()
    }

    /// The node behind a node. O(1).
    pub fn node_after<L: Ledger>(&self, a: Elem, steps: &mut Steps<L>) -> Option<Elem>
        requires { contains a self.now.nodes ≡ true }
        ensures answer { result ≡ behind a self.now.nodes }
        ensures step { steps.new ≡ steps.old + 1 }
    {
        steps.tick();
        self.nodes.after(a)
    }

    /// The first edge at a node. O(1).
    pub fn first_incident<L: Ledger>(
        &self,
        a: Elem,
        steps: &mut Steps<L>,
    ) -> Option<(Elem, Elem, Elem)>
        ensures answer { result ≡ slice_get (incident a self.now.edges) 0 }
        ensures step { steps.new ≡ steps.old + 1 }
    {
        steps.tick();
        self.edges.incident_at(&a, 0)
    }

    /// The edge behind another at a node. O(1).
    pub fn incident_after<L: Ledger>(
        &self,
        a: Elem,
        e: (Elem, Elem, Elem),
        steps: &mut Steps<L>,
    ) -> Option<(Elem, Elem, Elem)>
        requires { (k : ℕ) × (slice_get (incident a self.now.edges) k ≡ Some e) }
        ensures answer { (k : ℕ) → slice_get (incident a self.now.edges) k ≡ Some e → result ≡ slice_get (incident a self.now.edges) (k + 1) }
        ensures step { steps.new ≡ steps.old + 1 }
    {
        steps.tick();
        self.edges.after_at(&a, &e)
    }

    /// The first next node of a node, along the edges or, where they are `turned`, against them. O(1), and as much again
    /// for each edge passed by that goes the other way.
    pub fn first_next<L: Ledger>(&self, a: Elem, turned: bool, steps: &mut Steps<L>) -> Option<Elem>
        ensures answer { result ≡ slice_get (nexts self.now.directed turned a self.now.edges) 0 }
        ensures step { steps.new ≡ steps.old + 1 }
    {
        steps.tick();
        first_next(&self.edges, turned, &a)
    }

    /// The next node of `a` behind `b`, at the same cost.
    pub fn next_after<L: Ledger>(
        &self,
        a: Elem,
        b: Elem,
        turned: bool,
        steps: &mut Steps<L>,
    ) -> Option<Elem>
        ensures answer { result ≡ behind b (nexts self.now.directed turned a self.now.edges) }
        ensures step { steps.new ≡ steps.old + 1 }
    {
        steps.tick();
        next_after(&self.edges, turned, &a, &b)
    }
}
