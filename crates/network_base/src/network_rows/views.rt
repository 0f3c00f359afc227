//! The sets that are read from a network.
ghost use Rattle.std.specs.Prelude.{◌≡◌, ◌+◌, cond, slice_get, Ok, Err};
ghost use Rattle.mm_base.specs.KeyedRows.{contains};
ghost use Rattle.network_base.specs.declared.net_steps.NetGone.{NetGone as Gone};
ghost use Rattle.network_base.specs.Shown.{is_there, shown, spots, row_after};

use super::NetworkRows;
use crate::after_beside::next_edge;
use crate::beside::nth_edge;
use crate::net_steps::{edge_spot, gives_nodes, item, node_spot};
use crate::{NetGone, NetItem, NetStep};
use elem::{Elem, Steps};
use std::sync::ledger::Ledger;

impl NetworkRows {
    /// Item number `i` of a set, counted from 0, or none where the set has no item `i`.
    ///
    /// A set at a node is read along the edges at the node, and one beside an edge along those at its two ends, in time in
    /// proportion to their number; the other sets are read along all nodes or edges. `NetGone` comes exactly where a node or
    /// an edge that names the set is not there.
    pub fn shown_at<L: Ledger>(
        &self,
        step: &NetStep,
        i: usize,
        steps: &mut Steps<L>,
    ) -> Result<Option<NetItem>, NetGone>
        ensures answer { result ≡ cond (is_there step.now self.now) (Ok (slice_get (shown step.now self.now) i)) (Err (record {})) }
        ensures step { steps.new ≡ steps.old + 1 }
    {
        steps.tick();
        if !self.is_there(step) {
            return Err(NetGone);
        }
        Ok(self.nth_shown(step, i))
    }

    /// The first item of a set, and the node or the edge that shows it: where a walk along the set begins. It costs what
    /// `shown_at` costs for its first item. `NetGone` comes as there.
    pub fn first_shown<L: Ledger>(
        &self,
        step: &NetStep,
        steps: &mut Steps<L>,
    ) -> Result<Option<(Elem, NetItem)>, NetGone>
        ensures answer { result ≡ cond (is_there step.now self.now) (Ok (slice_get (spots step.now self.now) 0)) (Err (record {})) }
        ensures step { steps.new ≡ steps.old + 1 }
    {
        steps.tick();
        if !self.is_there(step) {
            return Err(NetGone);
        }
        Ok(self.first_spot(step))
    }

    /// The item after the one that a node or an edge shows, and what shows it, or none where that shows no item of the set.
    /// `NetGone` comes as in `shown_at`.
    ///
    /// A walk along a set, from `first_shown` on, goes once along the edges at its node, or for a set of all edges once along
    /// all. Beside an edge a call goes along those at its two ends or along all edges behind the item that was shown,
    /// whichever is shorter, so a walk takes O(edges) there, too.
    pub fn next_shown<L: Ledger>(
        &self,
        step: &NetStep,
        spot: Elem,
        steps: &mut Steps<L>,
    ) -> Result<Option<(Elem, NetItem)>, NetGone>
        ensures answer { result ≡ cond (is_there step.now self.now) (Ok (row_after spot (spots step.now self.now))) (Err (record {})) }
        ensures step { steps.new ≡ steps.old + 1 }
    {
        steps.tick();
        if !self.is_there(step) {
            return Err(NetGone);
        }
        Ok(self.spot_after(step, &spot))
    }

    /// Whether the node and the edge that a set is named by are there.
    fn is_there(&self, step: &NetStep) -> bool
        ensures { result ≡ is_there step.now self.now }
    {
        match step {
            NetStep::Nodes => true,
            NetStep::Edges => true,
            NetStep::AdjacentNodes(a) => self.has(a),
            NetStep::Predecessors(a) => self.has(a),
            NetStep::Successors(a) => self.has(a),
            NetStep::IncidentEdges(a) => self.has(a),
            NetStep::InEdges(a) => self.has(a),
            NetStep::OutEdges(a) => self.has(a),
            NetStep::EdgesConnecting(a, b) => self.has(a) && self.has(b),
            NetStep::AdjacentEdges(x) => self.edges.ends(x).is_some(),
            NetStep::GraphNodes => true,
            NetStep::GraphEdges => true,
            NetStep::GraphAdjacentNodes(a) => self.has(a),
            NetStep::GraphPredecessors(a) => self.has(a),
            NetStep::GraphSuccessors(a) => self.has(a),
        }
    }

    /// Whether there is a node.
    fn has(&self, a: &Elem) -> bool
        ensures { result ≡ contains a.now self.now.nodes }
    {
        self.nodes.probe(*a).is_some()
    }

    /// Item number `i` of a set.
    fn nth_shown(&self, step: &NetStep, i: usize) -> Option<NetItem>
        ensures { result ≡ slice_get (shown step.now self.now) i }
    {
        if gives_nodes(step) {
            let (a, _degrees) = self.nodes.row_at(i)?;
            return Some(NetItem::One(a));
        }
        let e = nth_edge(&self.edges, self.directed, step, i)?;
        Some(item(step, &e))
    }

    /// The first item of a set, and what shows it.
    fn first_spot(&self, step: &NetStep) -> Option<(Elem, NetItem)>
        ensures { result ≡ slice_get (spots step.now self.now) 0 }
    {
        if gives_nodes(step) {
            let a = self.nodes.first()?;
            return Some(node_spot(&a));
        }
        let e = nth_edge(&self.edges, self.directed, step, 0)?;
        Some(edge_spot(step, &e))
    }

    /// The item after another, and what shows it.
    fn spot_after(&self, step: &NetStep, spot: &Elem) -> Option<(Elem, NetItem)>
        ensures { result ≡ row_after spot.now (spots step.now self.now) }
    {
        if gives_nodes(step) {
            if self.nodes.probe(*spot).is_none() {
                return None;
            }
            let a = self.nodes.after(*spot)?;
            return Some(node_spot(&a));
        }
        let e = next_edge(&self.edges, self.directed, step, spot)?;
        Some(edge_spot(step, &e))
    }
}
