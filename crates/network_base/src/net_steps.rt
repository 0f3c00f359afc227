ghost use Rattle.std.specs.Prelude.{◌≡◌};
ghost use Rattle.network_base.specs.declared.net_steps.NetItem.TheVariants.{One};
ghost use Rattle.network_base.specs.Shown.{gives_nodes, centre, other_end, item};

use elem::{Elem, same};

/// A set that is read from a network: a step of Guava's `Network`, or one of its `asGraph`.
#[derive(Clone, Copy)]
pub enum NetStep {
    Nodes,
    Edges,
    AdjacentNodes(Elem),
    Predecessors(Elem),
    Successors(Elem),
    IncidentEdges(Elem),
    InEdges(Elem),
    OutEdges(Elem),
    /// The edges from one node to another, without directions either way round.
    EdgesConnecting(Elem, Elem),
    /// The other edges that share an end with an edge.
    AdjacentEdges(Elem),
    /// `asGraph().nodes()`.
    GraphNodes,
    /// `asGraph().edges()`: the ends of edges, each pair once.
    GraphEdges,
    /// `asGraph().adjacentNodes(node)`.
    GraphAdjacentNodes(Elem),
    /// `asGraph().predecessors(node)`.
    GraphPredecessors(Elem),
    /// `asGraph().successors(node)`.
    GraphSuccessors(Elem),
}

/// An item of a set: a node or an edge, or the ends of an edge of `asGraph`.
#[derive(Clone, Copy)]
pub enum NetItem {
    One(Elem),
    Pair(Elem, Elem),
}

/// A set is named by a node or an edge that is not in the network.
#[derive(Clone, Copy, Debug, PartialEq, Eq, Drop)]
pub struct NetGone;

/// Whether a set is that of all nodes.
pub fn gives_nodes(step: &NetStep) -> bool
    ensures { result ≡ gives_nodes step.now }
{
    matches!(step, NetStep::Nodes | NetStep::GraphNodes)
}

/// A node at which all edges are that a set is read from, where there is one.
pub fn centre(step: &NetStep) -> Option<Elem>
    ensures { result ≡ centre step.now }
{
    match step {
        NetStep::AdjacentNodes(a) => Some(*a),
        NetStep::Predecessors(a) => Some(*a),
        NetStep::Successors(a) => Some(*a),
        NetStep::IncidentEdges(a) => Some(*a),
        NetStep::InEdges(a) => Some(*a),
        NetStep::OutEdges(a) => Some(*a),
        NetStep::EdgesConnecting(a, _b) => Some(*a),
        NetStep::GraphAdjacentNodes(a) => Some(*a),
        NetStep::GraphPredecessors(a) => Some(*a),
        NetStep::GraphSuccessors(a) => Some(*a),
        _ => None,
    }
}

/// The end of an edge that is not `a`, or `a` where both are.
fn other_end(a: &Elem, e: &(Elem, Elem, Elem)) -> Elem
    ensures { result ≡ other_end a.now e.now }
{
    if same(a, &e.0) { e.1 } else { e.0 }
}

/// What an edge shows in a set.
pub fn item(step: &NetStep, e: &(Elem, Elem, Elem)) -> NetItem
    ensures { result ≡ item step.now e.now }
{
    match step {
        NetStep::AdjacentNodes(a) => NetItem::One(other_end(a, e)),
        NetStep::Predecessors(a) => NetItem::One(other_end(a, e)),
        NetStep::Successors(a) => NetItem::One(other_end(a, e)),
        NetStep::GraphAdjacentNodes(a) => NetItem::One(other_end(a, e)),
        NetStep::GraphPredecessors(a) => NetItem::One(other_end(a, e)),
        NetStep::GraphSuccessors(a) => NetItem::One(other_end(a, e)),
        NetStep::GraphEdges => NetItem::Pair(e.0, e.1),
        _ => NetItem::One(e.2),
    }
}

/// A node as an item of a set, under itself.
pub fn node_spot(a: &Elem) -> (Elem, NetItem)
    ensures { result ≡ (a.now, One a.now) }
{
    (*a, NetItem::One(*a))
}

/// What an edge shows in a set, under the edge.
pub fn edge_spot(step: &NetStep, e: &(Elem, Elem, Elem)) -> (Elem, NetItem)
    ensures { result ≡ (e.now.2, item step.now e.now) }
{
    (e.2, item(step, e))
}
