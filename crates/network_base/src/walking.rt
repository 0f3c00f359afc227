//! Edges in order: all, or those at a node, and of these the ones that a set is read from.
ghost use Rattle.std.specs.Prelude.{◌≡◌, ◌⊎◌, ℕ, ◌+◌, length, slice_get, Some};
ghost use Rattle.std.specs.List.{filter};
ghost use Rattle.graph_base.specs.Edges.{edge_joining, is_at};
ghost use Rattle.network_base.specs.Networks.{ends_of};
ghost use Rattle.network_base.specs.Shown.{around, enters, leaves, shares_end, is_first, passes, edge_after};

use crate::named_edges::NamedEdges;
use crate::net_steps::{NetStep, centre};
use crate::network_edits::are_joined;
use elem::{Elem, same};

/// How many edges there are around a centre.
fn count_around(edges: &NamedEdges, centre: &Option<Elem>) -> usize
    ensures { result ≡ length (around centre.now edges.now) }
{
    match centre {
        None => edges.len(),
        Some(a) => edges.count_at(a),
    }
}

/// The first edge around a centre.
fn first_around(edges: &NamedEdges, centre: &Option<Elem>) -> Option<(Elem, Elem, Elem)>
    ensures { result ≡ slice_get (around centre.now edges.now) 0 }
{
    match centre {
        None => edges.first(),
        Some(a) => edges.first_at(a),
    }
}

/// The edge after another around a centre.
fn after_around(
    edges: &NamedEdges,
    centre: &Option<Elem>,
    e: &(Elem, Elem, Elem),
) -> Option<(Elem, Elem, Elem)>
    requires { (k : ℕ) × (slice_get (around centre.now edges.now) k ≡ Some e.now) }
    ensures { (k : ℕ) → slice_get (around centre.now edges.now) k ≡ Some e.now → result ≡ slice_get (around centre.now edges.now) (k + 1) }
{
    match centre {
        None => edges.after(e),
        Some(a) => edges.after_at(a, e),
    }
}

/// The first edge that joins two nodes, found at the node that has fewer edges.
fn first_joining(
    edges: &NamedEdges,
    directed: bool,
    a: &Elem,
    b: &Elem,
) -> Option<(Elem, Elem, Elem)>
    ensures { result ≡ edge_joining directed a.now b.now edges.now }
{
    if edges.count_at(a) <= edges.count_at(b) {
        first_joining_at(edges, directed, a, b, a)
    } else {
        first_joining_at(edges, directed, a, b, b)
    }
}

/// The first edge that joins two nodes, found at one of them.
fn first_joining_at(
    edges: &NamedEdges,
    directed: bool,
    a: &Elem,
    b: &Elem,
    end: &Elem,
) -> Option<(Elem, Elem, Elem)>
    requires { (end.now ≡ a.now) ⊎ (end.now ≡ b.now) }
    ensures { result ≡ edge_joining directed a.now b.now edges.now }
{
    let mut at = edges.first_at(end);
    for _step in 0..edges.count_at(end) {
        let Some(e) = at else {
            return None;
        };
        if are_joined(directed, a, b, &e.0, &e.1) {
            return Some(e);
        }
        at = edges.after_at(end, &e);
    }
    None
}

/// Whether an edge is the first that joins its ends.
fn is_first(edges: &NamedEdges, directed: bool, e: &(Elem, Elem, Elem)) -> bool
    ensures { result ≡ is_first directed edges.now e.now }
{
    match first_joining(edges, directed, &e.0, &e.1) {
        None => false,
        Some(first) => same(&e.2, &first.2),
    }
}

/// Whether a node is an end of an edge.
pub fn is_at(a: &Elem, e: &(Elem, Elem, Elem)) -> bool
    ensures { result ≡ is_at a.now e.now }
{
    same(a, &e.0) || same(a, &e.1)
}

/// Whether an edge enters a node. Without directions each edge at it does.
fn enters(directed: bool, a: &Elem, e: &(Elem, Elem, Elem)) -> bool
    ensures { result ≡ enters directed a.now e.now }
{
    if directed { same(a, &e.1) } else { is_at(a, e) }
}

/// Whether an edge leaves a node. Without directions each edge at it does.
fn leaves(directed: bool, a: &Elem, e: &(Elem, Elem, Elem)) -> bool
    ensures { result ≡ leaves directed a.now e.now }
{
    if directed { same(a, &e.0) } else { is_at(a, e) }
}

/// Whether an edge shares an end with another.
fn shares_end(edges: &NamedEdges, x: &Elem, e: &(Elem, Elem, Elem)) -> bool
    ensures { result ≡ shares_end (ends_of x.now edges.now) e.now }
{
    match edges.ends(x) {
        None => false,
        Some((from, to)) => is_at(&from, e) || is_at(&to, e),
    }
}

/// Whether an edge shows an item in a set.
pub fn passes(edges: &NamedEdges, directed: bool, step: &NetStep, e: &(Elem, Elem, Elem)) -> bool
    ensures { result ≡ passes directed edges.now step.now e.now }
{
    match step {
        NetStep::Nodes => false,
        NetStep::Edges => true,
        NetStep::AdjacentNodes(a) => is_at(a, e) && is_first(edges, false, e),
        NetStep::Predecessors(a) => enters(directed, a, e) && is_first(edges, directed, e),
        NetStep::Successors(a) => leaves(directed, a, e) && is_first(edges, directed, e),
        NetStep::IncidentEdges(a) => is_at(a, e),
        NetStep::InEdges(a) => enters(directed, a, e),
        NetStep::OutEdges(a) => leaves(directed, a, e),
        NetStep::EdgesConnecting(a, b) => are_joined(directed, a, b, &e.0, &e.1),
        NetStep::AdjacentEdges(x) => shares_end(edges, x, e) && !same(x, &e.2),
        NetStep::GraphNodes => false,
        NetStep::GraphEdges => is_first(edges, directed, e),
        NetStep::GraphAdjacentNodes(a) => is_at(a, e) && is_first(edges, false, e),
        NetStep::GraphPredecessors(a) => enters(directed, a, e) && is_first(edges, directed, e),
        NetStep::GraphSuccessors(a) => leaves(directed, a, e) && is_first(edges, directed, e),
    }
}

/// Edge number `i` of those around a centre that show an item in a set.
pub fn nth_passing(
    edges: &NamedEdges,
    directed: bool,
    step: &NetStep,
    centre: &Option<Elem>,
    i: usize,
) -> Option<(Elem, Elem, Elem)>
    ensures { result ≡ slice_get (filter (passes directed edges.now step.now) (around centre.now edges.now)) i }
{
    let mut left = i;
    let mut at = first_around(edges, centre);
    for _step in 0..count_around(edges, centre) {
        let Some(e) = at else {
            return None;
        };
        if passes(edges, directed, step, &e) {
            if left == 0 {
                return Some(e);
            }
            left -= 1;
        }
        at = after_around(edges, centre, &e);
    }
    None
}

/// The edge after another of those that show an item in a set.
pub fn next_passing(
    edges: &NamedEdges,
    directed: bool,
    step: &NetStep,
    x: &Elem,
) -> Option<(Elem, Elem, Elem)>
    ensures { result ≡ edge_after x.now (filter (passes directed edges.now step.now) edges.now) }
{
    let _len = edges.len();
    let (from, to) = edges.ends(x)?;
    let start = (from, to, *x);
    if !passes(edges, directed, step, &start) {
        return None;
    }
    let centre = centre(step);
    let mut at = after_around(edges, &centre, &start);
    for _step in 0..count_around(edges, &centre) {
        let Some(e) = at else {
            return None;
        };
        if passes(edges, directed, step, &e) {
            return Some(e);
        }
        at = after_around(edges, &centre, &e);
    }
    None
}
