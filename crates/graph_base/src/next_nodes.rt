//! The next nodes of a node, along the edges at it.
ghost use Rattle.std.specs.Prelude.{◌≡◌, ℕ, drop, slice_get};
ghost use Rattle.std.specs.List.{filter_map};
ghost use Rattle.graph_base.specs.Edges.{edge_joining, incident};
ghost use Rattle.graph_base.specs.Nexts.{behind, end_from, from_of, to_of, nexts};

use crate::edge_rows::EdgeRows;
use elem::{Elem, same};

/// Where an edge leads from a node, if it may be walked from there.
fn end_from(directed: bool, turned: bool, a: &Elem, e: &(Elem, Elem, Elem)) -> Option<Elem>
    ensures { result ≡ end_from directed turned a.now e.now }
{
    if directed && turned {
        return if same(a, &e.1) { Some(e.0) } else { None };
    }
    if same(a, &e.0) {
        return Some(e.1);
    }
    if !directed && same(a, &e.1) {
        return Some(e.0);
    }
    None
}

/// Where the first edge leads that may be walked from a node, of the edge `at` and those behind it at the node.
fn next_from(
    edges: &EdgeRows,
    turned: bool,
    a: &Elem,
    at: Option<(Elem, Elem, Elem)>,
) -> Option<Elem>
    requires { (k : ℕ) × (slice_get (incident a.now edges.now.edges) k ≡ at) }
    ensures { (k : ℕ) → slice_get (incident a.now edges.now.edges) k ≡ at → result ≡ slice_get (filter_map (end_from edges.now.directed turned a.now) (drop k (incident a.now edges.now.edges))) 0 }
{
    let directed = edges.directed();
    let mut at = at;
    for _step in 0..edges.count_at(a) {
        let Some(e) = at else {
            return None;
        };
        if let Some(b) = end_from(directed, turned, a, &e) {
            return Some(b);
        }
        at = edges.after_at(a, &e);
    }
    None
}

/// The first next node of a node.
pub fn first_next(edges: &EdgeRows, turned: bool, a: &Elem) -> Option<Elem>
    ensures { result ≡ slice_get (nexts edges.now.directed turned a.now edges.now.edges) 0 }
{
    let first = edges.incident_at(a, 0);
    next_from(edges, turned, a, first)
}

/// The edge that leads from a node to another.
fn edge_to(edges: &EdgeRows, turned: bool, a: &Elem, b: &Elem) -> Option<(Elem, Elem, Elem)>
    ensures { result ≡ edge_joining edges.now.directed (from_of edges.now.directed turned a.now b.now) (to_of edges.now.directed turned a.now b.now) edges.now.edges }
{
    if edges.directed() && turned {
        edges.edge(b, a)
    } else {
        edges.edge(a, b)
    }
}

/// The next node of `a` behind `b`.
pub fn next_after(edges: &EdgeRows, turned: bool, a: &Elem, b: &Elem) -> Option<Elem>
    ensures { result ≡ behind b.now (nexts edges.now.directed turned a.now edges.now.edges) }
{
    let e = edge_to(edges, turned, a, b)?;
    let next = edges.after_at(a, &e);
    next_from(edges, turned, a, next)
}
