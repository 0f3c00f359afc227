//! The edge after another of those beside an edge.
ghost use Rattle.std.specs.Prelude.{◌≡◌, ℕ, ◌+◌, drop, slice_get, Some, IfSome, true};
ghost use Rattle.std.specs.List.{filter};
ghost use Rattle.graph_base.specs.Edges.{Edge};
ghost use Rattle.network_base.specs.declared.net_steps.NetStep.TheVariants.{AdjacentEdges};
ghost use Rattle.network_base.specs.Networks.{ends_of};
ghost use Rattle.network_base.specs.Shown.{passes, edge_after};
ghost use Rattle.network_base.specs.Beside.{IsNextAt, IsNearing, is_beside};

use crate::beside::{advance, nth_merged};
use crate::named_edges::NamedEdges;
use crate::net_steps::NetStep;
use crate::walking::{next_passing, passes};
use elem::Elem;

/// Where a walk through the edges at a node to the first behind an edge begins: there, where the edge is at the node, or
/// at the first edge at the node.
fn begin(edges: &NamedEdges, end: &Elem, start: &(Elem, Elem, Elem)) -> Option<(Elem, Elem, Elem)>
    requires { (k : ℕ) × (slice_get edges.now k ≡ Some start.now) }
    ensures { (k : ℕ) → slice_get edges.now k ≡ Some start.now → IsNearing edges.now k end.now result }
{
    advance(edges, end, start, &edges.first_at(end))
}

/// Whether a walk through the edges at a node has come to the first behind an edge, as far as numbers tell.
fn is_behind(
    edges: &NamedEdges,
    end: &Elem,
    start: &(Elem, Elem, Elem),
    at: &Option<(Elem, Elem, Elem)>,
) -> bool
    requires place { (k : ℕ) × (slice_get edges.now k ≡ Some start.now) }
    requires nearing { (k : ℕ) → slice_get edges.now k ≡ Some start.now → IsNearing edges.now k end.now at.now }
    ensures { result ≡ true → (k : ℕ) → slice_get edges.now k ≡ Some start.now → IsNextAt edges.now (k + 1) end.now at.now }
{
    let Some(e) = at else {
        return true;
    };
    match edges.comes_before(start, e) {
        None => false,
        Some(before) => before,
    }
}

/// A step nearer to the first edge behind another at a node, where numbers tell that the walk is not there yet.
fn nearer(
    edges: &NamedEdges,
    end: &Elem,
    start: &(Elem, Elem, Elem),
    at: &Option<(Elem, Elem, Elem)>,
) -> Option<(Elem, Elem, Elem)>
    requires place { (k : ℕ) × (slice_get edges.now k ≡ Some start.now) }
    requires nearing { (k : ℕ) → slice_get edges.now k ≡ Some start.now → IsNearing edges.now k end.now at.now }
    ensures { (k : ℕ) → slice_get edges.now k ≡ Some start.now → IsNearing edges.now k end.now result }
{
    let Some(e) = at else {
        return None;
    };
    match edges.comes_before(start, e) {
        Some(false) => edges.after_at(end, e),
        _ => *at,
    }
}

/// The first edge behind another of those beside an edge, where the walks through the edges at both its ends have come to
/// their first behind the other.
fn merged_behind(
    edges: &NamedEdges,
    x: &Elem,
    ends: &(Elem, Elem),
    start: &(Elem, Elem, Elem),
    first: &Option<(Elem, Elem, Elem)>,
    second: &Option<(Elem, Elem, Elem)>,
) -> Option<Option<(Elem, Elem, Elem)>>
    requires ends { ends_of x.now edges.now ≡ Some ends.now }
    requires place { (k : ℕ) × (slice_get edges.now k ≡ Some start.now) }
    requires first { (k : ℕ) → slice_get edges.now k ≡ Some start.now → IsNearing edges.now k ends.now.0 first.now }
    requires second { (k : ℕ) → slice_get edges.now k ≡ Some start.now → IsNearing edges.now k ends.now.1 second.now }
    ensures { (k : ℕ) → slice_get edges.now k ≡ Some start.now → IfSome result (λ found. found ≡ slice_get (filter (is_beside edges.now x.now) (drop (k + 1) edges.now)) 0) }
{
    if !is_behind(edges, &ends.0, start, first) {
        return None;
    }
    if !is_behind(edges, &ends.1, start, second) {
        return None;
    }
    nth_merged(edges, x, ends, first, second, 0)
}

/// The edge after another of those beside an edge. One walk goes along all edges behind the other, and two along the edges
/// at both ends, a step of each in turn: the way that ends first decides.
fn next_beside(
    edges: &NamedEdges,
    directed: bool,
    x: &Elem,
    spot: &Elem,
) -> Option<(Elem, Elem, Elem)>
    ensures { result ≡ edge_after spot.now (filter (passes directed edges.now (AdjacentEdges x.now)) edges.now) }
{
    let step = NetStep::AdjacentEdges(*x);
    let _len = edges.len();
    let (from, to) = edges.ends(spot)?;
    let ends = edges.ends(x)?;
    let start = (from, to, *spot);
    if !passes(edges, directed, &step, &start) {
        return None;
    }
    let mut along = edges.after(&start);
    let mut first = begin(edges, &ends.0, &start);
    let mut second = begin(edges, &ends.1, &start);
    for _step in 0..edges.len() {
        let Some(e) = along else {
            return None;
        };
        if passes(edges, directed, &step, &e) {
            return Some(e);
        }
        if let Some(found) = merged_behind(edges, x, &ends, &start, &first, &second) {
            return found;
        }
        along = edges.after(&e);
        first = nearer(edges, &ends.0, &start, &first);
        second = nearer(edges, &ends.1, &start, &second);
    }
    None
}

/// The edge after another of those that show an item in a set.
pub fn next_edge(
    edges: &NamedEdges,
    directed: bool,
    step: &NetStep,
    spot: &Elem,
) -> Option<(Elem, Elem, Elem)>
    ensures { result ≡ edge_after spot.now (filter (passes directed edges.now step.now) edges.now) }
{
    match step {
        NetStep::AdjacentEdges(x) => next_beside(edges, directed, x, spot),
        _ => next_passing(edges, directed, step, spot),
    }
}
