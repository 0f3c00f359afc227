//! The edges beside an edge, as a merge of those at its two ends.
ghost use Rattle.std.specs.Prelude.{◌≡◌, ℕ, ◌+◌, drop, slice_get, Some, IfSome, MatchBool, true};
ghost use Rattle.std.specs.List.{filter};
ghost use Rattle.graph_base.specs.Edges.{Edge, incident, is_at};
ghost use Rattle.network_base.specs.declared.net_steps.NetStep.TheVariants.{AdjacentEdges};
ghost use Rattle.network_base.specs.Networks.{ends_of};
ghost use Rattle.network_base.specs.Shown.{passes};
ghost use Rattle.network_base.specs.Beside.{IsEarlier, IsNextAt, is_beside};

use crate::named_edges::NamedEdges;
use crate::net_steps::{NetStep, centre};
use crate::walking::{is_at, nth_passing};
use elem::{Elem, same};

/// The earlier of two edges, where there are any and their numbers tell.
fn earlier(
    edges: &NamedEdges,
    first: &Option<(Elem, Elem, Elem)>,
    second: &Option<(Elem, Elem, Elem)>,
) -> Option<Option<(Elem, Elem, Elem)>>
    requires first { (e : Edge) → first.now ≡ Some e → (i : ℕ) × (slice_get edges.now i ≡ Some e) }
    requires second { (f : Edge) → second.now ≡ Some f → (j : ℕ) × (slice_get edges.now j ≡ Some f) }
    ensures { IfSome result (λ found. IsEarlier edges.now first.now second.now found) }
{
    let Some(e) = first else {
        return Some(*second);
    };
    let Some(f) = second else {
        return Some(Some(*e));
    };
    if edges.comes_before(e, f)? {
        return Some(Some(*e));
    }
    Some(Some(*f))
}

/// The edge after another at a node, or `at` where the other is not at the node.
pub fn advance(
    edges: &NamedEdges,
    end: &Elem,
    e: &(Elem, Elem, Elem),
    at: &Option<(Elem, Elem, Elem)>,
) -> Option<(Elem, Elem, Elem)>
    requires { is_at end.now e.now ≡ true → (k : ℕ) × (slice_get (incident end.now edges.now) k ≡ Some e.now) }
    ensures { MatchBool (is_at end.now e.now) ((k : ℕ) → slice_get (incident end.now edges.now) k ≡ Some e.now → result ≡ slice_get (incident end.now edges.now) (k + 1)) (result ≡ at.now) }
{
    if is_at(end, e) {
        edges.after_at(end, e)
    } else {
        *at
    }
}

/// Edge number `i` of those beside an edge, from an edge on, where numbers tell. The walks through the edges at both ends
/// stand at their first from there on.
pub fn nth_merged(
    edges: &NamedEdges,
    x: &Elem,
    ends: &(Elem, Elem),
    first: &Option<(Elem, Elem, Elem)>,
    second: &Option<(Elem, Elem, Elem)>,
    i: usize,
) -> Option<Option<(Elem, Elem, Elem)>>
    requires ends { ends_of x.now edges.now ≡ Some ends.now }
    requires begun { (k : ℕ) × (IsNextAt edges.now k ends.now.0 first.now) × (IsNextAt edges.now k ends.now.1 second.now) }
    ensures { (k : ℕ) → IsNextAt edges.now k ends.now.0 first.now → IsNextAt edges.now k ends.now.1 second.now → IfSome result (λ found. found ≡ slice_get (filter (is_beside edges.now x.now) (drop k edges.now)) i) }
{
    let mut left = i;
    let mut at_first = *first;
    let mut at_second = *second;
    for _step in 0..edges.len() {
        let found = earlier(edges, &at_first, &at_second)?;
        let Some(e) = found else {
            return Some(None);
        };
        if !same(x, &e.2) {
            if left == 0 {
                return Some(Some(e));
            }
            left -= 1;
        }
        at_first = advance(edges, &ends.0, &e, &at_first);
        at_second = advance(edges, &ends.1, &e, &at_second);
    }
    Some(None)
}

/// Edge number `i` of those beside an edge. Where numbers have run out, all edges are looked through.
fn nth_beside(edges: &NamedEdges, directed: bool, x: &Elem, i: usize) -> Option<(Elem, Elem, Elem)>
    ensures { result ≡ slice_get (filter (passes directed edges.now (AdjacentEdges x.now)) edges.now) i }
{
    let ends = edges.ends(x)?;
    let first = edges.first_at(&ends.0);
    let second = edges.first_at(&ends.1);
    match nth_merged(edges, x, &ends, &first, &second, i) {
        Some(found) => found,
        None => nth_passing(edges, directed, &NetStep::AdjacentEdges(*x), &None, i),
    }
}

/// Edge number `i` of those that show an item in a set.
pub fn nth_edge(
    edges: &NamedEdges,
    directed: bool,
    step: &NetStep,
    i: usize,
) -> Option<(Elem, Elem, Elem)>
    ensures { result ≡ slice_get (filter (passes directed edges.now step.now) edges.now) i }
{
    match step {
        NetStep::AdjacentEdges(x) => nth_beside(edges, directed, x, i),
        _ => nth_passing(edges, directed, step, &centre(step), i),
    }
}
