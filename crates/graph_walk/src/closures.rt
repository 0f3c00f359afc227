ghost use Rattle.std.specs.Prelude.{◌≡◌, ◌<◌, ◌≤◌, [], ◌∷◌, ◌++◌, ◌&&◌, ◌||◌, Bool, cond, nat_le, length, map, slice_index_or, Err, IfOk, OnOk};
ghost use Rattle.std.specs.List.{filter, IsDistinct};
ghost use Rattle.elem.specs.declared.elements.Elem.{Elem as Element};
ghost use Rattle.elem.specs.Elements.{same};
ghost use Rattle.graph_walk.specs.declared.faults.ClosureFault.TheVariants.{Limit};
ghost use Rattle.graph_walk.specs.Closures.{Pairs, size, IsClosure, Tells, may_stand, edges_from};
ghost use Rattle.graph_walk.specs.Graphs.{is_in};
ghost use Rattle.graph_walk.specs.Places.{place};

use crate::breadth_walk::find_from;
use crate::closure_pairs::Closure;
use crate::found::Found;
use crate::visits::push;
use crate::{ClosureFault, Walkable};
use elem::{Elem, NoMemory, Steps};
use hash_seed::Seed;
use std::alloc::Global;
use std::sync::ledger::Ledger;

/// The graph with an edge for each pair of nodes that a path joins: Guava's `Graphs.transitiveClosure`. A path of no edge
/// joins each node to itself.
///
/// Nodes go in their order, and edges by their first end and then their second, in the order of the nodes. Without directions
/// an edge stands only from the end that comes first. Each node has a walk of its own, so it takes O(nodes * (nodes + edges)).
/// Beside the nodes and one walk, no more than `room` edges and those of one node beyond them are ever held.
/// `ClosureFault::Limit` comes where nodes and edges together are more than `room`, and never else.
pub fn closure<W: Walkable, L: Ledger>(
    alloc: Global,
    seed: Seed,
    g: &W,
    room: u32,
    steps: &mut Steps<L>,
) -> Result<Closure, ClosureFault>
    ensures closure { IfOk result (IsClosure (W.graph g.now)) }
    ensures fits { IfOk result (λ c. size c ≤ room) }
    ensures limit { result ≡ Err Limit → (c : Pairs) → IsClosure (W.graph g.now) c → room < size c }
{
    let _directed = g.directed();
    let nodes = nodes_of(alloc, g, steps)?;
    let mut edges = Vec::new(alloc);
    let room = room as usize;
    if nodes.len() > room {
        return Err(ClosureFault::Limit);
    }
    for i in 0..nodes.len() {
        join(alloc, seed, g, &nodes, i, &mut edges, steps)?;
        if edges.len() > room - nodes.len() {
            return Err(ClosureFault::Limit);
        }
    }
    Ok(Closure::new(nodes, edges))
}

/// The nodes of a graph, in their order.
fn nodes_of<W: Walkable, L: Ledger>(
    alloc: Global,
    g: &W,
    steps: &mut Steps<L>,
) -> Result<Vec<Elem>, NoMemory>
    ensures { IfOk result (λ nodes. nodes.items ≡ (W.graph g.now).nodes) }
{
    let _directed = g.directed();
    let mut nodes = Vec::new(alloc);
    let mut next = g.first_node(steps);
    while let Some(a) = next {
        push(&mut nodes, &a)?;
        next = g.after_node(a, steps);
    }
    Ok(nodes)
}

/// Adds the edges from node number `i`.
fn join<W: Walkable, L: Ledger>(
    alloc: Global,
    seed: Seed,
    g: &W,
    nodes: &[Elem],
    i: usize,
    edges: &mut Vec<(Elem, Elem)>,
    steps: &mut Steps<L>,
) -> Result<(), NoMemory>
    requires nodes { nodes.now ≡ (W.graph g.now).nodes }
    requires inside { i < length nodes.now }
    ensures { OnOk result ((d : Element) (leads : Element → Element → Bool) → Tells (W.graph g.now) leads → edges.new.items ≡ edges.old.items ++ edges_from (W.graph g.now) leads (slice_index_or nodes.now i d)) }
{
    let directed = g.directed();
    let a = nodes[i];
    let mut found = Found::with_hasher(alloc, seed);
    find_from(g, &a, &mut found, steps)?;
    add_joined(nodes, i, &a, directed, &found, edges)?;
    Ok(())
}

/// Adds the edges from a node to those that are found and may be its other end, in the order of the nodes.
fn add_joined(
    nodes: &[Elem],
    i: usize,
    a: &Elem,
    directed: bool,
    found: &Found,
    edges: &mut Vec<(Elem, Elem)>,
) -> Result<(), NoMemory>
    requires distinct { IsDistinct same nodes.now }
    requires number { place a.now nodes.now ≡ i }
    ensures { OnOk result (edges.new.items ≡ edges.old.items ++ map (λ b. (a.now, b)) (filter (λ b. may_stand directed nodes.now a.now b && is_in b found.now) nodes.now)) }
{
    for (j, b) in nodes.iter().enumerate() {
        let joined = is_joined(directed, i, j, found, b);
        push_if(edges, joined, &(*a, *b))?;
    }
    Ok(())
}

/// Whether an edge from node number `i` to a node, which has number `j`, is to stand.
fn is_joined(directed: bool, i: usize, j: usize, found: &Found, b: &Elem) -> bool
    ensures { result ≡ ((directed || nat_le i j) && is_in b.now found.now) }
{
    (directed || i <= j) && found.has(b)
}

/// Appends an edge where it is to stand.
fn push_if(edges: &mut Vec<(Elem, Elem)>, joined: bool, edge: &(Elem, Elem)) -> Result<(), NoMemory>
    ensures { OnOk result (edges.new.items ≡ cond joined (edges.old.items ++ edge.now ∷ []) edges.old.items) }
{
    if joined {
        push(edges, edge)?;
    }
    Ok(())
}
