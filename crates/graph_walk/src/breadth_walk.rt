ghost use Rattle.std.specs.Prelude.{◌≡◌, ◌+◌, [], true, false, length, Err, IfOk, IfErr, OnOk};
ghost use Rattle.graph_walk.specs.declared.faults.WalkFault.TheVariants.{NoNode};
ghost use Rattle.graph_walk.specs.BreadthFirst.{IsBreadthFirst};
ghost use Rattle.graph_walk.specs.Faults.{RefusesWalk};
ghost use Rattle.graph_walk.specs.Found.{with_all};
ghost use Rattle.graph_walk.specs.Graphs.{is_in, nexts};
ghost use Rattle.graph_walk.specs.Paths.{calls};

use crate::found::Found;
use crate::{WalkFault, Walkable};
use elem::{Elem, NoMemory, Steps};
use hash_seed::Seed;
use std::alloc::Global;
use std::sync::ledger::Ledger;

/// The nodes to which a path from `a` leads, breadth first: Guava's `Traverser.breadthFirst`, as a list that is made at once.
///
/// `a` stands first. A node goes by the edges of a shortest path to it, then by the place of its parent, the first node one
/// edge nearer that leads to it, then by its place among the next nodes of its parent. It takes O(nodes + edges) of what is
/// found: the steps are one, and for each node one and one more for each of its next nodes. `WalkFault::NoNode` comes
/// exactly where `a` is no node.
pub fn breadth_first<W: Walkable, L: Ledger>(
    alloc: Global,
    seed: Seed,
    g: &W,
    a: Elem,
    steps: &mut Steps<L>,
) -> Result<Vec<Elem>, WalkFault>
    ensures order { IfOk result (λ found. IsBreadthFirst (nexts (W.graph g.now)) a found.items) }
    ensures no_node { is_in a (W.graph g.now).nodes ≡ false → result ≡ Err NoNode }
    ensures refused { IfErr result (RefusesWalk (is_in a (W.graph g.now).nodes)) }
    ensures steps { IfOk result (λ found. steps.new ≡ steps.old + 1 + calls (nexts (W.graph g.now)) found.items) }
{
    if !g.has(a, steps) {
        return Err(WalkFault::NoNode);
    }
    let mut found = Found::with_hasher(alloc, seed);
    find_from(g, &a, &mut found, steps)?;
    Ok(found.into_list())
}

/// Finds the nodes to which a path from a node leads, breadth first, where nothing is found yet.
pub fn find_from<W: Walkable, L: Ledger>(
    g: &W,
    a: &Elem,
    found: &mut Found,
    steps: &mut Steps<L>,
) -> Result<(), NoMemory>
    requires node { is_in a.now (W.graph g.now).nodes ≡ true }
    requires empty { found.old ≡ [] }
    ensures order { OnOk result (IsBreadthFirst (nexts (W.graph g.now)) a.now found.new) }
    ensures steps { OnOk result (steps.new ≡ steps.old + calls (nexts (W.graph g.now)) found.new) }
{
    let _directed = g.directed();
    found.put(a)?;
    let mut next = 0;
    while next < found.len() {
        let node = found.at(next);
        find_nexts(g, &node, found, steps)?;
        next += 1;
    }
    Ok(())
}

/// Finds the next nodes of a node.
fn find_nexts<W: Walkable, L: Ledger>(
    g: &W,
    node: &Elem,
    found: &mut Found,
    steps: &mut Steps<L>,
) -> Result<(), NoMemory>
    requires { is_in node.now (W.graph g.now).nodes ≡ true }
    ensures found { OnOk result (found.new ≡ with_all (nexts (W.graph g.now) node.now) found.old) }
    ensures steps { OnOk result (steps.new ≡ steps.old + 1 + length (nexts (W.graph g.now) node.now)) }
{
    let _directed = g.directed();
    let mut next = g.first_next(*node, steps);
    while let Some(b) = next {
        found.put(&b)?;
        next = g.next_after(*node, b, steps);
    }
    Ok(())
}
