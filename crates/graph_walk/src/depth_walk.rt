ghost use Rattle.std.specs.Prelude.{◌≡◌, ◌+◌, false, Err, IfOk, IfErr};
ghost use Rattle.graph_walk.specs.declared.faults.WalkFault.TheVariants.{NoNode};
ghost use Rattle.graph_walk.specs.DepthFirst.{IsPreOrder, IsPostOrder};
ghost use Rattle.graph_walk.specs.Faults.{RefusesWalk};
ghost use Rattle.graph_walk.specs.Graphs.{is_in, nexts};
ghost use Rattle.graph_walk.specs.Paths.{AreReached, calls};

use crate::visits::{new_walk, visit};
use crate::{WalkFault, Walkable};
use elem::{Elem, Steps};
use hash_seed::Seed;
use std::alloc::Global;
use std::sync::ledger::Ledger;

/// The nodes to which a path from `a` leads, each before what is found from it: Guava's
/// `Traverser.depthFirstPreOrder`, as a list that is made at once.
///
/// `a` stands first. Next nodes are visited in their order, and a node that was entered is passed by. It takes
/// O(nodes + edges) of what is found, with the steps of `breadth_first`, and no call of its own for each node on the way.
/// `WalkFault::NoNode` comes exactly where `a` is no node.
pub fn depth_pre<W: Walkable, L: Ledger>(
    alloc: Global,
    seed: Seed,
    g: &W,
    a: Elem,
    steps: &mut Steps<L>,
) -> Result<Vec<Elem>, WalkFault>
    ensures order { IfOk result (λ found. IsPreOrder (nexts (W.graph g.now)) a found.items) }
    ensures reached { IfOk result (λ found. AreReached (nexts (W.graph g.now)) a found.items) }
    ensures no_node { is_in a (W.graph g.now).nodes ≡ false → result ≡ Err NoNode }
    ensures refused { IfErr result (RefusesWalk (is_in a (W.graph g.now).nodes)) }
    ensures steps { IfOk result (λ found. steps.new ≡ steps.old + 1 + calls (nexts (W.graph g.now)) found.items) }
{
    if !g.has(a, steps) {
        return Err(WalkFault::NoNode);
    }
    let mut walk = new_walk(alloc, seed);
    visit(g, &a, &mut walk, steps)?;
    Ok(walk.entered.into_list())
}

/// The nodes to which a path from `a` leads, each after what is found from it: Guava's
/// `Traverser.depthFirstPostOrder`, as a list that is made at once.
///
/// `a` stands last. The nodes are visited as in `depth_pre`, at the same cost, and stand in the order in which they are
/// left. `WalkFault::NoNode` comes exactly where `a` is no node.
pub fn depth_post<W: Walkable, L: Ledger>(
    alloc: Global,
    seed: Seed,
    g: &W,
    a: Elem,
    steps: &mut Steps<L>,
) -> Result<Vec<Elem>, WalkFault>
    ensures order { IfOk result (λ found. IsPostOrder (nexts (W.graph g.now)) a found.items) }
    ensures reached { IfOk result (λ found. AreReached (nexts (W.graph g.now)) a found.items) }
    ensures no_node { is_in a (W.graph g.now).nodes ≡ false → result ≡ Err NoNode }
    ensures refused { IfErr result (RefusesWalk (is_in a (W.graph g.now).nodes)) }
    ensures steps { IfOk result (λ found. steps.new ≡ steps.old + 1 + calls (nexts (W.graph g.now)) found.items) }
{
    if !g.has(a, steps) {
        return Err(WalkFault::NoNode);
    }
    let mut walk = new_walk(alloc, seed);
    visit(g, &a, &mut walk, steps)?;
    Ok(walk.left)
}
