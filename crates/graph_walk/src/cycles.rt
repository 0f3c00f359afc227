ghost use Rattle.std.specs.Prelude.{◌≡◌, ◌+◌, ◌*◌, ◌≤◌, ◌↔◌, true, [], IsTrue, IfOk, OnOk, length};
ghost use Rattle.graph_walk.specs.Cycles.{HasCycle};
ghost use Rattle.graph_walk.specs.DepthFirst.{Visits};
ghost use Rattle.graph_walk.specs.Graphs.{is_in, nexts};
ghost use Rattle.graph_walk.specs.Late.{Closes, ClosesSome};
ghost use Rattle.graph_walk.specs.Paths.{calls};
ghost use Rattle.std.specs.List.{AllByRecursion};

use crate::Walkable;
use crate::depth_stack::DepthWalk;
use crate::found::Found;
use crate::visits::{new_walk, visit};
use elem::{Elem, NoMemory, Steps, same};
use hash_seed::Seed;
use std::alloc::Global;
use std::sync::ledger::Ledger;

/// Whether the graph has a cycle, as Guava's `Graphs.hasCycle`: a path of at least one edge from a node back to itself, which
/// without directions uses no edge twice. A loop is a cycle.
///
/// It visits all nodes depth first, and then goes once more through the next nodes of each, so it takes O(nodes + edges).
/// `NoMemory` is the only error.
pub fn has_cycle<W: Walkable, L: Ledger>(
    alloc: Global,
    seed: Seed,
    g: &W,
    steps: &mut Steps<L>,
) -> Result<bool, NoMemory>
    ensures answer { IfOk result (λ found. IsTrue found ↔ HasCycle (W.graph g.now)) }
    ensures steps { IfOk result (λ found. steps.new ≤ steps.old + 1 + length (W.graph g.now).nodes + 2 * calls (nexts (W.graph g.now)) (W.graph g.now).nodes) }
{
    let _directed = g.directed();
    let mut walk = new_walk(alloc, seed);
    visit_all(g, &mut walk, steps)?;
    let found = closes_some(alloc, seed, g, &walk.left, steps)?;
    Ok(found)
}

/// Visits all nodes in their order, where nothing has been visited.
fn visit_all<W: Walkable, L: Ledger>(
    g: &W,
    walk: &mut DepthWalk,
    steps: &mut Steps<L>,
) -> Result<(), NoMemory>
    requires entered { walk.old.entered ≡ [] }
    requires left { walk.old.left.items ≡ [] }
    requires idle { walk.old.stack.items ≡ [] }
    ensures visits { OnOk result (Visits (nexts (W.graph g.now)) (W.graph g.now).nodes [] [] walk.new.entered walk.new.left.items) }
    ensures steps { OnOk result (steps.new ≡ steps.old + 1 + length (W.graph g.now).nodes + calls (nexts (W.graph g.now)) walk.new.entered) }
{
    let _directed = g.directed();
    let mut next = g.first_node(steps);
    while let Some(a) = next {
        visit(g, &a, walk, steps)?;
        next = g.after_node(a, steps);
    }
    Ok(())
}

/// Whether a cycle is closed at some node of a list.
fn closes_some<W: Walkable, L: Ledger>(
    alloc: Global,
    seed: Seed,
    g: &W,
    list: &[Elem],
    steps: &mut Steps<L>,
) -> Result<bool, NoMemory>
    requires { AllByRecursion (λ x. is_in x (W.graph g.now).nodes ≡ true) list.now }
    ensures closes { IfOk result (λ found. IsTrue found ↔ ClosesSome (nexts (W.graph g.now)) (W.graph g.now).directed [] list.now) }
    ensures steps { IfOk result (λ found. steps.new ≤ steps.old + calls (nexts (W.graph g.now)) list.now) }
{
    let directed = g.directed();
    let mut before = Found::with_hasher(alloc, seed);
    for x in list {
        if closes(g, directed, &before, x, steps) {
            return Ok(true);
        }
        before.put(x)?;
    }
    Ok(false)
}

/// Whether a cycle is closed at a node, where others stand before it.
fn closes<W: Walkable, L: Ledger>(
    g: &W,
    directed: bool,
    before: &Found,
    x: &Elem,
    steps: &mut Steps<L>,
) -> bool
    requires { is_in x.now (W.graph g.now).nodes ≡ true }
    ensures closes { IsTrue result ↔ Closes (nexts (W.graph g.now)) directed before.now x.now }
    ensures steps { steps.new ≤ steps.old + 1 + length (nexts (W.graph g.now) x.now) }
{
    let _directed = g.directed();
    let mut one_is_late = directed;
    let mut next = g.first_next(*x, steps);
    while let Some(y) = next {
        if !before.has(&y) {
            if one_is_late || same(x, &y) {
                return true;
            }
            one_is_late = true;
        }
        next = g.next_after(*x, y, steps);
    }
    false
}
