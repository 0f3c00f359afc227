//! Depth-first visits, by a stack of positions.
ghost use Rattle.std.specs.Prelude.{◌≡◌, ◌+◌, ◌<◌, true, false, cond, [], ◌∷◌, ◌++◌, length, OnOk, List, Some};
ghost use Rattle.elem.specs.declared.elements.Elem.{Elem as Element};
ghost use Rattle.graph_walk.specs.DepthFirst.{Visits};
ghost use Rattle.graph_walk.specs.Found.{with_new};
ghost use Rattle.graph_walk.specs.Graphs.{is_in, nexts};
ghost use Rattle.graph_walk.specs.Paths.{calls};
ghost use Rattle.graph_walk.specs.Places.{IsAmong};
ghost use Rattle.graph_walk.specs.Stacks.{frames, begun, Finishes, AreFrames, pending, work};

use crate::Walkable;
use crate::depth_stack::{DepthWalk, Frame};
use crate::found::Found;
use elem::{Elem, NoMemory, Steps};
use hash_seed::Seed;
use std::alloc::Global;
use std::sync::ledger::Ledger;

/// A walk that has visited nothing, and finds nodes again by a seed.
pub fn new_walk(alloc: Global, seed: Seed) -> DepthWalk
    ensures entered { result.entered ≡ [] }
    ensures left { result.left.items ≡ [] }
    ensures idle { result.stack.items ≡ [] }
{
    DepthWalk {
        entered: Found::with_hasher(alloc, seed),
        left: Vec::new(alloc),
        stack: Vec::new(alloc),
    }
}

/// Visits a node.
pub fn visit<W: Walkable, L: Ledger>(
    g: &W,
    a: &Elem,
    walk: &mut DepthWalk,
    steps: &mut Steps<L>,
) -> Result<(), NoMemory>
    requires node { is_in a.now (W.graph g.now).nodes ≡ true }
    requires idle { walk.old.stack.items ≡ [] }
    ensures visits { OnOk result (Visits (nexts (W.graph g.now)) (a.now ∷ []) walk.old.entered walk.old.left.items walk.new.entered walk.new.left.items) }
    ensures idle { OnOk result (walk.new.stack.items ≡ []) }
    ensures steps { OnOk result (steps.new + calls (nexts (W.graph g.now)) walk.old.entered ≡ steps.old + calls (nexts (W.graph g.now)) walk.new.entered) }
{
    enter(g, a, walk, steps)?;
    while let Some(frame) = walk.stack.pop() {
        go_on(g, &frame, walk, steps)?;
    }
    Ok(())
}

/// Visits one more next node of a node, or leaves it where there is no more.
fn go_on<W: Walkable, L: Ledger>(
    g: &W,
    frame: &Frame,
    walk: &mut DepthWalk,
    steps: &mut Steps<L>,
) -> Result<(), NoMemory>
    requires { AreFrames (nexts (W.graph g.now)) (W.graph g.now).nodes (frame.now ∷ frames walk.old) }
    ensures finishes { OnOk result ((entered left : List Element) → Finishes (nexts (W.graph g.now)) (frames walk.new) walk.new.entered walk.new.left.items entered left → Finishes (nexts (W.graph g.now)) (frame.now ∷ frames walk.old) walk.old.entered walk.old.left.items entered left) }
    ensures frames { OnOk result (AreFrames (nexts (W.graph g.now)) (W.graph g.now).nodes (frames walk.new)) }
    ensures nearer { OnOk result (work (nexts (W.graph g.now)) (W.graph g.now).nodes walk.new < work (nexts (W.graph g.now)) (W.graph g.now).nodes walk.old + pending (nexts (W.graph g.now)) (frame.now ∷ []) + 1) }
    ensures steps { OnOk result (steps.new + pending (nexts (W.graph g.now)) (frames walk.new) + calls (nexts (W.graph g.now)) walk.old.entered ≡ steps.old + pending (nexts (W.graph g.now)) (frame.now ∷ frames walk.old) + calls (nexts (W.graph g.now)) walk.new.entered) }
{
    let _directed = g.directed();
    match frame.next {
        None => {
            push(&mut walk.left, &frame.node)?;
            Ok(())
        }
        Some(x) => {
            let next = g.next_after(frame.node, x, steps);
            let node = frame.node;
            push(&mut walk.stack, &Frame { node, next })?;
            enter(g, &x, walk, steps)?;
            Ok(())
        }
    }
}

/// Enters a node that was not entered.
fn enter<W: Walkable, L: Ledger>(
    g: &W,
    x: &Elem,
    walk: &mut DepthWalk,
    steps: &mut Steps<L>,
) -> Result<(), NoMemory>
    requires { is_in x.now (W.graph g.now).nodes ≡ true }
    ensures entered { OnOk result (walk.new.entered ≡ with_new x.now walk.old.entered) }
    ensures left { OnOk result (walk.new.left.items ≡ walk.old.left.items) }
    ensures stack { OnOk result (walk.new.stack.items ≡ cond (is_in x.now walk.old.entered) walk.old.stack.items (walk.old.stack.items ++ begun (nexts (W.graph g.now)) x.now ∷ [])) }
    ensures steps { OnOk result (steps.new ≡ steps.old + cond (is_in x.now walk.old.entered) 0 1) }
{
    let new = walk.entered.put(x)?;
    if !new {
        return Ok(());
    }
    let next = g.first_next(*x, steps);
    push(&mut walk.stack, &Frame { node: *x, next })
}

/// Appends an item.
pub fn push<T: Copy>(items: &mut Vec<T>, item: &T) -> Result<(), NoMemory>
    ensures { OnOk result (items.new.items ≡ items.old.items ++ item.now ∷ []) }
{
    match items.push(*item) {
        Ok(()) => Ok(()),
        Err(_) => Err(NoMemory),
    }
}
