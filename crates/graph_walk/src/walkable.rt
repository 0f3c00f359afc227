use elem::{Elem, Steps};
use std::sync::ledger::Ledger;

/// A graph that can be walked through: Guava's `SuccessorsFunction` with the nodes in their order. Each call that takes
/// `steps` counts one.
///
/// The next nodes of a node are those to which its edges lead, without directions those at the other ends, in the order of
/// the edges. Each stands once, since no two edges join the same nodes. Walks ask for one after another, so each call
/// should take O(1).
pub trait Walkable {
    ghost use Rattle.std.specs.Prelude.{◌≡◌, ◌+◌, true, slice_get};
    ghost use Rattle.elem.specs.declared.elements.Elem.{Elem as Element};
    ghost use Rattle.graph_walk.specs.Graphs.{Graph, IsValid, is_in, nexts};
    ghost use Rattle.graph_walk.specs.Places.{after};

    /// The nodes and edges in their order.
    ghost graph: { Self → Graph };

    /// Whether edges go one way alone.
    fn directed(&self) -> bool
        ensures answer { result ≡ (graph self.now).directed }
        ensures valid { IsValid (graph self.now) };

    /// Whether there is a node.
    fn has<L: Ledger>(&self, a: Elem, steps: &mut Steps<L>) -> bool
        ensures answer { result ≡ is_in a (graph self.now).nodes }
        ensures step { steps.new ≡ steps.old + 1 };

    /// The first node.
    fn first_node<L: Ledger>(&self, steps: &mut Steps<L>) -> Option<Elem>
        ensures answer { result ≡ slice_get (graph self.now).nodes 0 }
        ensures step { steps.new ≡ steps.old + 1 };

    /// The node behind a node.
    fn after_node<L: Ledger>(&self, a: Elem, steps: &mut Steps<L>) -> Option<Elem>
        requires { is_in a (graph self.now).nodes ≡ true }
        ensures answer { result ≡ after a (graph self.now).nodes }
        ensures step { steps.new ≡ steps.old + 1 };

    /// The first next node of a node.
    fn first_next<L: Ledger>(&self, a: Elem, steps: &mut Steps<L>) -> Option<Elem>
        requires { is_in a (graph self.now).nodes ≡ true }
        ensures answer { result ≡ slice_get (nexts (graph self.now) a) 0 }
        ensures step { steps.new ≡ steps.old + 1 };

    /// The next node of `a` behind `b`, which is one of them.
    fn next_after<L: Ledger>(&self, a: Elem, b: Elem, steps: &mut Steps<L>) -> Option<Elem>
        requires node { is_in a (graph self.now).nodes ≡ true }
        requires next { is_in b (nexts (graph self.now) a) ≡ true }
        ensures answer { result ≡ after b (nexts (graph self.now) a) }
        ensures step { steps.new ≡ steps.old + 1 };
}
