use elem::{Elem, Steps};
use graph_base::ValueGraphRows;
use graph_walk::Walkable;
use std::sync::ledger::Ledger;

/// A value graph, and whether its edges are walked against their directions: a live view, as Guava's `Graphs.transpose`.
/// Without directions it is the same graph either way. A next node costs O(1), and as much again for each edge passed by
/// that goes the other way.
#[derive(Clone, Copy)]
pub struct Turned<'a> {
    /// The value graph.
    pub rows: &'a ValueGraphRows,
    /// Whether edges are walked against their directions.
    pub turned: bool,
}

impl<'a> Walkable for Turned<'a> {
    ghost use Rattle.graph_turned.specs.Turned.{turned_graph};

    ghost graph = { λ t. turned_graph t.turned t.rows.now };

    fn directed(&self) -> bool {
        let _len = self.rows.len();
        self.rows.directed()
    }

    fn has<L: Ledger>(&self, a: Elem, steps: &mut Steps<L>) -> bool {
        self.rows.has_node(a, steps)
    }

    fn first_node<L: Ledger>(&self, steps: &mut Steps<L>) -> Option<Elem> {
        self.rows.first_node(steps)
    }

    fn after_node<L: Ledger>(&self, a: Elem, steps: &mut Steps<L>) -> Option<Elem> {
        self.rows.node_after(a, steps)
    }

    fn first_next<L: Ledger>(&self, a: Elem, steps: &mut Steps<L>) -> Option<Elem> {
        self.rows.first_next(a, self.turned, steps)
    }

    fn next_after<L: Ledger>(&self, a: Elem, b: Elem, steps: &mut Steps<L>) -> Option<Elem> {
        self.rows.next_after(a, b, self.turned, steps)
    }
}
