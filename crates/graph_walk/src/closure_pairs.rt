ghost use Rattle.std.specs.Prelude.{◌≡◌};

use elem::Elem;
use std::marker::Model;

/// The nodes of a graph and the pairs of nodes that a path joins: what Guava's `Graphs.transitiveClosure` makes.
#[derive(Drop)]
pub struct Closure {
    pub(crate) nodes: Vec<Elem>,
    pub(crate) edges: Vec<(Elem, Elem)>,
}

impl Model for Closure {
    ghost use Rattle.graph_walk.specs.Closures.{Pairs};

    ghost Value = { Pairs };

    ghost view = { λ c. record { nodes = c.nodes.items; edges = c.edges.items } };
}

impl Closure {
    /// The closure of these nodes and edges.
    pub(crate) fn new(nodes: Vec<Elem>, edges: Vec<(Elem, Elem)>) -> Closure
        ensures { result ≡ record { nodes = nodes.items; edges = edges.items } }
    {
        Closure { nodes, edges }
    }

    /// The nodes, in the order of the graph.
    pub fn nodes(&self) -> &[Elem]
        ensures { result.now ≡ self.now.nodes }
    {
        self.nodes.as_slice()
    }

    /// The edges by their ends, in the order of their first ends, and of their second ends where these are the same.
    pub fn edges(&self) -> &[(Elem, Elem)]
        ensures { result.now ≡ self.now.edges }
    {
        self.edges.as_slice()
    }
}
