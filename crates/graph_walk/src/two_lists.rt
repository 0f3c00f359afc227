//! A graph as two lists, for tests.
ghost use Rattle.std.specs.Prelude.{◌≡◌, cond, Some, None, IfOk};
ghost use Rattle.std.specs.List.{filter_map};
ghost use Rattle.elem.specs.Elements.{same};
ghost use Rattle.graph_walk.specs.Graphs.{IsValid, end_from};
ghost use Rattle.graph_walk.specs.Places.{next_behind};

use crate::Walkable;
use elem::{Elem, NoMemory, Steps, same};
use std::alloc::Global;
use std::marker::Model;
use std::sync::ledger::Ledger;

/// A list of nodes and a list of edges. Each call goes through one of them.
#[derive(Drop)]
pub struct Listed {
    nodes: Vec<Elem>,
    edges: Vec<(Elem, Elem)>,
    directed: bool,
}

impl Model for Listed {
    ghost use Rattle.graph_walk.specs.Graphs.{Graph, IsValid};

    ghost Value = { Graph };

    ghost view = { λ m. record { nodes = m.nodes.items; edges = m.edges.items; directed = m.directed } };

    ghost invariant = { λ m. IsValid (record { nodes = m.nodes.items; edges = m.edges.items; directed = m.directed }) };
}

/// The graph of two lists.
pub fn make_listed(
    alloc: Global,
    nodes: &[Elem],
    edges: &[(Elem, Elem)],
    directed: bool,
) -> Result<Listed, NoMemory>
    requires { IsValid (record { nodes = nodes.now; edges = edges.now; directed = directed }) }
    ensures { IfOk result (λ g. g ≡ record { nodes = nodes.now; edges = edges.now; directed = directed }) }
{
    match (Vec::from_slice(alloc, nodes), Vec::from_slice(alloc, edges)) {
        (Ok(nodes), Ok(edges)) => Ok(Listed {
            nodes,
            edges,
            directed,
        }),
        _ => Err(NoMemory),
    }
}

/// The element behind another, or the first.
fn next_in(xs: &[Elem], behind: Option<Elem>) -> Option<Elem>
    ensures { result ≡ next_behind behind xs.now }
{
    let mut behind = behind;
    for x in xs {
        match behind {
            None => return Some(*x),
            Some(b) => behind = unless_same(&b, x),
        }
    }
    None
}

/// The first of two elements where they differ.
fn unless_same(b: &Elem, x: &Elem) -> Option<Elem>
    ensures { result ≡ cond (same b.now x.now) None (Some b.now) }
{
    if same(b, x) { None } else { Some(*b) }
}

/// Where an edge leads from a node.
fn end_from(directed: bool, a: &Elem, e: &(Elem, Elem)) -> Option<Elem>
    ensures { result ≡ end_from directed a.now e.now }
{
    if same(a, &e.0) {
        return Some(e.1);
    }
    if !directed && same(a, &e.1) {
        return Some(e.0);
    }
    None
}

/// The end behind another of the ends to which edges lead from a node, or the first.
fn next_along(
    edges: &[(Elem, Elem)],
    directed: bool,
    a: &Elem,
    behind: Option<Elem>,
) -> Option<Elem>
    ensures { result ≡ next_behind behind (filter_map (end_from directed a.now) edges.now) }
{
    let mut behind = behind;
    for e in edges {
        if let Some(x) = end_from(directed, a, e) {
            match behind {
                None => return Some(x),
                Some(b) => behind = unless_same(&b, &x),
            }
        }
    }
    None
}

impl Walkable for Listed {
    ghost graph = { λ g. g };

    fn directed(&self) -> bool {
        self.directed
    }

    fn has<L: Ledger>(&self, a: Elem, steps: &mut Steps<L>) -> bool {
        steps.tick();
        self.nodes.iter().any(|x| same(&a, x))
    }

    fn first_node<L: Ledger>(&self, steps: &mut Steps<L>) -> Option<Elem> {
        steps.tick();
        next_in(&self.nodes, None)
    }

    fn after_node<L: Ledger>(&self, a: Elem, steps: &mut Steps<L>) -> Option<Elem> {
        steps.tick();
        next_in(&self.nodes, Some(a))
    }

    fn first_next<L: Ledger>(&self, a: Elem, steps: &mut Steps<L>) -> Option<Elem> {
        steps.tick();
        next_along(&self.edges, self.directed, &a, None)
    }

    fn next_after<L: Ledger>(&self, a: Elem, b: Elem, steps: &mut Steps<L>) -> Option<Elem> {
        steps.tick();
        next_along(&self.edges, self.directed, &a, Some(b))
    }
}
