ghost use Rattle.std.specs.Prelude.{◌≡◌, ℕ, ◌+◌, [], length, slice_get, Some, None, IfOk, OnOk, OnErr, OnSome, IfNone};
ghost use Rattle.graph_base.specs.Edges.{joining, edge_joining, value_joining, with_edge, without_edge, incident};
ghost use Rattle.graph_base.specs.Graphs.{AreApart};

use crate::edge_row::{
    EdgeRow, find_number, half_at, number_of, take_number, write_number, write_value,
};
use crate::halves::{add_halves, drop_halves};
use elem::{Elem, NoMemory};
use hash_seed::{Seed, SeededMap};
use linked_base::FreeLinkedMap;
use mm_base::FreeFlatPairs;
use slab::Slab;
use std::alloc::Global;
use std::marker::Model;

/// Edges in the order in which they were first put, at most one between two nodes. Its calls are not counted.
///
/// A row has a number, which `index` finds by the ends of the edge and `halves` by either end.
#[derive(Drop)]
pub struct EdgeRows {
    directed: bool,
    rows: FreeLinkedMap<EdgeRow>,
    index: SeededMap<(Elem, Elem), Elem>,
    halves: FreeFlatPairs,
    numbers: Slab<()>,
}

impl Model for EdgeRows {
    ghost use Rattle.std.specs.HashMap as hash;
    ghost use Rattle.slab.specs.Slab.{get};
    ghost use Rattle.graph_base.specs.Ends.{same_ends};
    ghost use Rattle.graph_base.specs.EdgeRows.{EdgeList, edges_of, AreEdges};

    ghost Value = { EdgeList };

    ghost view = { λ m. record { edges = edges_of m.rows; directed = m.directed } };

    ghost invariant = { λ m. AreEdges m.directed m.rows m.halves (hash.get same_ends m.index) (get m.numbers) };
}

impl EdgeRows {
    /// No edges, whose ends are hashed by a seed.
    pub fn with_hasher(alloc: Global, seed: Seed, directed: bool) -> EdgeRows
        ensures { result ≡ record { edges = []; directed = directed } }
    {
        EdgeRows {
            directed,
            rows: FreeLinkedMap::with_hasher(alloc, seed),
            index: SeededMap::with_hasher(alloc, seed),
            halves: FreeFlatPairs::with_hasher(alloc, seed),
            numbers: Slab::new(alloc),
        }
    }

    /// The number of edges.
    pub fn len(&self) -> usize
        ensures len { result ≡ length self.now.edges }
        ensures apart { AreApart self.now.directed self.now.edges }
    {
        self.rows.len()
    }

    /// Whether edges have directions.
    pub fn directed(&self) -> bool
        ensures { result ≡ self.now.directed }
    {
        self.directed
    }

    /// The number of the edges at a node.
    pub fn count_at(&self, a: &Elem) -> usize
        ensures { result ≡ length (incident a.now self.now.edges) }
    {
        self.halves.count_of(*a)
    }

    /// Edge number `i`, counted from 0.
    pub fn edge_at(&self, i: usize) -> Option<(Elem, Elem, Elem)>
        ensures { result ≡ slice_get self.now.edges i }
    {
        let (_number, row) = self.rows.row_at(i)?;
        Some((row.from, row.to, row.value))
    }

    /// Edge number `i` of those at a node.
    pub fn incident_at(&self, a: &Elem, i: usize) -> Option<(Elem, Elem, Elem)>
        ensures { result ≡ slice_get (incident a.now self.now.edges) i }
    {
        let _len = self.rows.len();
        let _halves = self.halves.len();
        let half = self.halves.at(*a, i)?;
        let (_end, number) = self.halves.pair(half);
        let row = self.rows.probe(number).unwrap();
        Some((row.from, row.to, row.value))
    }

    /// The edge after another of those at a node.
    pub fn after_at(&self, a: &Elem, e: &(Elem, Elem, Elem)) -> Option<(Elem, Elem, Elem)>
        requires { (k : ℕ) × (slice_get (incident a.now self.now.edges) k ≡ Some e.now) }
        ensures { (k : ℕ) → slice_get (incident a.now self.now.edges) k ≡ Some e.now → result ≡ slice_get (incident a.now self.now.edges) (k + 1) }
    {
        let _len = self.rows.len();
        let _halves = self.halves.len();
        let number = find_number(&self.index, self.directed, &e.0, &e.1).unwrap();
        let half = half_at(a, &self.rows.probe(number).unwrap());
        let next = self.halves.after_in_key(half)?;
        let (_end, other) = self.halves.pair(next);
        let row = self.rows.probe(other).unwrap();
        Some((row.from, row.to, row.value))
    }

    /// The edge between two nodes.
    pub fn edge(&self, a: &Elem, b: &Elem) -> Option<(Elem, Elem, Elem)>
        ensures { result ≡ edge_joining self.now.directed a.now b.now self.now.edges }
    {
        let _len = self.rows.len();
        let number = find_number(&self.index, self.directed, a, b)?;
        let row = self.rows.probe(number).unwrap();
        Some((row.from, row.to, row.value))
    }

    /// Gives the edge between two nodes another value, and tells the one before.
    pub fn replace(&mut self, a: &Elem, b: &Elem, v: &Elem) -> Option<Elem>
        ensures value { result ≡ value_joining self.old.directed a.now b.now self.old.edges }
        ensures edges { OnSome result (self.new ≡ record self.old { edges = with_edge self.old.directed a.now b.now v.now self.old.edges }) }
        ensures absent { IfNone result (self.new ≡ self.old) }
    {
        let _len = self.rows.len();
        let number = find_number(&self.index, self.directed, a, b)?;
        let row = self.rows.probe(number).unwrap();
        write_value(&mut self.rows, &number, &row, v);
        Some(row.value)
    }

    /// Puts an edge between two nodes that no edge joins, last.
    pub fn add(&mut self, a: &Elem, b: &Elem, v: &Elem) -> Result<(), NoMemory>
        requires { edge_joining self.old.directed a.now b.now self.old.edges ≡ None }
        ensures ok { OnOk result (self.new ≡ record self.old { edges = with_edge self.old.directed a.now b.now v.now self.old.edges }) }
        ensures err { OnErr result (self.new ≡ self.old) }
    {
        if self.numbers.reserve(1).is_err() {
            return Err(NoMemory);
        }
        if self.index.reserve(1).is_err() {
            return Err(NoMemory);
        }
        let place = self.numbers.vacant_key();
        let number = number_of(place);
        let (first, second) = add_halves(&mut self.halves, a, b, &number)?;
        let row = EdgeRow {
            from: *a,
            to: *b,
            value: *v,
            first,
            second,
            place,
        };
        if self.rows.insert(number, row).is_err() {
            drop_halves(&mut self.halves, a, b, first, second, &number);
            return Err(NoMemory);
        }
        write_number(&mut self.index, self.directed, a, b, &number);
        self.numbers.insert_reserved(());
        Ok(())
    }

    /// Removes the edge between two nodes, and tells it.
    pub fn remove(&mut self, a: &Elem, b: &Elem) -> Option<(Elem, Elem, Elem)>
        ensures edge { result ≡ edge_joining self.old.directed a.now b.now self.old.edges }
        ensures edges { self.new ≡ record self.old { edges = without_edge self.old.directed a.now b.now self.old.edges } }
    {
        let _len = self.rows.len();
        let number = take_number(&mut self.index, self.directed, a, b)?;
        let row = self.rows.remove(number).unwrap();
        drop_halves(
            &mut self.halves,
            &row.from,
            &row.to,
            row.first,
            row.second,
            &number,
        );
        self.numbers.remove(row.place);
        Some((row.from, row.to, row.value))
    }
}
