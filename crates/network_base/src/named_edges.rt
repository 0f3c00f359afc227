ghost use Rattle.std.specs.Prelude.{◌≡◌, ◌<◌, ◌≤◌, ℕ, ◌+◌, [], ◌∷◌, ◌++◌, length, slice_get, cond, Some, None, OnOk, OnErr, IfSome, MatchBool};
ghost use Rattle.std.specs.List.{IsDistinct};
ghost use Rattle.elem.specs.declared.elements.Elem.{Elem as Key};
ghost use Rattle.elem.specs.Elements.{same};
ghost use Rattle.elem.specs.Keyed.{value_at, IsPresent};
ghost use Rattle.mm_base.specs.PairRows.{IsLive, pair_of};
ghost use Rattle.graph_base.specs.Edges.{incident};
ghost use Rattle.network_base.specs.declared.named_edges.Joined.{Joined as Row};
ghost use Rattle.network_base.specs.Networks.{names, ends_of, without_edge};

use elem::{Elem, NoMemory, same};
use graph_base::halves::{add_halves, drop_halves};
use hash_seed::Seed;
use linked_base::FreeLinkedMap;
use mm_base::{FreeFlatPairs, PairId};
use std::alloc::Global;
use std::marker::Model;

/// The ends of an edge, the ids of its halves, and its number. A loop has one half, its first.
#[derive(Clone, Copy)]
pub struct Joined {
    pub from: Elem,
    pub to: Elem,
    pub first: PairId,
    pub second: PairId,
    pub number: usize,
}

/// Edges that are elements of their own, in the order of their coming. Its calls are not counted.
///
/// `rows` finds an edge, and `halves` the edges at a node. `next` is the number of the next edge, as long as there are
/// numbers; until then they rise along the rows.
#[derive(Drop)]
pub struct NamedEdges {
    rows: FreeLinkedMap<Joined>,
    halves: FreeFlatPairs,
    next: Option<usize>,
}

impl Model for NamedEdges {
    ghost use Rattle.std.specs.Prelude.{List};
    ghost use Rattle.graph_base.specs.Edges.{Edge};
    ghost use Rattle.network_base.specs.NamedEdges.{edges_of, AreNamed};

    ghost Value = { List Edge };

    ghost view = { λ m. edges_of m.rows };

    ghost invariant = { λ m. AreNamed m.rows m.halves m.next };
}

/// The id of the half that an edge has at a node, which is one of its ends.
fn half_at(a: &Elem, row: &Joined) -> PairId
    ensures { result ≡ cond (same a.now row.now.from) row.now.first row.now.second }
{
    if same(a, &row.from) {
        row.first
    } else {
        row.second
    }
}

/// The number of the next edge, or any where numbers have run out.
fn number_of(next: &Option<usize>) -> usize
    ensures { (n : ℕ) → next.now ≡ Some n → result ≡ n }
{
    match next {
        None => 0,
        Some(number) => *number,
    }
}

/// The number after that of the next edge, as long as there are numbers.
fn number_after(next: &Option<usize>) -> Option<usize>
    ensures { (n : ℕ) → result ≡ Some n → (m : ℕ) × (next.now ≡ Some m) × (n ≡ m + 1) }
{
    match next {
        None => None,
        Some(number) => {
            if *number == usize::MAX {
                None
            } else {
                Some(*number + 1)
            }
        }
    }
}

/// An edge with its ends.
fn whole_edge(rows: &FreeLinkedMap<Joined>, x: &Elem) -> (Elem, Elem, Elem)
    requires { IsPresent rows.now x.now }
    ensures { (row : Row) → value_at rows.now x.now ≡ Some row → result ≡ (row.from, row.to, x.now) }
{
    let row = rows.probe(*x).unwrap();
    (row.from, row.to, *x)
}

/// The edge that has a half.
fn edge_of_half(
    rows: &FreeLinkedMap<Joined>,
    halves: &FreeFlatPairs,
    half: PairId,
) -> (Elem, Elem, Elem)
    requires live { IsLive halves.now half }
    requires row { (p : Key × Key) → pair_of halves.now half ≡ Some p → IsPresent rows.now p.1 }
    ensures { (p : Key × Key) (row : Row) → pair_of halves.now half ≡ Some p → value_at rows.now p.1 ≡ Some row → result ≡ (row.from, row.to, p.1) }
{
    let (_end, x) = halves.pair(half);
    whole_edge(rows, &x)
}

impl NamedEdges {
    /// No edges, which are hashed by a seed, as their ends are.
    pub fn with_hasher(alloc: Global, seed: Seed) -> NamedEdges
        ensures { result ≡ [] }
    {
        NamedEdges {
            rows: FreeLinkedMap::with_hasher(alloc, seed),
            halves: FreeFlatPairs::with_hasher(alloc, seed),
            next: Some(0),
        }
    }

    /// The number of edges.
    pub fn len(&self) -> usize
        ensures len { result ≡ length self.now }
        ensures distinct { IsDistinct same (names self.now) }
    {
        self.rows.len()
    }

    /// The ends of an edge.
    pub fn ends(&self, x: &Elem) -> Option<(Elem, Elem)>
        ensures { result ≡ ends_of x.now self.now }
    {
        match self.rows.probe(*x) {
            None => None,
            Some(row) => Some((row.from, row.to)),
        }
    }

    /// The number of the edges at a node.
    pub fn count_at(&self, a: &Elem) -> usize
        ensures { result ≡ length (incident a.now self.now) }
    {
        self.halves.count_of(*a)
    }

    /// The first edge.
    pub fn first(&self) -> Option<(Elem, Elem, Elem)>
        ensures { result ≡ slice_get self.now 0 }
    {
        let _len = self.rows.len();
        let x = self.rows.first()?;
        Some(whole_edge(&self.rows, &x))
    }

    /// The edge after another.
    pub fn after(&self, e: &(Elem, Elem, Elem)) -> Option<(Elem, Elem, Elem)>
        requires { (k : ℕ) × (slice_get self.now k ≡ Some e.now) }
        ensures { (k : ℕ) → slice_get self.now k ≡ Some e.now → result ≡ slice_get self.now (k + 1) }
    {
        let _len = self.rows.len();
        let next = self.rows.after(e.2)?;
        Some(whole_edge(&self.rows, &next))
    }

    /// Whether an edge comes before another, where their numbers tell.
    pub fn comes_before(&self, e: &(Elem, Elem, Elem), f: &(Elem, Elem, Elem)) -> Option<bool>
        requires first { (i : ℕ) × (slice_get self.now i ≡ Some e.now) }
        requires second { (j : ℕ) × (slice_get self.now j ≡ Some f.now) }
        ensures { IfSome result (λ before. (i j : ℕ) → slice_get self.now i ≡ Some e.now → slice_get self.now j ≡ Some f.now → MatchBool before (i < j) (j ≤ i)) }
    {
        let _len = self.rows.len();
        let first = self.rows.probe(e.2).unwrap();
        let second = self.rows.probe(f.2).unwrap();
        match self.next {
            None => None,
            Some(_number) => Some(first.number < second.number),
        }
    }

    /// The first edge at a node.
    pub fn first_at(&self, a: &Elem) -> Option<(Elem, Elem, Elem)>
        ensures { result ≡ slice_get (incident a.now self.now) 0 }
    {
        let _len = self.rows.len();
        let _halves = self.halves.len();
        let half = self.halves.at(*a, 0)?;
        Some(edge_of_half(&self.rows, &self.halves, half))
    }

    /// The edge after another of those at a node.
    pub fn after_at(&self, a: &Elem, e: &(Elem, Elem, Elem)) -> Option<(Elem, Elem, Elem)>
        requires { (k : ℕ) × (slice_get (incident a.now self.now) k ≡ Some e.now) }
        ensures { (k : ℕ) → slice_get (incident a.now self.now) k ≡ Some e.now → result ≡ slice_get (incident a.now self.now) (k + 1) }
    {
        let _len = self.rows.len();
        let _halves = self.halves.len();
        let row = self.rows.probe(e.2).unwrap();
        let half = half_at(a, &row);
        let next = self.halves.after_in_key(half)?;
        Some(edge_of_half(&self.rows, &self.halves, next))
    }

    /// Puts a new edge last.
    pub fn add(&mut self, a: &Elem, b: &Elem, x: &Elem) -> Result<(), NoMemory>
        requires { ends_of x.now self.old ≡ None }
        ensures ok { OnOk result (self.new ≡ self.old ++ (a.now, b.now, x.now) ∷ []) }
        ensures err { OnErr result (self.new ≡ self.old) }
    {
        let (first, second) = add_halves(&mut self.halves, a, b, x)?;
        let row = Joined {
            from: *a,
            to: *b,
            first,
            second,
            number: number_of(&self.next),
        };
        if self.rows.insert(*x, row).is_err() {
            drop_halves(&mut self.halves, a, b, first, second, x);
            return Err(NoMemory);
        }
        self.next = number_after(&self.next);
        Ok(())
    }

    /// Removes an edge, and tells its ends.
    pub fn remove(&mut self, x: &Elem) -> Option<(Elem, Elem)>
        ensures ends { result ≡ ends_of x.now self.old }
        ensures edges { self.new ≡ without_edge x.now self.old }
    {
        let _len = self.rows.len();
        let row = self.rows.remove(*x)?;
        drop_halves(
            &mut self.halves,
            &row.from,
            &row.to,
            row.first,
            row.second,
            x,
        );
        Some((row.from, row.to))
    }
}
