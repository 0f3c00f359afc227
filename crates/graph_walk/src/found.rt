ghost use Rattle.std.specs.Prelude.{◌≡◌, ◌<◌, not, [], length, slice_index_or, IfOk, OnOk, OnErr};
ghost use Rattle.graph_walk.specs.Graphs.{is_in};
ghost use Rattle.graph_walk.specs.Found.{with_new};

use elem::{Elem, NoMemory};
use hash_seed::{Seed, SeededSet};
use std::alloc::Global;
use std::marker::Model;

/// Elements in the order in which they were first put, each once.
#[derive(Drop)]
pub struct Found {
    order: Vec<Elem>,
    seen: SeededSet<Elem>,
}

impl Model for Found {
    ghost use Rattle.std.specs.Prelude.{◌≡◌, List};
    ghost use Rattle.std.specs.HashSet.{contains};
    ghost use Rattle.elem.specs.declared.elements.Elem.{Elem as Element};
    ghost use Rattle.elem.specs.Elements.{same};
    ghost use Rattle.graph_walk.specs.Graphs.{is_in};

    ghost Value = { List Element };

    ghost view = { λ m. m.order.items };

    ghost invariant = { λ m. (q : Element) → contains same m.seen q ≡ is_in q m.order.items };
}

impl Found {
    /// No elements, which are hashed by a seed.
    pub fn with_hasher(alloc: Global, seed: Seed) -> Found
        ensures { result ≡ [] }
    {
        Found {
            order: Vec::new(alloc),
            seen: SeededSet::with_hasher(alloc, seed),
        }
    }

    /// The number of elements.
    pub fn len(&self) -> usize
        ensures { result ≡ length self.now }
    {
        self.order.len()
    }

    /// Element number `i`, counted from 0.
    pub fn at(&self, i: usize) -> Elem
        requires { i < length self.now }
        ensures { result ≡ slice_index_or self.now i result }
    {
        self.order[i]
    }

    /// Whether an element is there.
    pub fn has(&self, x: &Elem) -> bool
        ensures { result ≡ is_in x.now self.now }
    {
        self.seen.contains(x)
    }

    /// Puts an element, last, where it is new, and tells whether it is.
    pub fn put(&mut self, x: &Elem) -> Result<bool, NoMemory>
        ensures new { IfOk result (λ new. new ≡ not (is_in x.now self.old)) }
        ensures list { OnOk result (self.new ≡ with_new x.now self.old) }
        ensures err { OnErr result (self.new ≡ self.old) }
    {
        if self.order.reserve(1).is_err() {
            return Err(NoMemory);
        }
        match self.seen.insert(*x) {
            Ok(true) => {
                self.order.push_reserved(*x);
                Ok(true)
            }
            Ok(false) => Ok(false),
            Err(_) => Err(NoMemory),
        }
    }

    /// The elements as a list.
    pub fn into_list(self) -> Vec<Elem>
        ensures { result.items ≡ self }
    {
        self.order
    }
}
