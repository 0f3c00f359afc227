//! The two kinds of rows in which bags keep their counts.
use crate::CountRows;
use elem::{Compare, Elem, NoMemory};
use hash_seed::Seed;
use linked_base::FreeLinkedMap;
use plain_base::FreeTreeMapRows;
use std::alloc::Global;

impl CountRows for FreeLinkedMap<u32> {
    ghost use Rattle.std.specs.Prelude.{[], ◌∷◌, ◌++◌};
    ghost use Rattle.linked_base.specs.LastRow.{adds_last};

    ghost rows = { λ m. m };

    ghost inserted = { λ rows x n. rows ++ (x, n) ∷ [] };

    fn with_hasher(alloc: Global, seed: Seed) -> FreeLinkedMap<u32> {
        FreeLinkedMap::with_hasher(alloc, seed)
    }

    fn len(&self) -> usize {
        self.len()
    }

    fn probe(&self, x: Elem) -> Option<u32> {
        self.probe(x)
    }

    fn first(&self) -> Option<Elem> {
        self.first()
    }

    fn last(&self) -> Option<Elem> {
        self.last()
    }

    fn after(&self, k: Elem) -> Option<Elem> {
        self.after(k)
    }

    fn before(&self, k: Elem) -> Option<Elem> {
        self.before(k)
    }

    fn first_row(&self) -> Option<(Elem, u32)> {
        self.first_row()
    }

    fn last_row(&self) -> Option<(Elem, u32)> {
        self.last_row()
    }

    fn row_after(&self, k: Elem) -> Option<(Elem, u32)> {
        self.row_after(k)
    }

    fn row_before(&self, k: Elem) -> Option<(Elem, u32)> {
        self.row_before(k)
    }

    fn insert(&mut self, x: Elem, n: u32) -> Result<(), NoMemory> {
        self.insert(x, n)
    }

    fn replace(&mut self, x: Elem, n: u32) -> u32 {
        self.replace(x, n)
    }

    fn remove(&mut self, x: Elem) -> Option<u32> {
        self.remove(x)
    }

    fn clear(&mut self) {
        self.clear();
    }

    ghost adds_row = { adds_last };
}

impl<C: Compare> CountRows for FreeTreeMapRows<u32, C> {
    ghost use Rattle.plain_base.specs.Sorted.{placed};
    ghost use Rattle.plain_base.specs.SortedLaws.{placed-adds};

    ghost rows = { λ m. m };

    ghost inserted = { placed C.before };

    fn with_hasher(alloc: Global, _seed: Seed) -> FreeTreeMapRows<u32, C> {
        FreeTreeMapRows::new(alloc)
    }

    fn len(&self) -> usize {
        self.len()
    }

    fn probe(&self, x: Elem) -> Option<u32> {
        self.probe(x)
    }

    fn first(&self) -> Option<Elem> {
        self.first()
    }

    fn last(&self) -> Option<Elem> {
        self.last()
    }

    fn after(&self, k: Elem) -> Option<Elem> {
        self.after(k)
    }

    fn before(&self, k: Elem) -> Option<Elem> {
        self.before(k)
    }

    fn first_row(&self) -> Option<(Elem, u32)> {
        self.first_row()
    }

    fn last_row(&self) -> Option<(Elem, u32)> {
        self.last_row()
    }

    fn row_after(&self, k: Elem) -> Option<(Elem, u32)> {
        self.row_after(k)
    }

    fn row_before(&self, k: Elem) -> Option<(Elem, u32)> {
        self.row_before(k)
    }

    fn insert(&mut self, x: Elem, n: u32) -> Result<(), NoMemory> {
        self.insert(x, n)
    }

    fn replace(&mut self, x: Elem, n: u32) -> u32 {
        self.replace(x, n)
    }

    fn remove(&mut self, x: Elem) -> Option<u32> {
        self.remove(x)
    }

    fn clear(&mut self) {
        self.clear();
    }

    ghost adds_row = { λ old x n. placed-adds C.before x n old };
}
