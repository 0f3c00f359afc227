ghost use Rattle.std.specs.Prelude.{◌≡◌, ◌⊎◌, ◌+◌, cond, is_some, [], ◌∷◌, ◌++◌, None, Some, OnOk, OnErr, IfOk, IfSome};
ghost use Rattle.std.specs.Option.{option_map};
ghost use Rattle.elem.specs.Elements.{same};
ghost use Rattle.elem.specs.Rows.{first_key, last_key, key_after, key_before, set_row};
ghost use Rattle.elem.specs.Keyed.{value_at, IsPresent, IsAbsent, with_value};

use crate::FreeLinkedMap;
use elem::{Elem, Keyed, NoMemory, Steps};
use hash_seed::Seed;
use std::alloc::Global;
use std::marker::Model;
use std::sync::ledger::Ledger;

/// Rows of a key and a value with distinct keys, a new key last, as `java.util`'s `LinkedHashMap`. Each call that takes
/// `steps` counts one.
#[derive(Drop)]
pub struct LinkedMap<V: Copy> {
    free: FreeLinkedMap<V>,
}

/// Distinct elements, a new one last, as `java.util`'s `LinkedHashSet`.
pub type LinkedSet = LinkedMap<()>;

impl<V: Copy> Model for LinkedMap<V> {
    ghost use Rattle.std.specs.Prelude.{List};
    ghost use Rattle.elem.specs.declared.elements.Elem.{Elem as Key};

    ghost Value = { List (Key × V) };

    ghost view = { λ m. m.free };
}

impl<V: Copy> LinkedMap<V> {
    /// A map with no rows, under the fixed seed.
    pub fn new(alloc: Global) -> Result<LinkedMap<V>, NoMemory>
        ensures { IfOk result (λ m. m ≡ []) }
    {
        LinkedMap::with_hasher(alloc, Seed::fixed())
    }

    /// A map with no rows, whose keys are hashed by a seed.
    pub fn with_hasher(alloc: Global, seed: Seed) -> Result<LinkedMap<V>, NoMemory>
        ensures { IfOk result (λ m. m ≡ []) }
    {
        Ok(LinkedMap {
            free: FreeLinkedMap::with_hasher(alloc, seed),
        })
    }

    /// The first row.
    pub fn first_row<L: Ledger>(&self, steps: &mut Steps<L>) -> Option<(Elem, V)>
        ensures key { option_map (λ row. row.0) result ≡ first_key self.now }
        ensures value { IfSome result (λ row. value_at self.now row.0 ≡ Some row.1) }
        ensures step { steps.new ≡ steps.old + 1 }
    {
        steps.tick();
        self.free.first_row()
    }

    /// The last row.
    pub fn last_row<L: Ledger>(&self, steps: &mut Steps<L>) -> Option<(Elem, V)>
        ensures key { option_map (λ row. row.0) result ≡ last_key self.now }
        ensures value { IfSome result (λ row. value_at self.now row.0 ≡ Some row.1) }
        ensures step { steps.new ≡ steps.old + 1 }
    {
        steps.tick();
        self.free.last_row()
    }

    /// The row after that of `k`.
    pub fn row_after<L: Ledger>(&self, k: Elem, steps: &mut Steps<L>) -> Option<(Elem, V)>
        requires { IsPresent self.now k }
        ensures key { option_map (λ row. row.0) result ≡ key_after (same k) self.now }
        ensures value { IfSome result (λ row. value_at self.now row.0 ≡ Some row.1) }
        ensures step { steps.new ≡ steps.old + 1 }
    {
        steps.tick();
        self.free.row_after(k)
    }

    /// The row before that of `k`.
    pub fn row_before<L: Ledger>(&self, k: Elem, steps: &mut Steps<L>) -> Option<(Elem, V)>
        requires { IsPresent self.now k }
        ensures key { option_map (λ row. row.0) result ≡ key_before (same k) self.now }
        ensures value { IfSome result (λ row. value_at self.now row.0 ≡ Some row.1) }
        ensures step { steps.new ≡ steps.old + 1 }
    {
        steps.tick();
        self.free.row_before(k)
    }

    /// Gives a key a value, in the place of its row or in a new row, last. It tells the value before, and takes memory
    /// only for a new key.
    pub fn put<L: Ledger>(
        &mut self,
        k: Elem,
        v: V,
        steps: &mut Steps<L>,
    ) -> Result<Option<V>, NoMemory>
        ensures before { IfOk result (λ before. before ≡ value_at self.old k) }
        ensures rows { OnOk result (self.new ≡ cond (is_some (value_at self.old k)) (with_value self.old k v) (self.old ++ (k, v) ∷ [])) }
        ensures err { OnErr result (self.new ≡ self.old) }
        ensures memory { OnErr result (value_at self.old k ≡ None) }
        ensures step { steps.new ≡ steps.old + 1 }
    {
        steps.tick();
        self.free.put(k, v)
    }

    /// Puts the row of `new` and `v` in the place of the row of `old`.
    pub fn rekey<L: Ledger>(
        &mut self,
        old: Elem,
        new: Elem,
        v: V,
        steps: &mut Steps<L>,
    ) -> Result<(), NoMemory>
        requires old { IsPresent self.old old }
        requires new { IsAbsent self.old new ⊎ (new ≡ old) }
        ensures ok { OnOk result (self.new ≡ set_row (same old) self.old (new, v)) }
        ensures err { OnErr result (self.new ≡ self.old) }
        ensures step { steps.new ≡ steps.old + 1 }
    {
        steps.tick();
        self.free.rekey(old, new, v)
    }
}

impl<V: Copy> Keyed<V> for LinkedMap<V> {
    ghost use Rattle.std.specs.Prelude.{◌∷◌, ◌++◌};
    ghost use Rattle.linked_base.specs.LastRow.{adds_last};

    ghost rows = { λ m. m };

    ghost inserted = { λ rows k v. rows ++ (k, v) ∷ [] };

    fn len(&self) -> usize {
        self.free.len()
    }

    fn probe<L: Ledger>(&self, k: Elem, steps: &mut Steps<L>) -> Option<V> {
        steps.tick();
        self.free.probe(k)
    }

    fn first<L: Ledger>(&self, steps: &mut Steps<L>) -> Option<Elem> {
        steps.tick();
        self.free.first()
    }

    fn last<L: Ledger>(&self, steps: &mut Steps<L>) -> Option<Elem> {
        steps.tick();
        self.free.last()
    }

    fn after<L: Ledger>(&self, k: Elem, steps: &mut Steps<L>) -> Option<Elem> {
        steps.tick();
        self.free.after(k)
    }

    fn before<L: Ledger>(&self, k: Elem, steps: &mut Steps<L>) -> Option<Elem> {
        steps.tick();
        self.free.before(k)
    }

    fn insert<L: Ledger>(&mut self, k: Elem, v: V, steps: &mut Steps<L>) -> Result<(), NoMemory> {
        steps.tick();
        self.free.insert(k, v)
    }

    fn replace<L: Ledger>(&mut self, k: Elem, v: V, steps: &mut Steps<L>) -> V {
        steps.tick();
        self.free.replace(k, v)
    }

    fn remove<L: Ledger>(&mut self, k: Elem, steps: &mut Steps<L>) -> Option<V> {
        steps.tick();
        self.free.remove(k)
    }

    fn clear(&mut self) {
        self.free.clear();
    }

    ghost adds_row = { adds_last };
}
