ghost use Rattle.std.specs.Prelude.{◌≡◌, true, length, [], Some, OnOk, OnErr, slice_get};
ghost use Rattle.std.specs.Option.{option_copied};
ghost use Rattle.std.specs.Map.{keys_of};
ghost use Rattle.elem.specs.Cuts.{cut_upto};
ghost use Rattle.elem.specs.Elements.{same};
ghost use Rattle.elem.specs.Keyed.{value_at, IsPresent, IsAbsent, AddsRow};
ghost use Rattle.elem.specs.Orders.{natural_before};
ghost use Rattle.elem.specs.Rows.{first_key, last_key, key_after, key_before};
ghost use Rattle.plain_base.specs.Sorted.{IsInOrder, rows_above, rows_below, rows_between};
ghost use Rattle.plain_base.specs.TwoKeys.{same_both, group, by_both, HasBoth, IsInBothOrder, without_group, without_both, with_both};
ghost use Rattle.plain_base.specs.Groups.{rows_in, first_pair_of, last_pair_of};

use crate::FreeTreeMapRows;
use crate::groups::{add_row, drop_row, put_rows};
use elem::{Elem, NoMemory, Window};
use std::alloc::Global;
use std::marker::Model;

/// Rows of two keys and a value, sorted by the first key and then by the second: a `java.util.TreeMap` of `TreeMap`s, as
/// Guava's `TreeMultimap` and `TreeBasedTable` have them. Its calls are not counted.
#[derive(Drop)]
pub struct FreeTwoKeyRows<V: Copy> {
    groups: FreeTreeMapRows<FreeTreeMapRows<V>>,
    total: usize,
    alloc: Global,
}

impl<V: Copy> Model for FreeTwoKeyRows<V> {
    ghost use Rattle.std.specs.Prelude.{List};
    ghost use Rattle.elem.specs.declared.elements.Elem.{Elem as Element};

    ghost Value = { List (Element × (Element × V)) };

    ghost use Rattle.plain_base.specs.Groups.{flat, AreGroups};

    ghost view = { λ m. flat m.groups };

    ghost invariant = { λ m. AreGroups m.groups m.total };
}

impl<V: Copy> FreeTwoKeyRows<V> {
    /// No rows.
    pub fn new(alloc: Global) -> FreeTwoKeyRows<V>
        ensures { result ≡ [] }
    {
        FreeTwoKeyRows {
            groups: FreeTreeMapRows::new(alloc),
            total: 0,
            alloc,
        }
    }

    /// The number of rows.
    pub fn len(&self) -> usize
        ensures len { result ≡ length self.now }
        ensures order { IsInBothOrder self.now }
    {
        self.total
    }

    /// The value at two keys.
    pub fn get(&self, k: &Elem, x: &Elem) -> Option<V>
        ensures { result ≡ value_at (group k.now self.now) x.now }
    {
        match self.group(k) {
            Some(group) => group.probe(*x),
            None => None,
        }
    }

    /// The number of a first key's rows.
    pub fn count_of(&self, k: &Elem) -> usize
        ensures { result ≡ length (group k.now self.now) }
    {
        match self.group(k) {
            Some(group) => group.len(),
            None => 0,
        }
    }

    /// The first of the first keys.
    pub fn first(&self) -> Option<Elem>
        ensures { result ≡ first_key self.now }
    {
        self.groups.first()
    }

    /// The last of the first keys.
    pub fn last(&self) -> Option<Elem>
        ensures { result ≡ last_key self.now }
    {
        self.groups.last()
    }

    /// The first key that comes after `k`.
    pub fn next_above(&self, k: &Elem) -> Option<Elem>
        ensures { result ≡ first_key (rows_above natural_before k.now self.now) }
    {
        self.groups.next_above(*k)
    }

    /// The last first key that comes before `k`.
    pub fn next_below(&self, k: &Elem) -> Option<Elem>
        ensures { result ≡ last_key (rows_below natural_before k.now self.now) }
    {
        self.groups.next_below(*k)
    }

    /// The first of the first keys in a window.
    pub fn first_in(&self, w: &Window) -> Option<Elem>
        requires { cut_upto natural_before w.now.lo w.now.hi ≡ true }
        ensures { result ≡ first_key (rows_between natural_before w.now.lo w.now.hi self.now) }
    {
        self.groups.first_in(w)
    }

    /// The last of the first keys in a window.
    pub fn last_in(&self, w: &Window) -> Option<Elem>
        requires { cut_upto natural_before w.now.lo w.now.hi ≡ true }
        ensures { result ≡ last_key (rows_between natural_before w.now.lo w.now.hi self.now) }
    {
        self.groups.last_in(w)
    }

    /// The first of a first key's second keys.
    pub fn first_of(&self, k: &Elem) -> Option<Elem>
        ensures { result ≡ first_key (group k.now self.now) }
    {
        match self.group(k) {
            Some(group) => group.first(),
            None => None,
        }
    }

    /// The second key after `x`, among those of `k`.
    pub fn after_in(&self, k: &Elem, x: &Elem) -> Option<Elem>
        requires { HasBoth self.now k.now x.now }
        ensures { result ≡ key_after (same x.now) (group k.now self.now) }
    {
        match self.group(k) {
            Some(group) => group.after(*x),
            None => None,
        }
    }

    /// The second key before `x`, among those of `k`.
    pub fn before_in(&self, k: &Elem, x: &Elem) -> Option<Elem>
        requires { HasBoth self.now k.now x.now }
        ensures { result ≡ key_before (same x.now) (group k.now self.now) }
    {
        match self.group(k) {
            Some(group) => group.before(*x),
            None => None,
        }
    }

    /// The first of a first key's second keys in a window.
    pub fn first_of_in(&self, k: &Elem, w: &Window) -> Option<Elem>
        requires { cut_upto natural_before w.now.lo w.now.hi ≡ true }
        ensures { result ≡ first_key (rows_between natural_before w.now.lo w.now.hi (group k.now self.now)) }
    {
        match self.group(k) {
            Some(group) => group.first_in(w),
            None => None,
        }
    }

    /// The last of a first key's second keys in a window.
    pub fn last_of_in(&self, k: &Elem, w: &Window) -> Option<Elem>
        requires { cut_upto natural_before w.now.lo w.now.hi ≡ true }
        ensures { result ≡ last_key (rows_between natural_before w.now.lo w.now.hi (group k.now self.now)) }
    {
        match self.group(k) {
            Some(group) => group.last_in(w),
            None => None,
        }
    }

    /// The keys of the first row.
    pub fn first_both(&self) -> Option<(Elem, Elem)>
        ensures { result ≡ first_key (by_both self.now) }
    {
        self.first_pair_of(self.first())
    }

    /// The keys of the row after that of `k` and `x`.
    pub fn after_both(&self, k: &Elem, x: &Elem) -> Option<(Elem, Elem)>
        requires { HasBoth self.now k.now x.now }
        ensures { result ≡ key_after (same_both (k.now, x.now)) (by_both self.now) }
    {
        let _ = &self.groups;
        match self.after_in(k, x) {
            Some(next) => Some((*k, next)),
            None => self.first_pair_of(self.next_above(k)),
        }
    }

    /// The keys of the last row.
    pub fn last_both(&self) -> Option<(Elem, Elem)>
        ensures { result ≡ last_key (by_both self.now) }
    {
        self.last_pair_of(self.last())
    }

    /// The keys of the row before that of `k` and `x`.
    pub fn before_both(&self, k: &Elem, x: &Elem) -> Option<(Elem, Elem)>
        requires { HasBoth self.now k.now x.now }
        ensures { result ≡ key_before (same_both (k.now, x.now)) (by_both self.now) }
    {
        let _ = &self.groups;
        match self.before_in(k, x) {
            Some(previous) => Some((*k, previous)),
            None => self.last_pair_of(self.next_below(k)),
        }
    }

    /// A first key's second key number `i`, found by walking there.
    pub fn at(&self, k: &Elem, i: usize) -> Option<Elem>
        ensures { result ≡ slice_get (keys_of (group k.now self.now)) i }
    {
        match self.group(k) {
            Some(group) => group.at(i),
            None => None,
        }
    }

    /// Adds a row.
    pub fn insert(&mut self, k: &Elem, x: &Elem, v: V) -> Result<(), NoMemory>
        requires { IsAbsent (group k.now self.old) x.now }
        ensures ok { OnOk result (AddsRow self.old self.new k.now (x.now, v)) }
        ensures err { OnErr result (self.new ≡ self.old) }
    {
        if self.total == usize::MAX {
            return Err(NoMemory);
        }
        add_row(&mut self.groups, k, x, v, self.alloc)?;
        let _len = self.groups.len();
        self.total += 1;
        Ok(())
    }

    /// Gives a row another value, and tells the one before.
    pub fn replace(&mut self, k: &Elem, x: &Elem, v: V) -> V
        requires { HasBoth self.old k.now x.now }
        ensures value { value_at (group k.now self.old) x.now ≡ Some result }
        ensures rows { self.new ≡ with_both k.now x.now v self.old }
    {
        let before = self.groups.replace_in(k, x, v);
        let _len = self.groups.len();
        before
    }

    /// Removes a row, and tells its value.
    pub fn remove(&mut self, k: &Elem, x: &Elem) -> Option<V>
        ensures value { result ≡ value_at (group k.now self.old) x.now }
        ensures rows { self.new ≡ without_both k.now x.now self.old }
    {
        let _ = &self.groups;
        let value = self.get(k, x);
        if value.is_some() {
            drop_row(&mut self.groups, k, x);
            let _len = self.groups.len();
            self.total -= 1;
        }
        value
    }

    /// Removes the rows of a first key, and tells their number.
    pub fn remove_group(&mut self, k: &Elem) -> usize
        ensures answer { result ≡ length (group k.now self.old) }
        ensures rows { self.new ≡ without_group k.now self.old }
    {
        let count = self.count_of(k);
        self.groups.remove(*k);
        let _len = self.groups.len();
        self.total -= count;
        count
    }

    /// Gives a first key these rows in place of its own.
    pub fn put_group(&mut self, k: &Elem, rows: FreeTreeMapRows<V>) -> Result<(), NoMemory>
        ensures group { OnOk result (group k.now self.new ≡ rows) }
        ensures others { OnOk result (without_group k.now self.new ≡ without_group k.now self.old) }
        ensures err { OnErr result (self.new ≡ self.old) }
    {
        let added = rows.len();
        let others = self.total - self.count_of(k);
        if added > usize::MAX - others {
            return Err(NoMemory);
        }
        put_rows(&mut self.groups, k, rows)?;
        let _len = self.groups.len();
        self.total = others + added;
        Ok(())
    }

    /// Removes every row.
    pub fn clear(&mut self)
        ensures { self.new ≡ [] }
    {
        self.groups.clear();
        self.total = 0;
    }

    /// No rows, for `put_group`.
    pub fn no_group(&self) -> FreeTreeMapRows<V>
        ensures { result ≡ [] }
    {
        FreeTreeMapRows::new(self.alloc)
    }

    /// The keys of a first key's first row.
    fn first_pair_of(&self, k: Option<Elem>) -> Option<(Elem, Elem)>
        ensures { result ≡ first_pair_of k self.now }
    {
        let key = k?;
        let first = self.first_of(&key)?;
        Some((key, first))
    }

    /// The keys of a first key's last row.
    fn last_pair_of(&self, k: Option<Elem>) -> Option<(Elem, Elem)>
        ensures { result ≡ last_pair_of k self.now }
    {
        let key = k?;
        let last = self.last_of(&key)?;
        Some((key, last))
    }

    /// The last of a first key's second keys.
    fn last_of(&self, k: &Elem) -> Option<Elem>
        ensures { result ≡ last_key (group k.now self.now) }
    {
        match self.group(k) {
            Some(group) => group.last(),
            None => None,
        }
    }

    /// The rows of a first key.
    fn group(&self, k: &Elem) -> Option<&FreeTreeMapRows<V>>
        ensures { rows_in (option_copied result) ≡ group k.now self.now }
    {
        self.groups.get(k)
    }
}
