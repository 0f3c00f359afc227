ghost use Rattle.std.specs.Prelude.{◌≡◌, ◌<◌, ◌≤◌, length, [], Some, OnOk, OnErr, slice_get, slice_set};
ghost use Rattle.std.specs.List.{insert, position, remove};
ghost use Rattle.elem.specs.Elements.{same};

use elem::{Elem, NoMemory, same};
use std::alloc::Global;
use std::marker::Model;

/// The items of a list, as `ArrayRows`, with no count of steps.
#[derive(Drop)]
pub struct FreeArrayRows {
    items: Vec<Elem>,
}

impl Model for FreeArrayRows {
    ghost use Rattle.std.specs.Prelude.{List};
    ghost use Rattle.elem.specs.declared.elements.Elem.{Elem as Element};

    ghost Value = { List Element };

    ghost view = { λ s. s.items.items };
}

impl FreeArrayRows {
    /// No items.
    pub fn new(alloc: Global) -> FreeArrayRows
        ensures { result ≡ [] }
    {
        FreeArrayRows {
            items: Vec::new(alloc),
        }
    }

    /// The number of items.
    pub fn len(&self) -> usize
        ensures { result ≡ length self.now }
    {
        self.items.len()
    }

    /// The item at an index.
    pub fn at(&self, i: usize) -> Option<Elem>
        ensures { result ≡ slice_get self.now i }
    {
        self.items.get(i).copied()
    }

    /// The index of the first item that is the same as `x`.
    pub fn find(&self, x: Elem) -> Option<usize>
        ensures { result ≡ position (same x) self.now }
    {
        self.items.iter().position(|item| same(&x, item))
    }

    /// Puts an item at an index, before those that stood from there on.
    pub fn insert_at(&mut self, i: usize, x: Elem) -> Result<(), NoMemory>
        requires { i ≤ length self.old }
        ensures ok { OnOk result (self.new ≡ insert self.old i x) }
        ensures err { OnErr result (self.new ≡ self.old) }
    {
        match self.items.insert(i, x) {
            Ok(()) => Ok(()),
            Err(_) => Err(NoMemory),
        }
    }

    /// Puts an item in the place of another, and tells the one before.
    pub fn set_at(&mut self, i: usize, x: Elem) -> Elem
        requires { i < length self.old }
        ensures item { slice_get self.old i ≡ Some result }
        ensures items { self.new ≡ slice_set self.old i x }
    {
        let before = self.items[i];
        self.items[i] = x;
        before
    }

    /// Removes the item at an index, and tells it.
    pub fn remove_at(&mut self, i: usize) -> Elem
        requires { i < length self.old }
        ensures item { slice_get self.old i ≡ Some result }
        ensures items { self.new ≡ remove self.old i }
    {
        self.items.remove(i)
    }

    /// Removes every item.
    pub fn clear(&mut self)
        ensures { self.new ≡ [] }
    {
        self.items.clear();
    }
}
