ghost use Rattle.std.specs.Prelude.{◌≡◌, ◌+◌, ◌<◌, ◌≤◌, length, [], Some, OnOk, OnErr, slice_get, slice_set};
ghost use Rattle.std.specs.List.{insert, position, remove};
ghost use Rattle.elem.specs.Elements.{same};

use crate::FreeArrayRows;
use elem::{Elem, NoMemory, Steps};
use std::alloc::Global;
use std::marker::Model;
use std::sync::ledger::Ledger;

/// The items of a list, by their indexes: `java.util.ArrayList`.
///
/// Each call that takes `steps` counts one. Only `insert_at` takes memory, and where it finds none the items are as
/// before.
#[derive(Drop)]
pub struct ArrayRows {
    free: FreeArrayRows,
}

impl Model for ArrayRows {
    ghost use Rattle.std.specs.Prelude.{List};
    ghost use Rattle.elem.specs.declared.elements.Elem.{Elem as Element};

    ghost Value = { List Element };

    ghost view = { λ s. s.free };
}

impl ArrayRows {
    /// No items.
    pub fn new(alloc: Global) -> ArrayRows
        ensures { result ≡ [] }
    {
        ArrayRows {
            free: FreeArrayRows::new(alloc),
        }
    }

    /// The number of items.
    pub fn len(&self) -> usize
        ensures { result ≡ length self.now }
    {
        self.free.len()
    }

    /// The item at an index.
    pub fn at<L: Ledger>(&self, i: usize, steps: &mut Steps<L>) -> Option<Elem>
        ensures item { result ≡ slice_get self.now i }
        ensures step { steps.new ≡ steps.old + 1 }
    {
        steps.tick();
        self.free.at(i)
    }

    /// The index of the first item that is the same as `x`.
    pub fn find<L: Ledger>(&self, x: Elem, steps: &mut Steps<L>) -> Option<usize>
        ensures index { result ≡ position (same x) self.now }
        ensures step { steps.new ≡ steps.old + 1 }
    {
        steps.tick();
        self.free.find(x)
    }

    /// Puts an item at an index, before those that stood from there on.
    pub fn insert_at<L: Ledger>(
        &mut self,
        i: usize,
        x: Elem,
        steps: &mut Steps<L>,
    ) -> Result<(), NoMemory>
        requires { i ≤ length self.old }
        ensures ok { OnOk result (self.new ≡ insert self.old i x) }
        ensures err { OnErr result (self.new ≡ self.old) }
        ensures step { steps.new ≡ steps.old + 1 }
    {
        steps.tick();
        self.free.insert_at(i, x)
    }

    /// Puts an item in the place of another, and tells the one before.
    pub fn set_at<L: Ledger>(&mut self, i: usize, x: Elem, steps: &mut Steps<L>) -> Elem
        requires { i < length self.old }
        ensures item { slice_get self.old i ≡ Some result }
        ensures items { self.new ≡ slice_set self.old i x }
        ensures step { steps.new ≡ steps.old + 1 }
    {
        steps.tick();
        self.free.set_at(i, x)
    }

    /// Removes the item at an index, and tells it.
    pub fn remove_at<L: Ledger>(&mut self, i: usize, steps: &mut Steps<L>) -> Elem
        requires { i < length self.old }
        ensures item { slice_get self.old i ≡ Some result }
        ensures items { self.new ≡ remove self.old i }
        ensures step { steps.new ≡ steps.old + 1 }
    {
        steps.tick();
        self.free.remove_at(i)
    }

    /// Removes every item.
    pub fn clear(&mut self)
        ensures { self.new ≡ [] }
    {
        self.free.clear();
    }
}
