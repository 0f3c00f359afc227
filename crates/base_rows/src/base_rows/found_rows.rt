//! Rows that are found by their keys, and the pairs of a bimap by their values, too.
ghost use Rattle.std.specs.Prelude.{◌≡◌, ◌+◌, cond, length, Some, IfSome, option_map};

use bimap_base::PairRows;
use elem::{Compare, Elem, Keyed, Steps};
use linked_base::LinkedMap;
use plain_base::TreeMapRows;
use std::sync::ledger::Ledger;

/// Rows found by their keys.
pub struct ByKey;

/// Pairs found by their values.
pub struct ByValue;

/// Rows of an element and what stands beside it, found by that element, which no two of them share.
///
/// Each call that takes `steps` counts one, and none takes memory.
pub trait FoundRows<P, V: Copy> {
    ghost use Rattle.std.specs.Prelude.{◌≡◌, List};
    ghost use Rattle.elem.specs.declared.elements.Elem.{Elem};
    ghost use Rattle.elem.specs.Keyed.{value_at, HasDistinctKeys, without};

    /// The rows in order, each with the element first by which it is found.
    ghost rows: { Self → List (Elem × V) };

    /// The number of rows.
    fn count(&self) -> usize
        ensures len { result ≡ length (rows self.now) }
        ensures distinct { HasDistinctKeys (rows self.now) };

    /// What stands beside an element.
    fn find<L: Ledger>(&self, x: &Elem, steps: &mut Steps<L>) -> Option<V>
        ensures value { result ≡ value_at (rows self.now) x.now }
        ensures step { steps.new ≡ steps.old + 1 };

    /// Removes the row of an element.
    fn drop_found<L: Ledger>(&mut self, x: &Elem, steps: &mut Steps<L>)
        ensures rows { rows self.new ≡ without (rows self.old) x.now }
        ensures step { steps.new ≡ steps.old + 1 };
}

/// Rows that are walked from key to key. Each call counts one step.
pub trait WalkedRows<V: Copy>: FoundRows<ByKey, V> {
    ghost use Rattle.std.specs.Prelude.{◌≡◌};
    ghost use Rattle.elem.specs.Elements.{same};
    ghost use Rattle.elem.specs.Keyed.{value_at, IsPresent};
    ghost use Rattle.elem.specs.Rows.{first_key, last_key, key_after, key_before};

    /// The first row, or the last.
    fn end_row<L: Ledger>(&self, back: bool, steps: &mut Steps<L>) -> Option<(Elem, V)>
        ensures key { option_map (λ row. row.0) result ≡ cond back (last_key (Self.rows self.now)) (first_key (Self.rows self.now)) }
        ensures value { IfSome result (λ row. value_at (Self.rows self.now) row.0 ≡ Some row.1) }
        ensures step { steps.new ≡ steps.old + 1 };

    /// The row after that of a key, or before it.
    fn next_row<L: Ledger>(&self, back: bool, k: &Elem, steps: &mut Steps<L>) -> Option<(Elem, V)>
        requires { IsPresent (Self.rows self.now) k.now }
        ensures key { option_map (λ row. row.0) result ≡ cond back (key_before (same k.now) (Self.rows self.now)) (key_after (same k.now) (Self.rows self.now)) }
        ensures value { IfSome result (λ row. value_at (Self.rows self.now) row.0 ≡ Some row.1) }
        ensures step { steps.new ≡ steps.old + 1 };
}

impl<V: Copy> FoundRows<ByKey, V> for LinkedMap<V> {
    ghost rows = { λ m. m };

    fn count(&self) -> usize {
        self.len()
    }

    fn find<L: Ledger>(&self, x: &Elem, steps: &mut Steps<L>) -> Option<V> {
        self.probe(*x, steps)
    }

    fn drop_found<L: Ledger>(&mut self, x: &Elem, steps: &mut Steps<L>) {
        self.remove(*x, steps);
    }
}

impl<V: Copy> WalkedRows<V> for LinkedMap<V> {
    fn end_row<L: Ledger>(&self, back: bool, steps: &mut Steps<L>) -> Option<(Elem, V)> {
        if back {
            self.last_row(steps)
        } else {
            self.first_row(steps)
        }
    }

    fn next_row<L: Ledger>(&self, back: bool, k: &Elem, steps: &mut Steps<L>) -> Option<(Elem, V)> {
        if back {
            self.row_before(*k, steps)
        } else {
            self.row_after(*k, steps)
        }
    }
}

impl<V: Copy, C: Compare> FoundRows<ByKey, V> for TreeMapRows<V, C> {
    ghost rows = { λ m. m };

    fn count(&self) -> usize {
        self.len()
    }

    fn find<L: Ledger>(&self, x: &Elem, steps: &mut Steps<L>) -> Option<V> {
        self.probe(*x, steps)
    }

    fn drop_found<L: Ledger>(&mut self, x: &Elem, steps: &mut Steps<L>) {
        self.remove(*x, steps);
    }
}

impl<V: Copy, C: Compare> WalkedRows<V> for TreeMapRows<V, C> {
    fn end_row<L: Ledger>(&self, back: bool, steps: &mut Steps<L>) -> Option<(Elem, V)> {
        if back {
            self.last_row(steps)
        } else {
            self.first_row(steps)
        }
    }

    fn next_row<L: Ledger>(&self, back: bool, k: &Elem, steps: &mut Steps<L>) -> Option<(Elem, V)> {
        if back {
            self.row_before(*k, steps)
        } else {
            self.row_after(*k, steps)
        }
    }
}

impl FoundRows<ByKey, Elem> for PairRows {
    ghost rows = { λ m. m };

    fn count(&self) -> usize {
        self.len()
    }

    fn find<L: Ledger>(&self, x: &Elem, steps: &mut Steps<L>) -> Option<Elem> {
        self.by_key(*x, steps)
    }

    fn drop_found<L: Ledger>(&mut self, x: &Elem, steps: &mut Steps<L>) {
        self.remove_key(*x, steps);
    }
}

impl WalkedRows<Elem> for PairRows {
    fn end_row<L: Ledger>(&self, back: bool, steps: &mut Steps<L>) -> Option<(Elem, Elem)> {
        if back {
            self.last_row(steps)
        } else {
            self.first_row(steps)
        }
    }

    fn next_row<L: Ledger>(
        &self,
        back: bool,
        k: &Elem,
        steps: &mut Steps<L>,
    ) -> Option<(Elem, Elem)> {
        if back {
            self.row_before(*k, steps)
        } else {
            self.row_after(*k, steps)
        }
    }
}

impl FoundRows<ByValue, Elem> for PairRows {
    ghost use Rattle.bimap_base.specs.Pairs.{turned};

    ghost rows = { λ m. turned m };

    fn count(&self) -> usize {
        self.len()
    }

    fn find<L: Ledger>(&self, x: &Elem, steps: &mut Steps<L>) -> Option<Elem> {
        self.by_value(*x, steps)
    }

    fn drop_found<L: Ledger>(&mut self, x: &Elem, steps: &mut Steps<L>) {
        self.remove_value(*x, steps);
    }
}
