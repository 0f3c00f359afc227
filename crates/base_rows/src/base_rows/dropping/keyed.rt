//! Rows that go from a set or a map.
ghost use Rattle.std.specs.Prelude.{◌≡◌, ◌≤◌, ◌+◌, ◌*◌, ℕ, List, Some, ◌∷◌, ◌++◌, ◌&&◌, cond, filter, is_some, length, map, not, true};
ghost use Rattle.base_rows.specs.Journals.{items_by};
ghost use Rattle.base_rows.specs.KeyLines as spec;
ghost use Rattle.elem.specs.declared.elements.Elem.{Elem as Element};
ghost use Rattle.elem.specs.Elements.{same};
ghost use Rattle.elem.specs.Keyed.{value_at, IsPresent};
ghost use Rattle.elem.specs.Rows.{first_key};
ghost use Rattle.machine.specs.Edits.{without_rows};
ghost use Rattle.base_rows.specs.BaseSpots.{key_spot, IsRowAt};
ghost use Rattle.view_laws.specs.Following.{IsFrom};

use super::super::found_rows::{ByKey, FoundRows, WalkedRows};
use super::super::placing::row_values::RowValue;
use crate::RowTest;
use elem::{Elem, Steps};
use linked_base::FreeLinkedMap;
use std::sync::ledger::Ledger;
use view_laws::RowSpot;

/// Removes the row at a spot, which is its key.
pub fn remove_key<V: RowValue, K: FoundRows<ByKey, V>, L: Ledger>(
    rows: &mut K,
    at: &RowSpot,
    steps: &mut Steps<L>,
)
    requires { IsFrom (map key_spot (items_by V.row_of (K.rows rows.old))) (Some at.now) }
    ensures rows { (numbers : List ℕ) → IsRowAt (map key_spot (items_by V.row_of (K.rows rows.old))) at.now numbers → items_by V.row_of (K.rows rows.new) ≡ without_rows numbers 0 (items_by V.row_of (K.rows rows.old)) }
    ensures steps { steps.new ≤ steps.old + 1 }
{
    let _count = rows.count();
    if let RowSpot::Key(k) = at {
        rows.drop_found(k, steps);
    }
}

/// Removes the row of an element by which rows are found, where it passes a test.
pub fn drop_key<P, V: RowValue, K: FoundRows<P, V>, T: RowTest, L: Ledger>(
    rows: &mut K,
    k: &Elem,
    test: &T,
    steps: &mut Steps<L>,
)
    ensures rows { K.rows rows.new ≡ filter (λ row. not (same k.now row.0 && T.passes test.now (V.row_of row.0 row.1))) (K.rows rows.old) }
    ensures steps { steps.new ≤ steps.old + 2 }
{
    let _count = rows.count();
    if let Some(v) = rows.find(k, steps) {
        if test.test(&V::row(*k, v)) {
            rows.drop_found(k, steps);
        }
    }
}

/// The key of a row, if there is one.
fn key_in<V: Copy>(row: Option<(Elem, V)>) -> Option<Elem>
    ensures { result ≡ spec.key_in row }
{
    match row {
        Some((k, _)) => Some(k),
        None => None,
    }
}

/// Removes the row of a key where it passes a test, and tells the key behind it.
fn drop_row<V: RowValue, K: WalkedRows<V>, T: RowTest, L: Ledger>(
    rows: &mut K,
    k: &Elem,
    test: &T,
    steps: &mut Steps<L>,
) -> Option<Elem>
    requires { IsPresent (K.rows rows.old) k.now }
    ensures next { (front rest : List (Element × V)) (v : V) → K.rows rows.old ≡ front ++ (k.now, v) ∷ rest → result ≡ first_key rest }
    ensures rows { (front rest : List (Element × V)) (v : V) → K.rows rows.old ≡ front ++ (k.now, v) ∷ rest → K.rows rows.new ≡ front ++ cond (T.passes test.now (V.row_of k.now v)) rest ((k.now, v) ∷ rest) }
{
    let _count = rows.count();
    let next = key_in(rows.next_row(false, k, steps));
    drop_key(rows, k, test, steps);
    next
}

/// Removes every row that passes a test, where each of them is found by one of some elements.
pub fn drop_keys<P, V: RowValue, K: FoundRows<P, V>, T: RowTest, L: Ledger>(
    rows: &mut K,
    keys: &FreeLinkedMap<()>,
    test: &T,
    steps: &mut Steps<L>,
)
    requires { (k : Element) (v : V) → T.passes test.now (V.row_of k v) ≡ true → is_some (value_at keys.now k) ≡ true }
    ensures rows { items_by V.row_of (K.rows rows.new) ≡ filter (λ row. not (T.passes test.now row)) (items_by V.row_of (K.rows rows.old)) }
    ensures steps { steps.new ≤ steps.old + 2 * length keys.now }
{
    let count = keys.len();
    let mut at = keys.first();
    for _key in 0..count {
        let Some(k) = at else {
            return;
        };
        drop_key(rows, &k, test, steps);
        at = keys.after(k);
    }
}

/// Removes every row that passes a test, from the first to the last.
pub fn drop_rows<V: RowValue, K: WalkedRows<V>, T: RowTest, L: Ledger>(
    rows: &mut K,
    test: &T,
    steps: &mut Steps<L>,
)
    ensures { items_by V.row_of (K.rows rows.new) ≡ filter (λ row. not (T.passes test.now row)) (items_by V.row_of (K.rows rows.old)) }
{
    let count = rows.count();
    let mut at = key_in(rows.end_row(false, steps));
    for _row in 0..count {
        let Some(k) = at else {
            return;
        };
        at = drop_row(rows, &k, test, steps);
    }
}
