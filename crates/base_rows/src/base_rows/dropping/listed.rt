//! Items that go from a list.
ghost use Rattle.std.specs.Prelude.{◌≡◌, ℕ, List, Some, filter, not, take, length, ◌≤◌, ◌+◌};
ghost use Rattle.base_rows.specs.BaseRows.{items};
ghost use Rattle.machine.specs.Edits.{without_rows};
ghost use Rattle.base_rows.specs.BaseSpots.{numbered, IsRowAt};
ghost use Rattle.view_laws.specs.Following.{IsFrom};
ghost use Rattle.vocabulary.specs.declared.items.Item.TheVariants.{One};

use super::super::placing::listed::remove_run;
use crate::RowTest;
use elem::{Elem, Steps};
use plain_base::ArrayRows;
use std::sync::ledger::Ledger;
use view_laws::RowSpot;
use vocabulary::Item;

/// Removes the item at a spot, which is its index.
pub fn remove_index<L: Ledger>(rows: &mut ArrayRows, at: &RowSpot, steps: &mut Steps<L>)
    requires { IsFrom (numbered 0 (items rows.old)) (Some at.now) }
    ensures rows { (numbers : List ℕ) → IsRowAt (numbered 0 (items rows.old)) at.now numbers → items rows.new ≡ without_rows numbers 0 (items rows.old) }
    ensures steps { steps.new ≤ steps.old + 1 }
{
    if let RowSpot::Index(i) = at {
        rows.remove_at(*i, steps);
    }
}

/// Whether an element does not pass a test.
fn stays<T: RowTest>(x: &Elem, test: &T) -> bool
    ensures { result ≡ not (T.passes test.now (One x.now)) }
{
    !test.test(&Item::One(*x))
}

/// Moves the items that do not pass a test to the front, and tells how many they are.
fn keep_front<T: RowTest, L: Ledger>(rows: &mut ArrayRows, test: &T, steps: &mut Steps<L>) -> usize
    ensures kept { take result rows.new ≡ filter (λ x. not (T.passes test.now (One x))) rows.old }
    ensures within { result ≤ length rows.new }
{
    let size = rows.len();
    let mut kept = 0;
    for i in 0..size {
        if let Some(x) = rows.at(i, steps) {
            if stays(&x, test) {
                rows.set_at(kept, x, steps);
                kept += 1;
            }
        }
    }
    kept
}

/// Removes every item that passes a test: those that stay move up, and the places behind them go.
pub fn drop_items<T: RowTest, L: Ledger>(rows: &mut ArrayRows, test: &T, steps: &mut Steps<L>)
    ensures { items rows.new ≡ filter (λ row. not (T.passes test.now row)) (items rows.old) }
{
    let kept = keep_front(rows, test, steps);
    let size = rows.len();
    remove_run(rows, kept, size, steps);
}
