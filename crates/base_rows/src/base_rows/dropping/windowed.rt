//! Rows that go from a sorted set or map, in a window.
ghost use Rattle.std.specs.Prelude.{◌≡◌, filter, not, true};
ghost use Rattle.base_rows.specs.Journals.{items_by};
ghost use Rattle.base_rows.specs.KeyLines.{HasWindowIn};
ghost use Rattle.elem.specs.Cuts.{cut_upto, lies_between};
ghost use Rattle.elem.specs.declared.elements.Elem.{Elem as Element};
ghost use Rattle.view_laws.specs.Lanes.{meets};

use super::super::placing::row_values::RowValue;
use super::keyed::{drop_key, drop_rows};
use crate::RowTest;
use elem::{Compare, Cut, Keyed, Steps, Window};
use plain_base::TreeMapRows;
use std::sync::ledger::Ledger;
use view_laws::PartAsk;

/// Removes every row that passes a test, where the key of each of them is as asked. It looks at the rows of the window
/// alone that is asked for.
pub fn drop_sorted<V: RowValue, C: Compare, T: RowTest, L: Ledger>(
    rows: &mut TreeMapRows<V, C>,
    ask: &PartAsk,
    test: &T,
    steps: &mut Steps<L>,
)
    requires ask { HasWindowIn C.before ask.now }
    requires reach { (k : Element) (v : V) → T.passes test.now (V.row_of k v) ≡ true → meets ask.now k ≡ true }
    ensures { items_by V.row_of rows.new ≡ filter (λ row. not (T.passes test.now row)) (items_by V.row_of rows.old) }
{
    match ask {
        PartAsk::Within(_, window) => drop_in_window(rows, window, test, steps),
        _ => drop_rows(rows, test, steps),
    }
}

/// Removes every row that passes a test, where the keys of all such rows lie in a window.
fn drop_in_window<V: RowValue, C: Compare, T: RowTest, L: Ledger>(
    rows: &mut TreeMapRows<V, C>,
    window: &Window,
    test: &T,
    steps: &mut Steps<L>,
)
    requires window { cut_upto C.before window.now.lo window.now.hi ≡ true }
    requires reach { (k : Element) (v : V) → T.passes test.now (V.row_of k v) ≡ true → lies_between C.before window.now.lo window.now.hi k ≡ true }
    ensures { items_by V.row_of rows.new ≡ filter (λ row. not (T.passes test.now row)) (items_by V.row_of rows.old) }
{
    let _len = rows.len();
    let mut rest = *window;
    while let Some(k) = rows.first_in(&rest, steps) {
        drop_key(rows, &k, test, steps);
        rest = Window {
            lo: Cut::Above(k),
            hi: rest.hi,
        };
    }
}
