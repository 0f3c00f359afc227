//! Pairs that go from a bimap by their values.
ghost use Rattle.std.specs.Prelude.{◌≡◌, filter, is_some, not, true};
ghost use Rattle.base_rows.specs.BaseRows.{entries};
ghost use Rattle.elem.specs.declared.elements.Elem.{Elem as Element};
ghost use Rattle.elem.specs.Keyed.{value_at};
ghost use Rattle.vocabulary.specs.declared.items.Item.TheVariants.{Entry};

use super::super::found_rows::ByValue;
use super::keyed::drop_keys;
use crate::RowTest;
use bimap_base::PairRows;
use elem::{Elem, Steps};
use linked_base::FreeLinkedMap;
use std::sync::ledger::Ledger;
use vocabulary::{Item, swapped};

/// A test of pairs, read from pairs turned round.
#[derive(Drop)]
struct Turned<'a, T>(&'a T);

impl<T: RowTest> RowTest for Turned<'_, T> {
    ghost use Rattle.vocabulary.specs.Items as spec;

    ghost passes = { λ test item. T.passes test.0.now (spec.swapped item) };

    fn test(&self, item: &Item) -> bool {
        self.0.test(&swapped(item))
    }
}

/// Removes every pair that passes a test, where each of them has one of some values.
pub fn drop_values<T: RowTest, L: Ledger>(
    rows: &mut PairRows,
    values: &FreeLinkedMap<()>,
    test: &T,
    steps: &mut Steps<L>,
)
    requires { (k v : Element) → T.passes test.now (Entry k v) ≡ true → is_some (value_at values.now v) ≡ true }
    ensures { entries rows.new ≡ filter (λ row. not (T.passes test.now row)) (entries rows.old) }
{
    drop_keys::<ByValue, Elem, PairRows, Turned<'_, T>, L>(rows, values, &Turned(test), steps);
}
