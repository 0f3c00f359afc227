//! Rows that come to a sorted set or map.
ghost use Rattle.std.specs.Prelude.{◌≡◌, ◌<◌, ◌≤◌, ◌+◌, ◌⊎◌, fold, length, IfErr, None, OnErr, OnOk};
ghost use Rattle.elem.specs.Keyed.{value_at};
ghost use Rattle.vocabulary.specs.Items.{key_of};
ghost use Rattle.base_rows.specs.Journals.{with_item};
ghost use Rattle.plain_base.specs.Sorted.{IsInOrder, placed};
ghost use Rattle.vocabulary.specs.declared.refusals.Refusal.TheVariants as refusals;

use super::keyed::{PutsRows, put_all, put_row};
use super::row_values::RowValue;
use elem::{Compare, Elem, Keyed, NoMemory, Steps};
use plain_base::TreeMapRows;
use std::alloc::Global;
use std::sync::ledger::Ledger;
use vocabulary::{Item, Refusal};

impl<V: Copy, C: Compare> PutsRows<V> for TreeMapRows<V, C> {
    fn put_value<L: Ledger>(
        &mut self,
        k: &Elem,
        v: V,
        steps: &mut Steps<L>,
    ) -> Result<Option<V>, NoMemory> {
        self.put(*k, v, steps)
    }
}

/// Puts a row of a sorted set or map, as `put_row`.
pub fn put_sorted<V: RowValue, C: Compare, L: Ledger>(
    rows: &mut TreeMapRows<V, C>,
    row: &Item,
    steps: &mut Steps<L>,
) -> Result<(), NoMemory>
    ensures order { IsInOrder C.before rows.old }
    ensures ok { OnOk result (rows.new ≡ with_item (placed C.before) V.value_in rows.old row.now) }
    ensures err { OnErr result (rows.new ≡ rows.old) }
    ensures memory { OnErr result (value_at rows.old (key_of row.now) ≡ None) }
    ensures step { steps.new ≡ steps.old + 1 }
{
    let _len = rows.len();
    put_row(rows, row, steps)
}

/// Puts rows of a sorted set or map, as `put_all`.
pub fn put_all_sorted<V: RowValue, C: Compare, L: Ledger>(
    alloc: Global,
    rows: &mut TreeMapRows<V, C>,
    added: &[Item],
    room: usize,
    steps: &mut Steps<L>,
) -> Result<(), Refusal>
    ensures order { IsInOrder C.before rows.old }
    ensures ok { OnOk result (rows.new ≡ fold (with_item (placed C.before) V.value_in) rows.old added.now) }
    ensures few { OnOk result (length rows.new ≤ length rows.old + room) }
    ensures err { OnErr result (rows.new ≡ rows.old) }
    ensures cause { IfErr result (λ why. ((why ≡ refusals.Limit) × (length rows.old + room < length (fold (with_item (placed C.before) V.value_in) rows.old added.now))) ⊎ (why ≡ refusals.NoMemory)) }
{
    let _len = rows.len();
    put_all(alloc, rows, added, room, steps)
}
