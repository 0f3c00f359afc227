//! Rows that come to a set or a map.
ghost use Rattle.std.specs.Prelude.{◌≡◌, ◌<◌, ◌≤◌, ◌+◌, ◌⊎◌, fold, length, IfErr, IfOk, None, OnErr, OnOk};
ghost use Rattle.base_rows.specs.Journals.{all_undone, undone, with_item, with_row};
ghost use Rattle.elem.specs.Keyed.{value_at};
ghost use Rattle.vocabulary.specs.Items.{key_of};
ghost use Rattle.vocabulary.specs.declared.refusals.Refusal.TheVariants as refusals;

use super::row_values::RowValue;
use elem::{Elem, Keyed, NoMemory, Steps};
use linked_base::LinkedMap;
use std::alloc::Global;
use std::sync::ledger::Ledger;
use vocabulary::{Item, Refusal, key_of};

/// The rows of a set or a map, which take a value at a key in one call.
pub trait PutsRows<V: Copy>: Keyed<V> {
    /// Puts a value at a key, and tells the one before. It takes memory only for a new key.
    fn put_value<L: Ledger>(
        &mut self,
        k: &Elem,
        v: V,
        steps: &mut Steps<L>,
    ) -> Result<Option<V>, NoMemory>
        ensures ok { OnOk result (Self.rows self.new ≡ with_row Self.inserted (Self.rows self.old) k.now v) }
        ensures before { IfOk result (λ before. before ≡ value_at (Self.rows self.old) k.now) }
        ensures err { OnErr result (Self.rows self.new ≡ Self.rows self.old) }
        ensures memory { OnErr result (value_at (Self.rows self.old) k.now ≡ None) }
        ensures step { steps.new ≡ steps.old + 1 };
}

impl<V: Copy> PutsRows<V> for LinkedMap<V> {
    fn put_value<L: Ledger>(
        &mut self,
        k: &Elem,
        v: V,
        steps: &mut Steps<L>,
    ) -> Result<Option<V>, NoMemory> {
        self.put(*k, v, steps)
    }
}

/// Puts a row of a set or a map. It takes memory only for a new key.
pub fn put_row<V: RowValue, K: PutsRows<V>, L: Ledger>(
    rows: &mut K,
    row: &Item,
    steps: &mut Steps<L>,
) -> Result<(), NoMemory>
    ensures ok { OnOk result (K.rows rows.new ≡ with_item K.inserted V.value_in (K.rows rows.old) row.now) }
    ensures err { OnErr result (K.rows rows.new ≡ K.rows rows.old) }
    ensures memory { OnErr result (value_at (K.rows rows.old) (key_of row.now) ≡ None) }
    ensures step { steps.new ≡ steps.old + 1 }
{
    match rows.put_value(&key_of(row), V::value(row), steps) {
        Ok(_) => Ok(()),
        Err(refused) => Err(refused),
    }
}

/// Takes back what was put at a key that had a value before, or none. It takes no memory.
fn undo<V: Copy, K: Keyed<V>, L: Ledger>(
    rows: &mut K,
    k: &Elem,
    before: Option<V>,
    steps: &mut Steps<L>,
)
    ensures { K.rows rows.new ≡ undone (K.rows rows.old) k.now before }
{
    let Some(v) = before else {
        rows.remove(*k, steps);
        return;
    };
    if rows.probe(*k, steps).is_some() {
        rows.replace(*k, v, steps);
    }
}

/// Takes back all that a journal tells of, the last first. It takes no memory.
fn undo_all<V: Copy, K: Keyed<V>, L: Ledger>(
    rows: &mut K,
    mut journal: Vec<(Elem, Option<V>)>,
    steps: &mut Steps<L>,
)
    ensures { K.rows rows.new ≡ all_undone (K.rows rows.old) journal.items }
{
    while let Some((k, before)) = journal.pop() {
        undo(rows, &k, before, steps);
    }
}

/// Puts rows, one after another, where no more than so many new ones come. All or none are put.
pub fn put_all<V: RowValue, K: PutsRows<V>, L: Ledger>(
    alloc: Global,
    rows: &mut K,
    added: &[Item],
    room: usize,
    steps: &mut Steps<L>,
) -> Result<(), Refusal>
    ensures ok { OnOk result (K.rows rows.new ≡ fold (with_item K.inserted V.value_in) (K.rows rows.old) added.now) }
    ensures few { OnOk result (length (K.rows rows.new) ≤ length (K.rows rows.old) + room) }
    ensures err { OnErr result (K.rows rows.new ≡ K.rows rows.old) }
    ensures cause { IfErr result (λ why. ((why ≡ refusals.Limit) × (length (K.rows rows.old) + room < length (fold (with_item K.inserted V.value_in) (K.rows rows.old) added.now))) ⊎ (why ≡ refusals.NoMemory)) }
{
    let size = rows.len();
    let Ok(mut journal) = Vec::with_capacity(alloc, added.len()) else {
        return Err(Refusal::NoMemory);
    };
    for row in added {
        let k = key_of(row);
        let Ok(before) = rows.put_value(&k, V::value(row), steps) else {
            undo_all(rows, journal, steps);
            return Err(Refusal::NoMemory);
        };
        journal.push_reserved((k, before));
        if rows.len() - size > room {
            undo_all(rows, journal, steps);
            return Err(Refusal::Limit);
        }
    }
    Ok(())
}
