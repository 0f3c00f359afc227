//! The calls that remove one item of a view that allows it.
ghost use Rattle.std.specs.Prelude.{◌≡◌, ◌<◌, ◌^◌, ◌-◌, Ok, length, true, ◌≢◌, Err, ◌≤◌, ◌+◌};
ghost use Rattle.base_store.specs.Stored.{view_in};
ghost use Rattle.machine.specs.CallEdits.{first_hit};
ghost use Rattle.machine.specs.Shown as spec;
ghost use Rattle.vocabulary.specs.Items.{same_item};
ghost use Rattle.machine.specs.RowCounts.{ChangesUpTo};
ghost use Rattle.vocabulary.specs.Shapes.{is_keyed, is_list};
ghost use Rattle.machine.specs.Views.{candidates, flags_at, shape_at, shown};
ghost use Rattle.read_chain.specs.ListLookUps.{is_placed_at_once};
ghost use Rattle.vocabulary.specs.declared.answers.Answer.TheVariants as answers;
ghost use Rattle.vocabulary.specs.declared.calls.Call.TheVariants as calls;
ghost use Rattle.vocabulary.specs.declared.calls.OnIndex.TheVariants as on_index;
ghost use Rattle.vocabulary.specs.declared.refusals.Refusal.TheVariants.{NoMemory};
ghost use Rattle.write_chain.specs.Calls.{Came, answered_known, removed};

use base_store::{AnyRef, Store};
use elem::{Elem, Steps};
use read_chain::{item_at, place_and_value, place_of, place_of_item};
use std::sync::ledger::Ledger;
use vocabulary::{Answer, Item, Refusal, key_of};

/// Removes the first item that is the same, and tells whether one was shown.
pub(crate) fn remove_item<L: Ledger>(
    store: &mut Store,
    n: AnyRef,
    item: &Item,
    steps: &mut Steps<L>,
) -> Answer
    requires node { n < length store.old.nodes }
    requires change { ChangesUpTo (2 ^ 63 - 1) store.old.world }
    ensures came { Came (Ok result) store.old store.new (removed store.old.world (view_in store.old n) (first_hit (same_item item.now) (candidates store.old.world (view_in store.old n))) (answers.Truth (spec.is_shown (shown store.old.world (view_in store.old n)) item.now))) }
    ensures steps { is_keyed (shape_at store.old.world (view_in store.old n)) ≡ true → steps.new ≤ steps.old + 2 }
    ensures at_once { is_placed_at_once store.old.world (view_in store.old n) item.now ≡ true → steps.new ≤ steps.old + 2 }
{
    let b = store.base_of(n);
    let _left = store.rows_left();
    match place_of(store, n, item, steps) {
        Some(place) => {
            store.remove_row(b, &place.spot, steps);
            Answer::Truth(true)
        }
        None => Answer::Truth(false),
    }
}

/// Removes a key, and tells the value that was shown there.
pub(crate) fn remove_key<L: Ledger>(
    store: &mut Store,
    n: AnyRef,
    k: &Elem,
    steps: &mut Steps<L>,
) -> Answer
    requires node { n < length store.old.nodes }
    requires keyed { is_keyed (shape_at store.old.world (view_in store.old n)) ≡ true }
    requires change { ChangesUpTo (2 ^ 63 - 1) store.old.world }
    ensures came { Came (Ok result) store.old store.new (removed store.old.world (view_in store.old n) (first_hit (spec.has_key k.now) (candidates store.old.world (view_in store.old n))) (answers.Optional (spec.value_shown (shown store.old.world (view_in store.old n)) k.now))) }
    ensures steps { steps.new ≤ steps.old + 2 }
{
    let b = store.base_of(n);
    let _left = store.rows_left();
    match place_and_value(store, n, k, steps) {
        Some(found) => {
            store.remove_row(b, &found.0.spot, steps);
            Answer::Optional(Some(found.1))
        }
        None => Answer::Optional(None),
    }
}

/// Removes the item at an index of a list, and tells it.
pub(crate) fn remove_at<L: Ledger>(
    store: &mut Store,
    n: AnyRef,
    i: Option<usize>,
    steps: &mut Steps<L>,
) -> Result<Answer, Refusal>
    requires node { n < length store.old.nodes }
    requires list { is_list (shape_at store.old.world (view_in store.old n)) ≡ true }
    requires removes { (flags_at store.old.world (view_in store.old n)).remove ≡ true }
    requires change { ChangesUpTo (2 ^ 63 - 1) store.old.world }
    ensures came { Came result store.old store.new (answered_known store.old.world (view_in store.old n) (calls.Index on_index.RemoveAt i)) }
    ensures memory { result ≢ Err NoMemory }
{
    let Some(at) = i else {
        return Err(Refusal::IndexOutOfBounds);
    };
    let Some(item) = item_at(store, n, at, steps) else {
        return Err(Refusal::IndexOutOfBounds);
    };
    let b = store.base_of(n);
    let place = place_of_item(store, n, at);
    store.remove_row(b, &place.spot, steps);
    Ok(Answer::Element(key_of(&item)))
}
