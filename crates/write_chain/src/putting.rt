//! The calls that add one item to a view that allows it.
ghost use Rattle.std.specs.Prelude.{◌≡◌, ◌<◌, ◌^◌, ◌-◌, length, true, Err, ◌≤◌, ◌+◌};
ghost use Rattle.base_store.specs.Stored.{view_in};
ghost use Rattle.vocabulary.specs.Shapes.{is_bimap, is_elements, is_list, is_map};
ghost use Rattle.machine.specs.RowCounts.{ChangesUpTo};
ghost use Rattle.machine.specs.Memory.{wants_memory};
ghost use Rattle.vocabulary.specs.Shapes.{is_keyed};
ghost use Rattle.machine.specs.Answers.{is_added};
ghost use Rattle.machine.specs.Views.{flags_at, shape_at, shown};
ghost use Rattle.vocabulary.specs.declared.calls.Call.TheVariants as calls;
ghost use Rattle.vocabulary.specs.declared.calls.OnElement.TheVariants as on_element;
ghost use Rattle.vocabulary.specs.declared.calls.OnIndexed.TheVariants as on_indexed;
ghost use Rattle.vocabulary.specs.declared.calls.OnPair.TheVariants as on_pair;
ghost use Rattle.write_chain.specs.Calls.{Came, answered_known};
ghost use Rattle.vocabulary.specs.declared.refusals.Refusal.TheVariants.{NoMemory};

use crate::adding::{add_one, force_one};
use crate::spots::end_spot;
use base_store::{AnyRef, Store};
use elem::{Elem, Steps};
use read_chain::{contains, gap_index, item_at, item_index, map_get};
use std::sync::ledger::Ledger;
use vocabulary::{Answer, Item, Refusal, Spot, has_each_once, key_of};

/// Whether an item is none of what a view shows, or may stand there again.
fn is_new<L: Ledger>(store: &Store, n: AnyRef, item: &Item, steps: &mut Steps<L>) -> bool
    requires { n < length store.now.nodes }
    ensures new { result ≡ is_added (shape_at store.now.world (view_in store.now n)) (shown store.now.world (view_in store.now n)) item.now }
    ensures step { is_keyed (shape_at store.now.world (view_in store.now n)) ≡ true → steps.new ≤ steps.old + 1 }
{
    if has_each_once(store.shape(n)) {
        !contains(store, n, item, steps)
    } else {
        true
    }
}

/// Adds an element at the end. A set that shows it stays as it is.
pub(crate) fn add<L: Ledger>(
    store: &mut Store,
    n: AnyRef,
    x: &Elem,
    steps: &mut Steps<L>,
) -> Result<Answer, Refusal>
    requires node { n < length store.old.nodes }
    requires elements { is_elements (shape_at store.old.world (view_in store.old n)) ≡ true }
    requires adds { (flags_at store.old.world (view_in store.old n)).add ≡ true }
    requires change { ChangesUpTo (2 ^ 63 - 1) store.old.world }
    ensures came { Came result store.old store.new (answered_known store.old.world (view_in store.old n) (calls.Element on_element.Add x.now)) }
    ensures memory { result ≡ Err NoMemory → wants_memory store.old.world (view_in store.old n) (calls.Element on_element.Add x.now) (answered_known store.old.world (view_in store.old n) (calls.Element on_element.Add x.now)) ≡ true }
    ensures steps { is_keyed (shape_at store.old.world (view_in store.old n)) ≡ true → steps.new ≤ steps.old + 3 }
{
    let _base = store.base_of(n);
    let item = Item::One(*x);
    let new = is_new(store, n, &item, steps);
    let spot = end_spot(store, n);
    add_one(store, n, &item, spot, Answer::Truth(new), steps)
}

/// Puts an element before that of an index, or at the end of a list.
pub(crate) fn add_at<L: Ledger>(
    store: &mut Store,
    n: AnyRef,
    i: Option<usize>,
    x: &Elem,
    steps: &mut Steps<L>,
) -> Result<Answer, Refusal>
    requires node { n < length store.old.nodes }
    requires list { is_list (shape_at store.old.world (view_in store.old n)) ≡ true }
    requires adds { (flags_at store.old.world (view_in store.old n)).add ≡ true }
    requires change { ChangesUpTo (2 ^ 63 - 1) store.old.world }
    ensures came { Came result store.old store.new (answered_known store.old.world (view_in store.old n) (calls.Indexed on_indexed.AddAt i x.now)) }
    ensures memory { result ≡ Err NoMemory → wants_memory store.old.world (view_in store.old n) (calls.Indexed on_indexed.AddAt i x.now) (answered_known store.old.world (view_in store.old n) (calls.Indexed on_indexed.AddAt i x.now)) ≡ true }
{
    let Some(at) = i else {
        return Err(Refusal::IndexOutOfBounds);
    };
    let rows = store.len(store.base_of(n));
    if at > rows {
        return Err(Refusal::IndexOutOfBounds);
    }
    let spot = Spot::Before(gap_index(store, n, rows, at));
    add_one(store, n, &Item::One(*x), spot, Answer::Done, steps)
}

/// Puts an element in the place of that of an index of a list, and tells the one before.
pub(crate) fn set_at<L: Ledger>(
    store: &mut Store,
    n: AnyRef,
    i: Option<usize>,
    x: &Elem,
    steps: &mut Steps<L>,
) -> Result<Answer, Refusal>
    requires node { n < length store.old.nodes }
    requires list { is_list (shape_at store.old.world (view_in store.old n)) ≡ true }
    requires adds { (flags_at store.old.world (view_in store.old n)).add ≡ true }
    requires change { ChangesUpTo (2 ^ 63 - 1) store.old.world }
    ensures came { Came result store.old store.new (answered_known store.old.world (view_in store.old n) (calls.Indexed on_indexed.SetAt i x.now)) }
    ensures memory { result ≡ Err NoMemory → wants_memory store.old.world (view_in store.old n) (calls.Indexed on_indexed.SetAt i x.now) (answered_known store.old.world (view_in store.old n) (calls.Indexed on_indexed.SetAt i x.now)) ≡ true }
{
    let Some(at) = i else {
        return Err(Refusal::IndexOutOfBounds);
    };
    let rows = store.len(store.base_of(n));
    let Some(before) = item_at(store, n, at, steps) else {
        return Err(Refusal::IndexOutOfBounds);
    };
    let spot = Spot::Instead(item_index(store, n, rows, at));
    add_one(
        store,
        n,
        &Item::One(*x),
        spot,
        Answer::Element(key_of(&before)),
        steps,
    )
}

/// Puts a value at a key, and tells the one that was shown there before. A bimap refuses a value that is another key's.
pub(crate) fn put<L: Ledger>(
    store: &mut Store,
    n: AnyRef,
    k: &Elem,
    w: &Elem,
    steps: &mut Steps<L>,
) -> Result<Answer, Refusal>
    requires node { n < length store.old.nodes }
    requires map { is_map (shape_at store.old.world (view_in store.old n)) ≡ true }
    requires adds { (flags_at store.old.world (view_in store.old n)).add ≡ true }
    requires change { ChangesUpTo (2 ^ 63 - 1) store.old.world }
    ensures came { Came result store.old store.new (answered_known store.old.world (view_in store.old n) (calls.Pair on_pair.Put k.now w.now)) }
    ensures memory { result ≡ Err NoMemory → wants_memory store.old.world (view_in store.old n) (calls.Pair on_pair.Put k.now w.now) (answered_known store.old.world (view_in store.old n) (calls.Pair on_pair.Put k.now w.now)) ≡ true }
    ensures steps { steps.new ≤ steps.old + 3 }
{
    let _base = store.base_of(n);
    let before = map_get(store, n, k, steps);
    let spot = store.own_spot(n);
    add_one(
        store,
        n,
        &Item::Entry(*k, *w),
        spot,
        Answer::Optional(before),
        steps,
    )
}

/// Puts a value at a key of a bimap, and tells the one that was shown there before. Another key loses the value.
pub(crate) fn force_put<L: Ledger>(
    store: &mut Store,
    n: AnyRef,
    k: &Elem,
    w: &Elem,
    steps: &mut Steps<L>,
) -> Result<Answer, Refusal>
    requires node { n < length store.old.nodes }
    requires bimap { is_bimap (shape_at store.old.world (view_in store.old n)) ≡ true }
    requires adds { (flags_at store.old.world (view_in store.old n)).add ≡ true }
    requires change { ChangesUpTo (2 ^ 63 - 1) store.old.world }
    ensures came { Came result store.old store.new (answered_known store.old.world (view_in store.old n) (calls.Pair on_pair.ForcePut k.now w.now)) }
    ensures memory { result ≡ Err NoMemory → wants_memory store.old.world (view_in store.old n) (calls.Pair on_pair.ForcePut k.now w.now) (answered_known store.old.world (view_in store.old n) (calls.Pair on_pair.ForcePut k.now w.now)) ≡ true }
    ensures steps { steps.new ≤ steps.old + 4 }
{
    let _base = store.base_of(n);
    let bound = map_get(store, n, k, steps);
    force_one(
        store,
        n,
        &Item::Entry(*k, *w),
        Answer::Optional(bound),
        steps,
    )
}
