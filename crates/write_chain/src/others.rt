//! The calls with another view, on a view that allows them.
ghost use Rattle.std.specs.Prelude.{◌≡◌, ◌<◌, ◌^◌, ◌-◌, Ok, cond, false, length, not, true};
ghost use Rattle.std.specs.List.{list_any};
ghost use Rattle.base_rows.specs.BaseRows.{AreRowsOf};
ghost use Rattle.base_store.specs.Stored.{view_in};
ghost use Rattle.machine.specs.CallEdits.{all_hits};
ghost use Rattle.machine.specs.Answers as answering;
ghost use Rattle.vocabulary.specs.Fits.{is_plain_map};
ghost use Rattle.vocabulary.specs.Shapes as shapes;
ghost use Rattle.machine.specs.Shown as found;
ghost use Rattle.machine.specs.RowCounts.{ChangesUpTo};
ghost use Rattle.vocabulary.specs.Shapes.{is_keyed};
ghost use Rattle.machine.specs.Bases.{base_at};
ghost use Rattle.machine.specs.Views.{candidates, flags_at, shape_at, shown};
ghost use Rattle.view_steps.specs.KnownViews.{number_under};
ghost use Rattle.vocabulary.specs.declared.answers.Answer.TheVariants as answers;
ghost use Rattle.vocabulary.specs.declared.edits.Spot.TheVariants as spots;
ghost use Rattle.write_chain.specs.Calls.{Came, added, added_last, removed};
ghost use Rattle.write_chain.specs.Members.{among_passes};

use crate::adding::add_many;
use crate::members::{Among, collected, members_of};
use crate::spots::end_spot;
use base_store::{AnyRef, Store};
use elem::Steps;
use read_chain::{contains_all, goes_by_key};
use std::sync::ledger::Ledger;
use vocabulary::{Answer, Item, Refusal, Spot, has_each_once};

/// Removes what a view shows and a test passes, and tells whether there was such an item. Where only a few elements pass,
/// and no two items have the same key, it looks these up, and passes over no others.
fn remove_among<L: Ledger>(
    store: &mut Store,
    n: AnyRef,
    test: &Among,
    steps: &mut Steps<L>,
) -> Answer
    requires node { n < length store.old.nodes }
    requires change { ChangesUpTo (2 ^ 63 - 1) store.old.world }
    ensures { Came (Ok result) store.old store.new (removed store.old.world (view_in store.old n) (all_hits (among_passes test.now) (candidates store.old.world (view_in store.old n))) (answers.Truth (list_any (among_passes test.now) (shown store.old.world (view_in store.old n))))) }
{
    if looks_up(store, n, test) {
        Answer::Truth(store.drop_of_keys(n, &test.members, test, steps))
    } else {
        Answer::Truth(store.drop_shown(n, test, steps))
    }
}

/// Whether the items that pass are found by their keys sooner than by a pass over the base.
fn looks_up(store: &Store, n: AnyRef, test: &Among) -> bool
    requires { n < length store.now.nodes }
    ensures keyed { result ≡ true → is_keyed (shape_at store.now.world (view_in store.now n)) ≡ true }
    ensures among { result ≡ true → test.now.out ≡ false }
{
    if test.out || !goes_by_key(store.shape(n)) {
        return false;
    }
    test.members.len() < store.len(store.base_of(n))
}

/// Removes what another view shows, or else what it does not show, and tells whether there was such an item.
pub(crate) fn remove_others<L: Ledger>(
    store: &mut Store,
    n: AnyRef,
    other: AnyRef,
    out: bool,
    steps: &mut Steps<L>,
) -> Result<Answer, Refusal>
    requires node { n < length store.old.nodes }
    requires other { other < length store.old.nodes }
    requires elements { shapes.is_elements (shape_at store.old.world (view_in store.old other)) ≡ true }
    requires change { ChangesUpTo (2 ^ 63 - 1) store.old.world }
    ensures { Came result store.old store.new (removed store.old.world (view_in store.old n)
        (all_hits (λ item. cond out (not (found.is_shown (shown store.old.world (view_in store.old other)) item)) (found.is_shown (shown store.old.world (view_in store.old other)) item)) (candidates store.old.world (view_in store.old n)))
        (answers.Truth (list_any (λ item. cond out (not (found.is_shown (shown store.old.world (view_in store.old other)) item)) (found.is_shown (shown store.old.world (view_in store.old other)) item)) (shown store.old.world (view_in store.old n))))) }
{
    let b = store.base_of(other);
    store.rows_fit(b);
    match members_of(store, other, steps) {
        Ok(members) => Ok(remove_among(store, n, &Among { members, out }, steps)),
        Err(why) => Err(why),
    }
}

/// Whether items that are added to a view change what it shows: a set, where one of them is not shown yet.
fn adds_something<L: Ledger>(
    store: &Store,
    n: AnyRef,
    other: AnyRef,
    items: &[Item],
    steps: &mut Steps<L>,
) -> bool
    requires node { n < length store.now.nodes }
    requires other { other < length store.now.nodes }
    requires items { items.now ≡ shown store.now.world (view_in store.now other) }
    ensures { result ≡ answering.adds_something (shape_at store.now.world (view_in store.now n)) (shown store.now.world (view_in store.now n)) (shown store.now.world (view_in store.now other)) }
{
    if has_each_once(store.shape(n)) {
        !contains_all(store, n, other, steps)
    } else {
        !items.is_empty()
    }
}

/// Adds the elements that another view shows at the end, unless one of them does not pass.
pub(crate) fn add_all<L: Ledger>(
    store: &mut Store,
    n: AnyRef,
    other: AnyRef,
    steps: &mut Steps<L>,
) -> Result<Answer, Refusal>
    requires node { n < length store.old.nodes }
    requires other { other < length store.old.nodes }
    requires elements { shapes.is_elements (shape_at store.old.world (view_in store.old n)) ≡ true }
    requires others { shapes.is_elements (shape_at store.old.world (view_in store.old other)) ≡ true }
    requires adds { (flags_at store.old.world (view_in store.old n)).add ≡ true }
    requires change { ChangesUpTo (2 ^ 63 - 1) store.old.world }
    ensures { Came result store.old store.new (added_last store.old.world (view_in store.old n) (shown store.old.world (view_in store.old other))
        (answers.Truth (answering.adds_something (shape_at store.old.world (view_in store.old n)) (shown store.old.world (view_in store.old n)) (shown store.old.world (view_in store.old other))))) }
{
    let _base = store.base_of(n);
    let b = store.base_of(other);
    store.rows_fit(b);
    match collected(store, other, steps) {
        Ok(items) => {
            let rows: &[Item] = &items;
            let new = adds_something(store, n, other, rows, steps);
            let spot = end_spot(store, n);
            add_many(store, n, rows, spot, Answer::Truth(new), steps)
        }
        Err(why) => Err(why),
    }
}

/// Puts the entries that another view shows, unless one of them does not pass.
pub(crate) fn put_all<L: Ledger>(
    store: &mut Store,
    n: AnyRef,
    other: AnyRef,
    steps: &mut Steps<L>,
) -> Result<Answer, Refusal>
    requires node { n < length store.old.nodes }
    requires other { other < length store.old.nodes }
    requires map { is_plain_map (shape_at store.old.world (view_in store.old n)) ≡ true }
    requires others { shapes.is_map (shape_at store.old.world (view_in store.old other)) ≡ true }
    requires adds { (flags_at store.old.world (view_in store.old n)).add ≡ true }
    requires change { ChangesUpTo (2 ^ 63 - 1) store.old.world }
    ensures { Came result store.old store.new (added store.old.world (view_in store.old n) (shown store.old.world (view_in store.old other)) spots.Own answers.Done) }
{
    let _base = store.base_of(n);
    let b = store.base_of(other);
    store.rows_fit(b);
    match collected(store, other, steps) {
        Ok(items) => {
            let rows: &[Item] = &items;
            add_many(store, n, rows, Spot::Own, Answer::Done, steps)
        }
        Err(why) => Err(why),
    }
}
