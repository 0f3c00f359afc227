//! Adding items to a view that allows it.
ghost use Rattle.std.specs.Prelude.{◌≡◌, ◌<◌, ◌^◌, ◌-◌, ◌∷◌, [], length, false, true, Err, ◌≤◌, ◌+◌};
ghost use Rattle.base_rows.specs.BaseRows.{AreRowsOf, IsFree, IsRowOf, IsSpotIn};
ghost use Rattle.base_store.specs.Stored.{view_in};
ghost use Rattle.machine.specs.RowCounts.{ChangesUpTo};
ghost use Rattle.machine.specs.Memory.{adds_rows};
ghost use Rattle.machine.specs.Bases.{base_at};
ghost use Rattle.view_steps.specs.KnownViews.{number_under};
ghost use Rattle.write_chain.specs.Calls.{Came, added, forced};
ghost use Rattle.vocabulary.specs.Kinds.{shape_of_kind};
ghost use Rattle.vocabulary.specs.Shapes.{is_bimap};
ghost use Rattle.vocabulary.specs.declared.refusals.Refusal.TheVariants.{NoMemory};

use crate::lifting::{all_lift, lift};
use base_store::{AnyRef, Store};
use elem::Steps;
use std::sync::ledger::Ledger;
use vocabulary::{Answer, Item, Refusal, Spot};

/// Puts one item in a spot of the base under a view, unless it does not pass, and gives the answer.
pub(crate) fn add_one<L: Ledger>(
    store: &mut Store,
    n: AnyRef,
    item: &Item,
    spot: Spot,
    answer: Answer,
    steps: &mut Steps<L>,
) -> Result<Answer, Refusal>
    requires node { n < length store.old.nodes }
    requires fits { IsRowOf (base_at store.old.world (number_under (view_in store.old n))).kind item.now }
    requires spot { IsSpotIn (base_at store.old.world (number_under (view_in store.old n))).kind (length (base_at store.old.world (number_under (view_in store.old n))).rows) spot }
    requires change { ChangesUpTo (2 ^ 63 - 1) store.old.world }
    ensures came { Came result store.old store.new (added store.old.world (view_in store.old n) (item.now ∷ []) spot answer) }
    ensures memory { result ≡ Err NoMemory → is_bimap (shape_of_kind (base_at store.old.world (number_under (view_in store.old n))).kind) ≡ false → adds_rows store.old.world (added store.old.world (view_in store.old n) (item.now ∷ []) spot answer) ≡ true }
    ensures steps { steps.new ≤ steps.old + 2 }
{
    let b = store.base_of(n);
    let Some(row) = lift(store, n, item) else {
        return Err(Refusal::IllegalArgument);
    };
    match store.place_row(b, spot, &row, steps) {
        Ok(()) => Ok(answer),
        Err(why) => Err(why),
    }
}

/// Puts one pair in its spot of the bimap under a view, unless it does not pass, and gives the answer. Those go that have a
/// partner of its own.
pub(crate) fn force_one<L: Ledger>(
    store: &mut Store,
    n: AnyRef,
    item: &Item,
    answer: Answer,
    steps: &mut Steps<L>,
) -> Result<Answer, Refusal>
    requires node { n < length store.old.nodes }
    requires bimap { is_bimap (shape_of_kind (base_at store.old.world (number_under (view_in store.old n))).kind) ≡ true }
    requires fits { IsRowOf (base_at store.old.world (number_under (view_in store.old n))).kind item.now }
    requires change { ChangesUpTo (2 ^ 63 - 1) store.old.world }
    ensures came { Came result store.old store.new (forced store.old.world (view_in store.old n) (item.now ∷ []) answer) }
    ensures steps { steps.new ≤ steps.old + 3 }
{
    let b = store.base_of(n);
    let spot = store.own_spot(n);
    let Some(row) = lift(store, n, item) else {
        return Err(Refusal::IllegalArgument);
    };
    match store.force_row(b, spot, &row, steps) {
        Ok(()) => Ok(answer),
        Err(why) => Err(why),
    }
}

/// Puts items in a spot of the base under a view, unless one of them does not pass, and gives the answer. All or none
/// are put.
pub(crate) fn add_many<L: Ledger>(
    store: &mut Store,
    n: AnyRef,
    items: &[Item],
    spot: Spot,
    answer: Answer,
    steps: &mut Steps<L>,
) -> Result<Answer, Refusal>
    requires node { n < length store.old.nodes }
    requires fits { AreRowsOf (base_at store.old.world (number_under (view_in store.old n))).kind items.now }
    requires spot { IsSpotIn (base_at store.old.world (number_under (view_in store.old n))).kind (length (base_at store.old.world (number_under (view_in store.old n))).rows) spot }
    requires free { IsFree spot }
    requires other { is_bimap (shape_of_kind (base_at store.old.world (number_under (view_in store.old n))).kind) ≡ false }
    requires change { ChangesUpTo (2 ^ 63 - 1) store.old.world }
    ensures { Came result store.old store.new (added store.old.world (view_in store.old n) items.now spot answer) }
{
    if !all_lift(store, n, items) {
        return Err(Refusal::IllegalArgument);
    }
    let b = store.base_of(n);
    match store.place_rows(b, spot, items, steps) {
        Ok(()) => Ok(answer),
        Err(why) => Err(why),
    }
}
