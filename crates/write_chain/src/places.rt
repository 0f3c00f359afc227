//! Removing the candidate at a place of a view, as an iterator does.
ghost use Rattle.std.specs.Prelude.{◌≡◌, ◌↔◌, ◌<◌, ◌≤◌, ◌+◌, ◌-◌, ◌^◌, ℕ, Err, OnErr, OnOk, Some, false, length, slice_get};
ghost use Rattle.base_store.specs.Stored.{view_in, with_world};
ghost use Rattle.machine.specs.Edits.{removing};
ghost use Rattle.view_steps.specs.KnownViews.{edited_at, number_under};
ghost use Rattle.base_store.specs.Courses.{spots_in};
ghost use Rattle.view_laws.specs.Following.{IsFrom};
ghost use Rattle.machine.specs.RowCounts.{ChangesUpTo};
ghost use Rattle.view_laws.specs.ViewPlaces.{places, StandsFor};
ghost use Rattle.machine.specs.Candidates.{Candidate};
ghost use Rattle.machine.specs.Views.{candidates, flags_at};
ghost use Rattle.vocabulary.specs.declared.refusals.Refusal.TheVariants.{UnsupportedOperation};

use base_store::{AnyRef, Store};
use elem::Steps;
use std::sync::ledger::Ledger;
use view_laws::Place;
use vocabulary::Refusal;

/// Removes the rows for which the candidate at a place of a view stands, in one call of its base. It is refused where
/// the view allows no removal, and then nothing has changed. It takes no memory.
pub fn drop_place<L: Ledger>(
    store: &mut Store,
    n: AnyRef,
    at: &Place,
    steps: &mut Steps<L>,
) -> Result<(), Refusal>
    requires node { n < length store.old.nodes }
    requires place { IsFrom (places store.old.world (spots_in store.old.world) (view_in store.old n)) (Some at.now) }
    requires change { ChangesUpTo (2 ^ 63 - 1) store.old.world }
    ensures after { OnOk result ((i : ℕ) (c : Candidate) → StandsFor store.old.world (spots_in store.old.world) (view_in store.old n) at.now i → slice_get (candidates store.old.world (view_in store.old n)) i ≡ Some c
        → store.new ≡ with_world store.old (edited_at store.old.world (number_under (view_in store.old n)) (removing c.rows))) }
    ensures err { OnErr result (store.new ≡ store.old) }
    ensures refused { result ≡ Err UnsupportedOperation ↔ (flags_at store.old.world (view_in store.old n)).remove ≡ false }
    ensures steps { steps.new ≤ steps.old + 1 }
{
    if !store.flags_of(n).remove {
        return Err(Refusal::UnsupportedOperation);
    }
    store.is_lawful(n);
    let b = store.base_of(n);
    store.remove_row(b, &at.spot, steps);
    Ok(())
}
