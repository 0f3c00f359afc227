//! Changing the bases of a store.
ghost use Rattle.std.specs.Prelude.{◌≡◌, ◌<◌, ◌≤◌, ◌+◌, ◌^◌, ◌⊎◌, ◌∷◌, ℕ, [], List, Some, length, false, true, Err, IfErr, OnErr, OnOk};
ghost use Rattle.base_rows.specs.Adding.{IsPlaceFault};
ghost use Rattle.base_store.specs.RowFaults.{IsRowFault};
ghost use Rattle.base_rows.specs.BaseRows.{AreRowsOf, IsFree, IsRowOf, IsSpotIn};
ghost use Rattle.base_store.specs.Stored.{with_world};
ghost use Rattle.machine.specs.CallEdits.{forcing_at};
ghost use Rattle.machine.specs.Edits.{adding, edited, removing, takes_edit};
ghost use Rattle.view_steps.specs.KnownViews.{edited_at};
ghost use Rattle.vocabulary.specs.Kinds.{shape_of_kind};
ghost use Rattle.base_rows.specs.BaseSpots.{HasKeys, IsRowAt};
ghost use Rattle.base_store.specs.Courses.{spots_at};
ghost use Rattle.view_laws.specs.Following.{IsFrom};
ghost use Rattle.machine.specs.RowCounts.{rows_in};
ghost use Rattle.vocabulary.specs.Limits.{most_rows};
ghost use Rattle.view_steps.specs.Limits.{Grows};
ghost use Rattle.vocabulary.specs.Shapes.{is_bimap};
ghost use Rattle.machine.specs.Bases.{base_at};
ghost use Rattle.vocabulary.specs.declared.refusals.Refusal.TheVariants as refusals;

use super::room::{full_refusal, is_full, is_full_for_forced};
use super::{MOST_ROWS, Slot, Store};
use crate::BaseId;
use base_rows::PlaceFault;
use elem::{NoMemory, Steps};
use std::alloc::Global;
use std::sync::ledger::Ledger;
use view_laws::RowSpot;
use vocabulary::{Item, Refusal, Spot};

impl Store {
    /// Puts a row in its spot of a base. It takes memory only where a row is added, and in a bimap.
    ///
    /// # Errors
    ///
    /// `IllegalArgument` where a bimap has the row's partner bound to another, `Limit` where a row is added and there is no
    /// room for one, and `NoMemory`.
    pub fn place_row<L: Ledger>(
        &mut self,
        b: BaseId,
        spot: Spot,
        row: &Item,
        steps: &mut Steps<L>,
    ) -> Result<(), Refusal>
        requires base { b < length self.old.world }
        requires change { (base_at self.old.world b).change < 2 ^ 63 }
        requires fits { IsRowOf (base_at self.old.world b).kind row.now }
        requires spot { IsSpotIn (base_at self.old.world b).kind (length (base_at self.old.world b).rows) spot }
        ensures ok { OnOk result (self.new ≡ with_world self.old (edited_at self.old.world b (adding spot (row.now ∷ [])))) }
        ensures taken { OnOk result (takes_edit (base_at self.old.world b) (adding spot (row.now ∷ [])) ≡ true) }
        ensures few { rows_in self.new.world ≤ most_rows }
        ensures err { OnErr result (self.new ≡ self.old) }
        ensures cause { IfErr result (IsRowFault self.old.world b (adding spot (row.now ∷ []))) }
        ensures memory { result ≡ Err refusals.NoMemory → is_bimap (shape_of_kind (base_at self.old.world b).kind) ≡ false → Grows self.old.world (edited_at self.old.world b (adding spot (row.now ∷ []))) }
        ensures steps { steps.new ≤ steps.old + 2 }
    {
        self.rows_fit(b);
        let at = b.number();
        let before = rows_at(self.slots.as_slice(), at);
        if is_full(self.rows, self.slots.as_slice(), at, spot, row, steps) {
            return Err(full_refusal(self.slots.as_slice(), at, spot, row, steps));
        }
        match place_in(&mut self.slots, at, spot, row, steps) {
            Err(PlaceFault::Refused) => Err(Refusal::IllegalArgument),
            Err(PlaceFault::NoMemory) => Err(Refusal::NoMemory),
            Ok(()) => {
                let after = rows_at(self.slots.as_slice(), at);
                self.rows = self.rows - before + after;
                Ok(())
            }
        }
    }

    /// Puts a pair in its spot of a bimap. Those go that have a partner of its own.
    ///
    /// # Errors
    ///
    /// `Limit` where a pair more is left and there is no room for one, and `NoMemory`.
    pub fn force_row<L: Ledger>(
        &mut self,
        b: BaseId,
        spot: Spot,
        row: &Item,
        steps: &mut Steps<L>,
    ) -> Result<(), Refusal>
        requires base { b < length self.old.world }
        requires change { (base_at self.old.world b).change < 2 ^ 63 }
        requires bimap { is_bimap (shape_of_kind (base_at self.old.world b).kind) ≡ true }
        requires fits { IsRowOf (base_at self.old.world b).kind row.now }
        requires spot { IsSpotIn (base_at self.old.world b).kind (length (base_at self.old.world b).rows) spot }
        ensures ok { OnOk result (self.new ≡ with_world self.old (edited_at self.old.world b (forcing_at spot (base_at self.old.world b).rows (row.now ∷ [])))) }
        ensures taken { takes_edit (base_at self.old.world b) (forcing_at spot (base_at self.old.world b).rows (row.now ∷ [])) ≡ true }
        ensures few { rows_in self.new.world ≤ most_rows }
        ensures err { OnErr result (self.new ≡ self.old) }
        ensures cause { IfErr result (IsRowFault self.old.world b (forcing_at spot (base_at self.old.world b).rows (row.now ∷ []))) }
        ensures steps { steps.new ≤ steps.old + 3 }
    {
        self.rows_fit(b);
        let at = b.number();
        let before = rows_at(self.slots.as_slice(), at);
        if is_full_for_forced(self.rows, self.slots.as_slice(), at, row, steps) {
            return Err(Refusal::Limit);
        }
        let Ok(()) = force_in(&mut self.slots, at, spot, row, steps) else {
            return Err(Refusal::NoMemory);
        };
        let after = rows_at(self.slots.as_slice(), at);
        self.rows = self.rows - before + after;
        Ok(())
    }

    /// Puts rows in their spot of a base, one after another. All or none are put.
    ///
    /// # Errors
    ///
    /// `Limit` where more rows would be added than there is room for, and `NoMemory`.
    pub fn place_rows<L: Ledger>(
        &mut self,
        b: BaseId,
        spot: Spot,
        rows: &[Item],
        steps: &mut Steps<L>,
    ) -> Result<(), Refusal>
        requires base { b < length self.old.world }
        requires change { (base_at self.old.world b).change < 2 ^ 63 }
        requires fits { AreRowsOf (base_at self.old.world b).kind rows.now }
        requires spot { IsSpotIn (base_at self.old.world b).kind (length (base_at self.old.world b).rows) spot }
        requires free { IsFree spot }
        requires other { is_bimap (shape_of_kind (base_at self.old.world b).kind) ≡ false }
        ensures ok { OnOk result (self.new ≡ with_world self.old (edited_at self.old.world b (adding spot rows.now))) }
        ensures few { rows_in self.new.world ≤ most_rows }
        ensures err { OnErr result (self.new ≡ self.old) }
        ensures cause { IfErr result (λ why. ((why ≡ refusals.Limit) × (most_rows < rows_in (edited_at self.old.world b (adding spot rows.now)))) ⊎ (why ≡ refusals.NoMemory)) }
    {
        let at = b.number();
        let before = rows_at(self.slots.as_slice(), at);
        let room = MOST_ROWS - self.rows;
        match place_all_in(&mut self.slots, at, self.alloc, spot, rows, room, steps) {
            Err(why) => Err(why),
            Ok(()) => {
                let after = rows_at(self.slots.as_slice(), at);
                self.rows = self.rows - before + after;
                Ok(())
            }
        }
    }

    /// Removes the row at a spot of a base. It takes no memory.
    pub fn remove_row<L: Ledger>(&mut self, b: BaseId, at: &RowSpot, steps: &mut Steps<L>)
        requires base { b < length self.old.world }
        requires change { (base_at self.old.world b).change < 2 ^ 63 }
        requires spot { IsFrom (spots_at self.old.world b) (Some at.now) }
        ensures after { (numbers : List ℕ) → IsRowAt (spots_at self.old.world b) at.now numbers → self.new ≡ with_world self.old (edited_at self.old.world b (removing numbers)) }
        ensures few { rows_in self.new.world ≤ most_rows }
        ensures steps { steps.new ≤ steps.old + 1 }
    {
        let number = b.number();
        let before = rows_at(self.slots.as_slice(), number);
        remove_in(&mut self.slots, number, at, steps);
        let after = rows_at(self.slots.as_slice(), number);
        self.rows = self.rows - before + after;
    }
}

/// How many rows a base has.
pub(super) fn rows_at(slots: &[Slot], b: usize) -> usize
    requires { b < length slots.now }
    ensures { result ≡ length (base_at slots.now b).rows }
{
    let slot = &slots[b];
    slot.rows.len()
}

/// Puts a row in its spot of a base.
fn place_in<L: Ledger>(
    slots: &mut Vec<Slot>,
    b: usize,
    spot: Spot,
    row: &Item,
    steps: &mut Steps<L>,
) -> Result<(), PlaceFault>
    requires base { b < length slots.old.items }
    requires change { (base_at slots.old.items b).change < 2 ^ 63 }
    requires fits { IsRowOf (base_at slots.old.items b).kind row.now }
    requires spot { IsSpotIn (base_at slots.old.items b).kind (length (base_at slots.old.items b).rows) spot }
    ensures ok { OnOk result (slots.new.items ≡ edited_at slots.old.items b (adding spot (row.now ∷ []))) }
    ensures taken { OnOk result (takes_edit (base_at slots.old.items b) (adding spot (row.now ∷ [])) ≡ true) }
    ensures keys { OnOk result (HasKeys (edited (base_at slots.old.items b) (adding spot (row.now ∷ [])))) }
    ensures err { OnErr result (slots.new.items ≡ slots.old.items) }
    ensures cause { IfErr result (IsPlaceFault (base_at slots.old.items b).kind spot (base_at slots.old.items b).rows row.now) }
    ensures steps { steps.new ≤ steps.old + 1 }
{
    let slot = &mut slots[b];
    slot.place(spot, row, steps)
}

/// Puts a pair in its spot of a bimap.
fn force_in<L: Ledger>(
    slots: &mut Vec<Slot>,
    b: usize,
    spot: Spot,
    row: &Item,
    steps: &mut Steps<L>,
) -> Result<(), NoMemory>
    requires base { b < length slots.old.items }
    requires change { (base_at slots.old.items b).change < 2 ^ 63 }
    requires bimap { is_bimap (shape_of_kind (base_at slots.old.items b).kind) ≡ true }
    requires fits { IsRowOf (base_at slots.old.items b).kind row.now }
    requires spot { IsSpotIn (base_at slots.old.items b).kind (length (base_at slots.old.items b).rows) spot }
    ensures ok { OnOk result (slots.new.items ≡ edited_at slots.old.items b (forcing_at spot (base_at slots.old.items b).rows (row.now ∷ []))) }
    ensures taken { takes_edit (base_at slots.old.items b) (forcing_at spot (base_at slots.old.items b).rows (row.now ∷ [])) ≡ true }
    ensures keys { OnOk result (HasKeys (edited (base_at slots.old.items b) (forcing_at spot (base_at slots.old.items b).rows (row.now ∷ [])))) }
    ensures err { OnErr result (slots.new.items ≡ slots.old.items) }
    ensures steps { steps.new ≤ steps.old + 1 }
{
    let slot = &mut slots[b];
    slot.force(spot, row, steps)
}

/// Puts rows in their spot of a base, where no more than so many new ones come.
fn place_all_in<L: Ledger>(
    slots: &mut Vec<Slot>,
    b: usize,
    alloc: Global,
    spot: Spot,
    rows: &[Item],
    room: usize,
    steps: &mut Steps<L>,
) -> Result<(), Refusal>
    requires base { b < length slots.old.items }
    requires change { (base_at slots.old.items b).change < 2 ^ 63 }
    requires fits { AreRowsOf (base_at slots.old.items b).kind rows.now }
    requires spot { IsSpotIn (base_at slots.old.items b).kind (length (base_at slots.old.items b).rows) spot }
    requires free { IsFree spot }
    requires other { is_bimap (shape_of_kind (base_at slots.old.items b).kind) ≡ false }
    ensures ok { OnOk result (slots.new.items ≡ edited_at slots.old.items b (adding spot rows.now)) }
    ensures keys { OnOk result (HasKeys (edited (base_at slots.old.items b) (adding spot rows.now))) }
    ensures few { OnOk result (length (edited (base_at slots.old.items b) (adding spot rows.now)).rows ≤ length (base_at slots.old.items b).rows + room) }
    ensures err { OnErr result (slots.new.items ≡ slots.old.items) }
    ensures cause { IfErr result (λ why. ((why ≡ refusals.Limit) × (length (base_at slots.old.items b).rows + room < length (edited (base_at slots.old.items b) (adding spot rows.now)).rows)) ⊎ (why ≡ refusals.NoMemory)) }
{
    let slot = &mut slots[b];
    slot.place_all(alloc, spot, rows, room, steps)
}

/// Removes the row at a spot of a base.
fn remove_in<L: Ledger>(slots: &mut Vec<Slot>, b: usize, at: &RowSpot, steps: &mut Steps<L>)
    requires base { b < length slots.old.items }
    requires change { (base_at slots.old.items b).change < 2 ^ 63 }
    requires spot { IsFrom (spots_at slots.old.items b) (Some at.now) }
    ensures after { (numbers : List ℕ) → IsRowAt (spots_at slots.old.items b) at.now numbers → slots.new.items ≡ edited_at slots.old.items b (removing numbers) }
    ensures keys { (numbers : List ℕ) → IsRowAt (spots_at slots.old.items b) at.now numbers → HasKeys (edited (base_at slots.old.items b) (removing numbers)) }
    ensures steps { steps.new ≤ steps.old + 1 }
{
    let slot = &mut slots[b];
    slot.remove(at, steps);
}
