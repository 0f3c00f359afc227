//! What changes one base of a store: its rows, and its change number with them.
ghost use Rattle.std.specs.Prelude.{◌≡◌, ◌<◌, ◌≤◌, ◌+◌, ◌^◌, ◌⊎◌, ◌∷◌, ℕ, [], List, Some, filter, if◌then◌else◌, length, nat_lt, not, false, true, IfErr, OnErr, OnOk};
ghost use Rattle.base_rows.specs.Adding.{IsPlaceFault};
ghost use Rattle.base_rows.specs.BaseRows.{AreRowsOf, IsFree, IsRowOf, IsSpotIn};
ghost use Rattle.base_rows.specs.Reaches.{Reaches};
ghost use Rattle.machine.specs.CallEdits.{forcing_at};
ghost use Rattle.machine.specs.Edits.{adding, edited, removing, takes_edit, with_rows};
ghost use Rattle.vocabulary.specs.Kinds.{shape_of_kind};
ghost use Rattle.vocabulary.specs.Shapes.{is_bimap};
ghost use Rattle.base_rows.specs.BaseSpots.{HasKeys, IsRowAt, spots_of};
ghost use Rattle.view_laws.specs.Following.{IsFrom};
ghost use Rattle.vocabulary.specs.declared.refusals.Refusal.TheVariants as refusals;

use super::Slot;
use base_rows::{PlaceFault, Reach, RowTest};
use elem::{NoMemory, Steps};
use std::alloc::Global;
use std::sync::ledger::Ledger;
use view_laws::RowSpot;
use vocabulary::{Item, Refusal, Spot};

impl Slot {
    /// Puts a row in its spot.
    pub(super) fn place<L: Ledger>(
        &mut self,
        spot: Spot,
        row: &Item,
        steps: &mut Steps<L>,
    ) -> Result<(), PlaceFault>
        requires change { self.old.change < 2 ^ 63 }
        requires fits { IsRowOf self.old.kind row.now }
        requires spot { IsSpotIn self.old.kind (length self.old.rows) spot }
        ensures ok { OnOk result (self.new ≡ edited self.old (adding spot (row.now ∷ []))) }
        ensures taken { OnOk result (takes_edit self.old (adding spot (row.now ∷ [])) ≡ true) }
        ensures keys { OnOk result (HasKeys self.new) }
        ensures err { OnErr result (self.new ≡ self.old) }
        ensures cause { IfErr result (IsPlaceFault self.old.kind spot self.old.rows row.now) }
        ensures steps { steps.new ≤ steps.old + 1 }
    {
        let changed = self.rows.place(spot, row, steps)?;
        let _len = self.rows.len();
        self.change = raised_if(self.change, changed);
        Ok(())
    }

    /// Puts a pair in its spot of a bimap. Those go that have a partner of its own.
    pub(super) fn force<L: Ledger>(
        &mut self,
        spot: Spot,
        row: &Item,
        steps: &mut Steps<L>,
    ) -> Result<(), NoMemory>
        requires change { self.old.change < 2 ^ 63 }
        requires bimap { is_bimap (shape_of_kind self.old.kind) ≡ true }
        requires fits { IsRowOf self.old.kind row.now }
        requires spot { IsSpotIn self.old.kind (length self.old.rows) spot }
        ensures ok { OnOk result (self.new ≡ edited self.old (forcing_at spot self.old.rows (row.now ∷ []))) }
        ensures taken { takes_edit self.old (forcing_at spot self.old.rows (row.now ∷ [])) ≡ true }
        ensures keys { OnOk result (HasKeys self.new) }
        ensures err { OnErr result (self.new ≡ self.old) }
        ensures steps { steps.new ≤ steps.old + 1 }
    {
        let changed = self.rows.force(spot, row, steps)?;
        let _len = self.rows.len();
        self.change = raised_if(self.change, changed);
        Ok(())
    }

    /// Puts rows in their spot, where no more than so many new ones come.
    pub(super) fn place_all<L: Ledger>(
        &mut self,
        alloc: Global,
        spot: Spot,
        rows: &[Item],
        room: usize,
        steps: &mut Steps<L>,
    ) -> Result<(), Refusal>
        requires change { self.old.change < 2 ^ 63 }
        requires fits { AreRowsOf self.old.kind rows.now }
        requires spot { IsSpotIn self.old.kind (length self.old.rows) spot }
        requires free { IsFree spot }
        requires other { is_bimap (shape_of_kind self.old.kind) ≡ false }
        ensures ok { OnOk result (self.new ≡ edited self.old (adding spot rows.now)) }
        ensures keys { OnOk result (HasKeys self.new) }
        ensures few { OnOk result (length self.new.rows ≤ length self.old.rows + room) }
        ensures err { OnErr result (self.new ≡ self.old) }
        ensures cause { IfErr result (λ why. ((why ≡ refusals.Limit) × (length self.old.rows + room < length (edited self.old (adding spot rows.now)).rows)) ⊎ (why ≡ refusals.NoMemory)) }
    {
        let before = self.rows.len();
        match self.rows.place_all(alloc, spot, rows, room, steps) {
            Err(why) => Err(why),
            Ok(()) => {
                let after = self.rows.len();
                self.change = raised(self.change, before, after);
                Ok(())
            }
        }
    }

    /// Removes the row at a spot.
    pub(super) fn remove<L: Ledger>(&mut self, at: &RowSpot, steps: &mut Steps<L>)
        requires change { self.old.change < 2 ^ 63 }
        requires spot { IsFrom (spots_of self.old.kind self.old.rows) (Some at.now) }
        ensures after { (numbers : List ℕ) → IsRowAt (spots_of self.old.kind self.old.rows) at.now numbers → self.new ≡ edited self.old (removing numbers) }
        ensures keys { HasKeys self.new }
        ensures steps { steps.new ≤ steps.old + 1 }
    {
        let before = self.rows.len();
        self.rows.remove(at, steps);
        let after = self.rows.len();
        self.change = raised(self.change, after, before);
    }

    /// Removes every row that passes a test. It looks at those within its reach alone.
    pub(super) fn drop_all<T: RowTest, L: Ledger>(
        &mut self,
        reach: Reach<'_>,
        test: &T,
        steps: &mut Steps<L>,
    )
        requires change { self.old.change < 2 ^ 63 }
        requires reach { Reaches self.old.kind reach (T.passes test.now) }
        ensures after { self.new ≡ with_rows self.old (filter (λ row. not (T.passes test.now row)) self.old.rows) self.old.keys (nat_lt (length (filter (λ row. not (T.passes test.now row)) self.old.rows)) (length self.old.rows)) }
        ensures keys { HasKeys self.new }
    {
        let before = self.rows.len();
        self.rows.drop_all(reach, test, steps);
        let after = self.rows.len();
        self.change = raised(self.change, after, before);
    }
}

/// A change number after rows came or went: one more where there were fewer on one side than on the other.
fn raised(change: u64, fewer: usize, more: usize) -> u64
    requires { change < 2 ^ 63 }
    ensures { result ≡ change + (if nat_lt fewer more then 1 else 0) }
{
    if fewer < more { change + 1 } else { change }
}

/// A change number after a change that counts, or one that does not.
fn raised_if(change: u64, counts: bool) -> u64
    requires { change < 2 ^ 63 }
    ensures { result ≡ change + (if counts then 1 else 0) }
{
    if counts { change + 1 } else { change }
}
