//! Whether there is room for one row more, and why a row doesn't come where there is none.
ghost use Rattle.std.specs.Prelude.{◌≡◌, ◌<◌, ◌≤◌, ◌+◌, ◌&&◌, ◌∷◌, [], length, nat_eq, false, true};
ghost use Rattle.base_rows.specs.Adding.{is_forced_more, is_one_more};
ghost use Rattle.base_rows.specs.BaseRows.{IsRowOf, IsSpotIn, kind_of, rows_of};
ghost use Rattle.machine.specs.Edits.{adding, takes_edit};
ghost use Rattle.vocabulary.specs.Kinds.{shape_of_kind};
ghost use Rattle.vocabulary.specs.Limits.{most_rows};
ghost use Rattle.vocabulary.specs.Shapes.{is_bimap};
ghost use Rattle.machine.specs.Bases.{base_at};
ghost use Rattle.vocabulary.specs.declared.refusals.Refusal.TheVariants as refusals;

use super::{MOST_ROWS, Slot};
use base_rows::BaseRows;
use elem::Steps;
use std::sync::ledger::Ledger;
use vocabulary::{Item, Refusal, Side, Spot, key_of, second_of};

/// Whether a row would be one too many.
pub(super) fn is_full<L: Ledger>(
    rows: usize,
    slots: &[Slot],
    b: usize,
    spot: Spot,
    row: &Item,
    steps: &mut Steps<L>,
) -> bool
    requires base { b < length slots.now }
    requires spot { IsSpotIn (base_at slots.now b).kind (length (base_at slots.now b).rows) spot }
    ensures full { result ≡ (nat_eq rows most_rows && is_one_more (base_at slots.now b).kind spot (base_at slots.now b).rows row.now) }
    ensures steps { steps.new ≤ steps.old + 1 }
{
    if rows != MOST_ROWS {
        return false;
    }
    let slot = &slots[b];
    adds(&slot.rows, spot, row, steps)
}

/// Whether a row that comes to a spot is one more.
fn adds<L: Ledger>(rows: &BaseRows, spot: Spot, row: &Item, steps: &mut Steps<L>) -> bool
    requires { IsSpotIn (kind_of rows.now) (length (rows_of rows.now)) spot }
    ensures added { result ≡ is_one_more (kind_of rows.now) spot (rows_of rows.now) row.now }
    ensures steps { steps.new ≤ steps.old + 1 }
{
    match spot {
        Spot::Own => {
            if !rows.goes_by_key() {
                return true;
            }
            rows.row_of_part(Side::First, &key_of(row), steps).is_none()
        }
        Spot::Swapped => rows
            .row_of_part(Side::Second, &second_of(row), steps)
            .is_none(),
        Spot::Instead(_) => false,
        _ => true,
    }
}

/// Why a row does not come that would be one too many: a bimap refuses it first, where its partner is bound to another.
pub(super) fn full_refusal<L: Ledger>(
    slots: &[Slot],
    b: usize,
    spot: Spot,
    row: &Item,
    steps: &mut Steps<L>,
) -> Refusal
    requires base { b < length slots.now }
    requires fits { IsRowOf (base_at slots.now b).kind row.now }
    requires spot { IsSpotIn (base_at slots.now b).kind (length (base_at slots.now b).rows) spot }
    ensures refused { takes_edit (base_at slots.now b) (adding spot (row.now ∷ [])) ≡ false → result ≡ refusals.IllegalArgument }
    ensures full { takes_edit (base_at slots.now b) (adding spot (row.now ∷ [])) ≡ true → result ≡ refusals.Limit }
    ensures steps { steps.new ≤ steps.old + 1 }
{
    let slot = &slots[b];
    if slot.rows.binds_partner(spot, row, steps) {
        Refusal::IllegalArgument
    } else {
        Refusal::Limit
    }
}

/// Whether a forced pair would be one too many.
pub(super) fn is_full_for_forced<L: Ledger>(
    rows: usize,
    slots: &[Slot],
    b: usize,
    row: &Item,
    steps: &mut Steps<L>,
) -> bool
    requires base { b < length slots.now }
    requires bimap { is_bimap (shape_of_kind (base_at slots.now b).kind) ≡ true }
    ensures full { result ≡ (nat_eq rows most_rows && is_forced_more (base_at slots.now b).rows row.now) }
    ensures steps { steps.new ≤ steps.old + 2 }
{
    if rows != MOST_ROWS {
        return false;
    }
    let slot = &slots[b];
    if slot
        .rows
        .row_of_part(Side::First, &key_of(row), steps)
        .is_some()
    {
        return false;
    }
    slot.rows
        .row_of_part(Side::Second, &second_of(row), steps)
        .is_none()
}
