//! Pairs that come to a bimap.
ghost use Rattle.std.specs.Prelude.{◌≡◌, ◌≤◌, ◌+◌, [], ◌∷◌, length, not, true, Some, IfErr, IfOk, OnErr, OnOk};
ghost use Rattle.std.specs.Option.{option_eq};
ghost use Rattle.elem.specs.Elements.{same};
ghost use Rattle.base_rows.specs.Adding as spec;
ghost use Rattle.base_rows.specs.Adding.{IsPlaceFault};
ghost use Rattle.base_rows.specs.BaseRows.{entries, IsRowOf, IsSpotIn};
ghost use Rattle.machine.specs.CallEdits.{forcing_at};
ghost use Rattle.machine.specs.Edits.{is_structural, without_rows};
ghost use Rattle.machine.specs.Placing.{placed_at, takes_row};
ghost use Rattle.vocabulary.specs.declared.kinds.Kind.TheVariants.{HashBiMap};

use crate::PlaceFault;
use bimap_base::{BiFault, PairRows};
use elem::{Elem, NoMemory, Steps};
use std::sync::ledger::Ledger;
use vocabulary::{Item, Spot, key_of, value_of};

/// Whether an element comes in the place of another, or of none.
fn changes(before: Option<Elem>, new: &Elem) -> bool
    ensures { result ≡ not (option_eq same before (Some new.now)) }
{
    before != Some(*new)
}

/// Puts a pair in its spot, and tells whether a pair came or became another.
pub fn place_pair<L: Ledger>(
    rows: &mut PairRows,
    spot: Spot,
    row: &Item,
    steps: &mut Steps<L>,
) -> Result<bool, PlaceFault>
    requires fits { IsRowOf HashBiMap row.now }
    requires spot { IsSpotIn HashBiMap (length (entries rows.old)) spot }
    ensures ok { OnOk result (entries rows.new ≡ placed_at HashBiMap spot (entries rows.old) row.now) }
    ensures taken { OnOk result (takes_row HashBiMap spot (entries rows.old) row.now ≡ true) }
    ensures structural { IfOk result (λ changed. changed ≡ is_structural HashBiMap (entries rows.old) (entries rows.old) (entries rows.new)) }
    ensures err { OnErr result (entries rows.new ≡ entries rows.old) }
    ensures cause { IfErr result (IsPlaceFault HashBiMap spot (entries rows.old) row.now) }
    ensures steps { steps.new ≤ steps.old + 1 }
{
    let _len = rows.len();
    let k = key_of(row);
    let v = value_of(row);
    match spot {
        Spot::Own => match rows.put(k, v, steps) {
            Ok(before) => Ok(changes(before, &v)),
            Err(BiFault::Bound) => Err(PlaceFault::Refused),
            Err(BiFault::NoMemory) => Err(PlaceFault::NoMemory),
        },
        Spot::Swapped => match rows.flip_put(v, k, steps) {
            Ok(before) => Ok(changes(before, &k)),
            Err(BiFault::Bound) => Err(PlaceFault::Refused),
            Err(BiFault::NoMemory) => Err(PlaceFault::NoMemory),
        },
        _ => unreachable!(),
    }
}

/// Puts a pair in its spot, and tells whether a pair came, went or became another. Those go that have a partner of its
/// own.
pub fn force_pair<L: Ledger>(
    rows: &mut PairRows,
    spot: Spot,
    row: &Item,
    steps: &mut Steps<L>,
) -> Result<bool, NoMemory>
    requires fits { IsRowOf HashBiMap row.now }
    requires spot { IsSpotIn HashBiMap (length (entries rows.old)) spot }
    ensures ok { OnOk result (entries rows.new ≡ placed_at HashBiMap spot (without_rows (forcing_at spot (entries rows.old) (row.now ∷ [])).gone 0 (entries rows.old)) row.now) }
    ensures taken { takes_row HashBiMap spot (without_rows (forcing_at spot (entries rows.old) (row.now ∷ [])).gone 0 (entries rows.old)) row.now ≡ true }
    ensures structural { IfOk result (λ changed. changed ≡ is_structural HashBiMap (entries rows.old) (without_rows (forcing_at spot (entries rows.old) (row.now ∷ [])).gone 0 (entries rows.old)) (entries rows.new)) }
    ensures err { OnErr result (entries rows.new ≡ entries rows.old) }
    ensures steps { steps.new ≤ steps.old + 1 }
{
    let _len = rows.len();
    let k = key_of(row);
    let v = value_of(row);
    match spot {
        Spot::Own => match rows.force_put(k, v, steps) {
            Ok(before) => Ok(changes(before, &v)),
            Err(NoMemory) => Err(NoMemory),
        },
        Spot::Swapped => match rows.flip_force_put(v, k, steps) {
            Ok(before) => Ok(changes(before, &k)),
            Err(NoMemory) => Err(NoMemory),
        },
        _ => unreachable!(),
    }
}

/// Whether there is one, and it is another.
fn is_other(of: Option<Elem>, x: &Elem) -> bool
    ensures { result ≡ spec.is_other of x.now }
{
    match of {
        Some(y) => *x != y,
        None => false,
    }
}

/// Whether the partner of a pair that comes to a spot is bound to another.
pub fn is_bound<L: Ledger>(rows: &PairRows, spot: Spot, row: &Item, steps: &mut Steps<L>) -> bool
    requires fits { IsRowOf HashBiMap row.now }
    requires spot { IsSpotIn HashBiMap (length (entries rows.now)) spot }
    ensures bound { result ≡ not (takes_row HashBiMap spot (entries rows.now) row.now) }
    ensures step { steps.new ≤ steps.old + 1 }
{
    let _len = rows.len();
    let k = key_of(row);
    let v = value_of(row);
    match spot {
        Spot::Own => is_other(rows.by_value(v, steps), &k),
        Spot::Swapped => is_other(rows.by_key(k, steps), &v),
        _ => unreachable!(),
    }
}
