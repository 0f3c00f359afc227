//! Rows that come to a list.
ghost use Rattle.std.specs.Prelude.{◌≡◌, ◌<◌, ◌≤◌, ◌+◌, ◌⊎◌, length, true, IfErr, OnErr, OnOk};
ghost use Rattle.base_rows.specs.Adding.{is_one_more};
ghost use Rattle.std.specs.List.{remove_range};
ghost use Rattle.base_rows.specs.BaseRows.{items, AreRowsOf, IsFree, IsSpotIn};
ghost use Rattle.base_rows.specs.Journals.{index_in};
ghost use Rattle.machine.specs.Edits.{coming, placed_all};
ghost use Rattle.machine.specs.Placing.{placed_at};
ghost use Rattle.vocabulary.specs.declared.items.Item.TheVariants.{One};
ghost use Rattle.vocabulary.specs.declared.kinds.Kind.TheVariants.{ArrayList};
ghost use Rattle.vocabulary.specs.declared.refusals.Refusal.TheVariants as refusals;

use elem::{Elem, NoMemory, Steps};
use plain_base::ArrayRows;
use std::sync::ledger::Ledger;
use vocabulary::{Item, Refusal, Spot, key_of};

/// Puts an item in its spot.
pub fn place_item<L: Ledger>(
    rows: &mut ArrayRows,
    spot: Spot,
    x: Elem,
    steps: &mut Steps<L>,
) -> Result<(), NoMemory>
    requires { IsSpotIn ArrayList (length rows.old) spot }
    ensures ok { OnOk result (items rows.new ≡ placed_at ArrayList spot (items rows.old) (One x)) }
    ensures err { OnErr result (items rows.new ≡ items rows.old) }
    ensures memory { OnErr result (is_one_more ArrayList spot (items rows.old) (One x) ≡ true) }
    ensures steps { steps.new ≤ steps.old + 1 }
{
    match spot {
        Spot::Own => {
            let size = rows.len();
            rows.insert_at(size, x, steps)
        }
        Spot::Before(i) => rows.insert_at(i, x, steps),
        Spot::Instead(i) => {
            rows.set_at(i, x, steps);
            Ok(())
        }
        _ => unreachable!(),
    }
}

/// Removes the items from an index up to another, the last first.
pub fn remove_run<L: Ledger>(rows: &mut ArrayRows, from: usize, to: usize, steps: &mut Steps<L>)
    requires ordered { from ≤ to }
    requires within { to ≤ length rows.old }
    ensures { rows.new ≡ remove_range rows.old from to }
{
    let mut end = to;
    while from < end {
        end -= 1;
        rows.remove_at(end, steps);
    }
}

/// The index of a spot in a list of so many items.
fn index_of(spot: Spot, size: usize) -> usize
    ensures { result ≡ index_in spot size }
{
    match spot {
        Spot::Before(i) | Spot::Instead(i) => i,
        _ => size,
    }
}

/// Puts rows in their spot, one after another, where no more than so many come. All or none are put.
pub fn place_items<L: Ledger>(
    rows: &mut ArrayRows,
    spot: Spot,
    added: &[Item],
    room: usize,
    steps: &mut Steps<L>,
) -> Result<(), Refusal>
    requires fits { AreRowsOf ArrayList added.now }
    requires spot { IsSpotIn ArrayList (length rows.old) spot }
    requires free { IsFree spot }
    ensures ok { OnOk result (items rows.new ≡ placed_all ArrayList (items rows.old) (coming spot added.now)) }
    ensures few { OnOk result (length rows.new ≤ length rows.old + room) }
    ensures err { OnErr result (items rows.new ≡ items rows.old) }
    ensures cause { IfErr result (λ why. ((why ≡ refusals.Limit) × (length rows.old + room < length (placed_all ArrayList (items rows.old) (coming spot added.now)))) ⊎ (why ≡ refusals.NoMemory)) }
{
    if added.len() > room {
        return Err(Refusal::Limit);
    }
    let from = index_of(spot, rows.len());
    let behind = rows.len() - from;
    for row in added {
        if place_item(rows, spot, key_of(row), steps).is_err() {
            let to = rows.len() - behind;
            remove_run(rows, from, to, steps);
            return Err(Refusal::NoMemory);
        }
    }
    Ok(())
}
