//! The first or the last of rows that are alike in a part.
ghost use Rattle.std.specs.Prelude.{◌≡◌, ◌≢◌, ◌∷◌, ◌++◌, [], true, false, cond, reverse, length, nat_lt, Err, IfOk, OnOk};
ghost use Rattle.std.specs.HashSet.{contains};
ghost use Rattle.elem.specs.declared.elements.Elem.{Elem as Element};
ghost use Rattle.build_base.specs.Rows.{alike, key_of, same_key};
ghost use Rattle.build_base.specs.Kept.{firsts, lasts, has_twice};

use crate::part::{Part, key_of};
use crate::{BuildFault, Row};
use elem::Elem;
use std::alloc::Global;
use std::collections::HashSet;

/// The first of the rows that are alike, in their order.
pub fn firsts(alloc: Global, rows: &[Row], part: &Part) -> Result<Vec<Row>, BuildFault>
    ensures kept { IfOk result (λ kept. kept.items ≡ firsts (alike part.now) rows.now) }
    ensures never { result ≢ Err BuildFault.Refused }
{
    let mut seen = HashSet::new(alloc);
    let mut kept = Vec::new(alloc);
    for row in rows {
        keep_new(&mut seen, &mut kept, row, part)?;
    }
    Ok(kept)
}

/// Keeps a row whose key was not seen, and sees its key.
fn keep_new(
    seen: &mut HashSet<(Elem, Elem)>,
    kept: &mut Vec<Row>,
    row: &Row,
    part: &Part,
) -> Result<(), BuildFault>
    ensures kept { OnOk result (kept.new.items ≡ cond (contains same_key seen.old (key_of part.now row.now)) kept.old.items (kept.old.items ++ row.now ∷ [])) }
    ensures seen { OnOk result ((q : Element × Element) → contains same_key seen.new q ≡ cond (same_key (key_of part.now row.now) q) true (contains same_key seen.old q)) }
    ensures never { result ≢ Err BuildFault.Refused }
{
    match seen.insert(key_of(row, part)) {
        Ok(true) => push(kept, row),
        Ok(false) => Ok(()),
        Err(_) => Err(BuildFault::NoMemory),
    }
}

/// Appends an item.
pub fn push<T: Copy>(items: &mut Vec<T>, item: &T) -> Result<(), BuildFault>
    ensures ok { OnOk result (items.new.items ≡ items.old.items ++ item.now ∷ []) }
    ensures never { result ≢ Err BuildFault.Refused }
{
    if items.reserve(1).is_err() {
        return Err(BuildFault::NoMemory);
    }
    items.push_reserved(*item);
    Ok(())
}

/// The rows once more.
pub fn copied(alloc: Global, rows: &[Row]) -> Result<Vec<Row>, BuildFault>
    ensures rows { IfOk result (λ kept. kept.items ≡ rows.now) }
    ensures never { result ≢ Err BuildFault.Refused }
{
    let mut kept = Vec::new(alloc);
    match kept.extend_from_slice(rows) {
        Ok(()) => Ok(kept),
        Err(_) => Err(BuildFault::NoMemory),
    }
}

/// The rows once more, in the other order.
fn turned(alloc: Global, rows: &[Row]) -> Result<Vec<Row>, BuildFault>
    ensures rows { IfOk result (λ kept. kept.items ≡ reverse rows.now) }
    ensures never { result ≢ Err BuildFault.Refused }
{
    let mut kept = copied(alloc, rows)?;
    kept.reverse();
    Ok(kept)
}

/// The last of the rows that are alike, in their order.
pub fn lasts(alloc: Global, rows: &[Row], part: &Part) -> Result<Vec<Row>, BuildFault>
    ensures kept { IfOk result (λ kept. kept.items ≡ lasts (alike part.now) rows.now) }
    ensures never { result ≢ Err BuildFault.Refused }
{
    let turned = turned(alloc, rows)?;
    let mut kept = firsts(alloc, &turned, part)?;
    kept.reverse();
    Ok(kept)
}

/// The rows once more, where no two are alike.
pub fn once(alloc: Global, rows: &[Row], part: &Part) -> Result<Vec<Row>, BuildFault>
    ensures rows { IfOk result (λ kept. kept.items ≡ rows.now) }
    ensures allowed { OnOk result (has_twice (alike part.now) rows.now ≡ false) }
    ensures refused { result ≡ Err BuildFault.Refused → has_twice (alike part.now) rows.now ≡ true }
{
    let kept = firsts(alloc, rows, part)?;
    let twice = is_shorter(&kept, rows);
    if twice {
        return Err(BuildFault::Refused);
    }
    Ok(kept)
}

fn is_shorter(kept: &Vec<Row>, rows: &[Row]) -> bool
    ensures { result ≡ nat_lt (length kept.now.items) (length rows.now) }
{
    kept.len() < rows.len()
}
