//! Rows that are alike in their first elements, brought together.
ghost use Rattle.std.specs.Prelude.{◌≡◌, ◌≢◌, ◌<◌, ◌++◌, ◌∷◌, ◌&&◌, [], cond, map, length, is_none, Some, Err, IfOk, IfSome, OnOk};
ghost use Rattle.std.specs.HashMap as hash;
ghost use Rattle.elem.specs.declared.elements.Elem.{Elem as Element};
ghost use Rattle.elem.specs.Elements.{same};
ghost use Rattle.build_base.specs.declared.part.Part.TheVariants.{First, Both};
ghost use Rattle.build_base.specs.Rows.{alike, first_of};
ghost use Rattle.build_base.specs.Kept.{firsts, grouped, groups_of, with_row};

use crate::firsts::{firsts, push};
use crate::part::{Part, first_of};
use crate::{BuildFault, Row};
use elem::Elem;
use std::alloc::Global;
use std::collections::HashMap;

/// Those that are alike together, in the order of the first of each.
pub fn grouped(alloc: Global, rows: &[Row]) -> Result<Vec<Row>, BuildFault>
    ensures rows { IfOk result (λ found. found.items ≡ grouped (alike First) rows.now) }
    ensures never { result ≢ Err BuildFault.Refused }
{
    let groups = groups(alloc, rows)?;
    let mut found = Vec::new(alloc);
    for group in &groups {
        append(&mut found, group)?;
    }
    Ok(found)
}

/// Appends rows.
fn append(found: &mut Vec<Row>, rows: &[Row]) -> Result<(), BuildFault>
    ensures rows { OnOk result (found.new.items ≡ found.old.items ++ rows.now) }
    ensures never { result ≢ Err BuildFault.Refused }
{
    match found.extend_from_slice(rows) {
        Ok(()) => Ok(()),
        Err(_) => Err(BuildFault::NoMemory),
    }
}

/// The rows of each key, in the order of the first of each.
fn groups(alloc: Global, rows: &[Row]) -> Result<Vec<Vec<Row>>, BuildFault>
    ensures groups { IfOk result (λ groups. map (λ group. group.items) groups.items ≡ groups_of (alike First) rows.now) }
    ensures never { result ≢ Err BuildFault.Refused }
{
    let mut places = HashMap::new(alloc);
    let mut groups = Vec::new(alloc);
    for row in rows {
        put_row(alloc, &mut places, &mut groups, row)?;
    }
    Ok(groups)
}

/// Puts a row last in the group of its key, or in a new group.
fn put_row(
    alloc: Global,
    places: &mut HashMap<Elem, usize>,
    groups: &mut Vec<Vec<Row>>,
    row: &Row,
) -> Result<(), BuildFault>
    requires { (q : Element) → IfSome (hash.get same places.old q) (λ j. j < length groups.old.items) }
    ensures groups { OnOk result (map (λ group. group.items) groups.new.items ≡ with_row (hash.get same places.old (first_of row.now)) row.now (map (λ group. group.items) groups.old.items)) }
    ensures places { OnOk result ((q : Element) → hash.get same places.new q ≡ cond (is_none (hash.get same places.old (first_of row.now)) && same (first_of row.now) q) (Some (length groups.old.items)) (hash.get same places.old q)) }
    ensures never { result ≢ Err BuildFault.Refused }
{
    match places.get(&first_of(row)).copied() {
        Some(place) => push(&mut groups[place], row),
        None => push_group(alloc, places, groups, row),
    }
}

/// Puts a row in a new group.
fn push_group(
    alloc: Global,
    places: &mut HashMap<Elem, usize>,
    groups: &mut Vec<Vec<Row>>,
    row: &Row,
) -> Result<(), BuildFault>
    ensures groups { OnOk result (map (λ group. group.items) groups.new.items ≡ map (λ group. group.items) groups.old.items ++ (row.now ∷ []) ∷ []) }
    ensures places { OnOk result ((q : Element) → hash.get same places.new q ≡ cond (same (first_of row.now) q) (Some (length groups.old.items)) (hash.get same places.old q)) }
    ensures never { result ≢ Err BuildFault.Refused }
{
    let mut group = Vec::new(alloc);
    push(&mut group, row)?;
    if places.reserve(1).is_err() || groups.reserve(1).is_err() {
        return Err(BuildFault::NoMemory);
    }
    let _before = places.insert(first_of(row), groups.len());
    groups.push_reserved(group);
    Ok(())
}

/// Those that are alike together, of equal ones the first.
pub fn grouped_once(alloc: Global, rows: &[Row]) -> Result<Vec<Row>, BuildFault>
    ensures rows { IfOk result (λ found. found.items ≡ firsts (alike Both) (grouped (alike First) rows.now)) }
    ensures never { result ≢ Err BuildFault.Refused }
{
    let found = grouped(alloc, rows)?;
    firsts(alloc, &found, &Part::Both)
}
