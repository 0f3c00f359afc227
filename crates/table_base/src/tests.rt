//! Each public call once.
ghost use Rattle.std.specs.Prelude.{◌≡◌, ◌<◌};

use crate::LinkedCells;
use elem::{Elem, NoMemory, Steps};
use std::alloc::Global;
use std::marker::Brand;
use std::sync::ledger::{Blank, Ledger};
use std::test::Fail;

/// What a small table tells.
#[derive(Drop)]
struct Summary {
    before: Option<Elem>,
    first_row: Option<Elem>,
    first_column: Option<Elem>,
    column_in_row: Option<Elem>,
    row_in_column: Option<Elem>,
    row_len: usize,
    column_len: usize,
    value: Option<Elem>,
    removed: usize,
    len: usize,
}

/// 1 has 10 and 11, 2 has 10; the value at 1 and 10 is put twice, and column 10 goes at last.
fn told<L: Ledger>(alloc: Global, blank: Blank) -> Result<Summary, NoMemory>
    requires name { blank.name ≡ L.name }
    requires parts { blank.parts ≡ L.parts }
    requires some { 0 < blank.parts }
{
    let mut steps = Steps::<L>::new(blank);
    let mut t = LinkedCells::new(alloc)?;
    t.put(Elem::Int(1), Elem::Int(10), Elem::Int(100), &mut steps)?;
    t.put(Elem::Int(2), Elem::Int(10), Elem::Int(200), &mut steps)?;
    t.put(Elem::Int(1), Elem::Int(11), Elem::Int(101), &mut steps)?;
    let before = t.put(Elem::Int(1), Elem::Int(10), Elem::Int(102), &mut steps)?;
    let first_row = t.first_row(&mut steps);
    let first_column = t.first_column(&mut steps);
    let column_in_row = t.first_in_row(Elem::Int(1), &mut steps);
    let row_in_column = t.first_in_column(Elem::Int(11), &mut steps);
    let row_len = t.row_len(Elem::Int(1), &mut steps);
    let column_len = t.column_len(Elem::Int(10), &mut steps);
    let value = t.get(Elem::Int(1), Elem::Int(10), &mut steps);
    let removed = t.remove_column(Elem::Int(10), &mut steps);
    Ok(Summary {
        before,
        first_row,
        first_column,
        column_in_row,
        row_in_column,
        row_len,
        column_len,
        value,
        removed,
        len: t.len(),
    })
}

/// A loose table of 1 and 10, 2 and 10, and 1 and 11: the first cell, the value at 2 and 10 when it goes, the cells of
/// row 1 when it goes, and the number of cells after a clear.
fn loose<L: Ledger>(
    alloc: Global,
    blank: Blank,
) -> Result<(Option<(Elem, Elem)>, Option<Elem>, usize, usize), NoMemory>
    requires name { blank.name ≡ L.name }
    requires parts { blank.parts ≡ L.parts }
    requires some { 0 < blank.parts }
{
    let mut steps = Steps::<L>::new(blank);
    let mut t = LinkedCells::loose(alloc)?;
    t.put(Elem::Int(1), Elem::Int(10), Elem::Int(100), &mut steps)?;
    t.put(Elem::Int(2), Elem::Int(10), Elem::Int(200), &mut steps)?;
    t.put(Elem::Int(1), Elem::Int(11), Elem::Int(101), &mut steps)?;
    let first = t.first_cell(&mut steps);
    let value = t.remove(Elem::Int(2), Elem::Int(10), &mut steps);
    let removed = t.remove_row(Elem::Int(1), &mut steps);
    t.put(Elem::Int(3), Elem::Int(10), Elem::Int(300), &mut steps)?;
    t.clear();
    Ok((first, value, removed, t.len()))
}

/// A table of 1 and 10, 2 and 10, and 1 and 11.
fn three<L: Ledger>(alloc: Global, steps: &mut Steps<L>) -> Result<LinkedCells, NoMemory> {
    let mut t = LinkedCells::new(alloc)?;
    t.put(Elem::Int(1), Elem::Int(10), Elem::Int(100), steps)?;
    t.put(Elem::Int(2), Elem::Int(10), Elem::Int(200), steps)?;
    t.put(Elem::Int(1), Elem::Int(11), Elem::Int(101), steps)?;
    Ok(t)
}

/// The first cell, the last, and those beside 1 and 11.
fn whole<L: Ledger>(
    alloc: Global,
    blank: Blank,
) -> Result<[Option<(Elem, Elem, Elem)>; 4], NoMemory>
    requires name { blank.name ≡ L.name }
    requires parts { blank.parts ≡ L.parts }
    requires some { 0 < blank.parts }
{
    let mut steps = Steps::<L>::new(blank);
    let t = three(alloc, &mut steps)?;
    if t.get(Elem::Int(1), Elem::Int(11), &mut steps).is_none() {
        return Ok([None; 4]);
    }
    let first = t.first_whole_cell(&mut steps);
    let last = t.last_whole_cell(&mut steps);
    let before = t.whole_cell_before(Elem::Int(1), Elem::Int(11), &mut steps);
    let after = t.whole_cell_after(Elem::Int(1), Elem::Int(11), &mut steps);
    Ok([first, last, before, after])
}

/// The ends of row 1 and of column 10, and the cells beside 1 and 10 in both.
fn entries<L: Ledger>(alloc: Global, blank: Blank) -> Result<[Option<(Elem, Elem)>; 8], NoMemory>
    requires name { blank.name ≡ L.name }
    requires parts { blank.parts ≡ L.parts }
    requires some { 0 < blank.parts }
{
    let mut steps = Steps::<L>::new(blank);
    let t = three(alloc, &mut steps)?;
    if t.get(Elem::Int(1), Elem::Int(10), &mut steps).is_none() {
        return Ok([None; 8]);
    }
    Ok([
        t.first_entry_in_row(Elem::Int(1), &mut steps),
        t.last_entry_in_row(Elem::Int(1), &mut steps),
        t.entry_after_in_row(Elem::Int(1), Elem::Int(10), &mut steps),
        t.entry_before_in_row(Elem::Int(1), Elem::Int(10), &mut steps),
        t.first_entry_in_column(Elem::Int(10), &mut steps),
        t.last_entry_in_column(Elem::Int(10), &mut steps),
        t.entry_after_in_column(Elem::Int(10), Elem::Int(1), &mut steps),
        t.entry_before_in_column(Elem::Int(10), Elem::Int(1), &mut steps),
    ])
}

#[test]
fn cells_are_put_and_go(rt: HostRuntime) -> Result<(), Fail> {
    let told = told::<Brand>(rt.alloc(), Blank::new(1))
        .ok()
        .ok_or("memory")?;
    assert_eq!(rt; told.before, Some(Elem::Int(100)));
    assert_eq!(rt; told.first_row, Some(Elem::Int(1)));
    assert_eq!(rt; told.first_column, Some(Elem::Int(10)));
    assert_eq!(rt; told.column_in_row, Some(Elem::Int(10)));
    assert_eq!(rt; told.row_in_column, Some(Elem::Int(1)));
    assert_eq!(rt; told.row_len, 2);
    assert_eq!(rt; told.column_len, 2);
    assert_eq!(rt; told.value, Some(Elem::Int(102)));
    assert_eq!(rt; told.removed, 2);
    assert_eq!(rt; told.len, 1);
    Ok(())
}

#[test]
fn loose_cells_are_put_and_go(rt: HostRuntime) -> Result<(), Fail> {
    let (first, value, removed, len) = loose::<Brand>(rt.alloc(), Blank::new(1))
        .ok()
        .ok_or("memory")?;
    assert_eq!(rt; first, Some((Elem::Int(1), Elem::Int(10))));
    assert_eq!(rt; value, Some(Elem::Int(200)));
    assert_eq!(rt; removed, 2);
    assert_eq!(rt; len, 0);
    Ok(())
}

#[test]
fn cells_come_with_their_values(rt: HostRuntime) -> Result<(), Fail> {
    let cells = whole::<Brand>(rt.alloc(), Blank::new(1))
        .ok()
        .ok_or("memory")?;
    assert_eq!(rt;
        cells[0],
        Some((Elem::Int(1), Elem::Int(10), Elem::Int(100)))
    );
    assert_eq!(rt;
        cells[1],
        Some((Elem::Int(2), Elem::Int(10), Elem::Int(200)))
    );
    assert_eq!(rt;
        cells[2],
        Some((Elem::Int(1), Elem::Int(10), Elem::Int(100)))
    );
    assert_eq!(rt;
        cells[3],
        Some((Elem::Int(2), Elem::Int(10), Elem::Int(200)))
    );
    Ok(())
}

#[test]
fn entries_come_with_their_values(rt: HostRuntime) -> Result<(), Fail> {
    let entries = entries::<Brand>(rt.alloc(), Blank::new(1))
        .ok()
        .ok_or("memory")?;
    assert_eq!(rt; entries[0], Some((Elem::Int(10), Elem::Int(100))));
    assert_eq!(rt; entries[1], Some((Elem::Int(11), Elem::Int(101))));
    assert_eq!(rt; entries[2], Some((Elem::Int(11), Elem::Int(101))));
    assert_eq!(rt; entries[3], None);
    assert_eq!(rt; entries[4], Some((Elem::Int(1), Elem::Int(100))));
    assert_eq!(rt; entries[5], Some((Elem::Int(2), Elem::Int(200))));
    assert_eq!(rt; entries[6], Some((Elem::Int(2), Elem::Int(200))));
    assert_eq!(rt; entries[7], None);
    Ok(())
}
