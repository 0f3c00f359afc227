//! Each public call of a sorted table once.
ghost use Rattle.std.specs.Prelude.{◌≡◌, ◌<◌};

use crate::TreeCells;
use elem::{Cut, Elem, NoMemory, Steps, Window};
use std::alloc::Global;
use std::marker::Brand;
use std::sync::ledger::{Blank, Ledger};
use std::test::Fail;

/// What a small table tells.
#[derive(Drop)]
struct Summary {
    before: Option<Elem>,
    rows: (Option<Elem>, Option<Elem>),
    beside: (Option<Elem>, Option<Elem>),
    cut: (Option<Elem>, Option<Elem>),
    in_row: (Option<Elem>, Option<Elem>),
    columns: (Option<Elem>, Option<Elem>),
    row_in_column: Option<Elem>,
    lens: (usize, usize),
    value: Option<Elem>,
    removed: usize,
    gone: usize,
    len: usize,
}

/// 2 has 11, 1 has 11 and 10; the value at 1 and 10 is put twice, then column 11 goes and row 1.
fn told<L: Ledger>(alloc: Global, blank: Blank) -> Result<Summary, NoMemory>
    requires name { blank.name ≡ L.name }
    requires parts { blank.parts ≡ L.parts }
    requires some { 0 < blank.parts }
{
    let mut steps = Steps::<L>::new(blank);
    let mut t = TreeCells::new(alloc)?;
    t.put(Elem::Int(2), Elem::Int(11), Elem::Int(200), &mut steps)?;
    t.put(Elem::Int(1), Elem::Int(11), Elem::Int(100), &mut steps)?;
    t.put(Elem::Int(1), Elem::Int(10), Elem::Int(101), &mut steps)?;
    let before = t.put(Elem::Int(1), Elem::Int(10), Elem::Int(102), &mut steps)?;
    let rows = (t.first_row(&mut steps), t.last_row(&mut steps));
    let beside = (
        t.after_row(Elem::Int(1), &mut steps),
        t.before_row(Elem::Int(1), &mut steps),
    );
    let above = Cut::Above(Elem::Int(1));
    let cut = (
        t.first_row_from(&above, &mut steps),
        t.last_row_to(&above, &mut steps),
    );
    let middle = Cut::Below(Elem::Int(11));
    let in_row = (
        t.first_in_row_from(Elem::Int(1), &middle, &mut steps),
        t.last_in_row_to(Elem::Int(1), &middle, &mut steps),
    );
    let columns = (
        t.first_column(&mut steps),
        t.after_column(Elem::Int(10), &mut steps),
    );
    let row_in_column = t.first_in_column(Elem::Int(11), &mut steps);
    let lens = (
        t.row_len(Elem::Int(1), &mut steps),
        t.column_len(Elem::Int(11), &mut steps),
    );
    let value = t.get(Elem::Int(1), Elem::Int(10), &mut steps);
    let removed = t.remove_column(Elem::Int(11), &mut steps);
    let gone = t.remove_row(Elem::Int(1), &mut steps);
    Ok(Summary {
        before,
        rows,
        beside,
        cut,
        in_row,
        columns,
        row_in_column,
        lens,
        value,
        removed,
        gone,
        len: t.len(),
    })
}

/// A table of 2 and 11, 1 and 11, and 1 and 10: the first cell and the one after 1 and 11.
fn whole<L: Ledger>(
    alloc: Global,
    blank: Blank,
) -> Result<[Option<(Elem, Elem, Elem)>; 2], NoMemory>
    requires name { blank.name ≡ L.name }
    requires parts { blank.parts ≡ L.parts }
    requires some { 0 < blank.parts }
{
    let mut steps = Steps::<L>::new(blank);
    let t = three(alloc, &mut steps)?;
    if t.get(Elem::Int(1), Elem::Int(11), &mut steps).is_none() {
        return Ok([None; 2]);
    }
    let first = t.first_whole_cell(&mut steps);
    let after = t.whole_cell_after(Elem::Int(1), Elem::Int(11), &mut steps);
    Ok([first, after])
}

/// A table of 2 and 11, 1 and 11, and 1 and 10.
fn three<L: Ledger>(alloc: Global, steps: &mut Steps<L>) -> Result<TreeCells, NoMemory> {
    let mut t = TreeCells::new(alloc)?;
    t.put(Elem::Int(2), Elem::Int(11), Elem::Int(200), steps)?;
    t.put(Elem::Int(1), Elem::Int(11), Elem::Int(100), steps)?;
    t.put(Elem::Int(1), Elem::Int(10), Elem::Int(101), steps)?;
    Ok(t)
}

/// The ends of row 1 and of column 11, the cells beside 1 and 11 in both, and the ends of row 1 above 10.
fn entries<L: Ledger>(alloc: Global, blank: Blank) -> Result<[Option<(Elem, Elem)>; 10], NoMemory>
    requires name { blank.name ≡ L.name }
    requires parts { blank.parts ≡ L.parts }
    requires some { 0 < blank.parts }
{
    let mut steps = Steps::<L>::new(blank);
    let t = three(alloc, &mut steps)?;
    let behind = Window {
        lo: Cut::Above(Elem::Int(10)),
        hi: Cut::End,
    };
    if t.get(Elem::Int(1), Elem::Int(11), &mut steps).is_none() {
        return Ok([None; 10]);
    }
    Ok([
        t.first_entry_in_row(Elem::Int(1), &mut steps),
        t.last_entry_in_row(Elem::Int(1), &mut steps),
        t.entry_after_in_row(Elem::Int(1), Elem::Int(11), &mut steps),
        t.entry_before_in_row(Elem::Int(1), Elem::Int(11), &mut steps),
        t.first_entry_in_column(Elem::Int(11), &mut steps),
        t.last_entry_in_column(Elem::Int(11), &mut steps),
        t.entry_after_in_column(Elem::Int(11), Elem::Int(1), &mut steps),
        t.entry_before_in_column(Elem::Int(11), Elem::Int(1), &mut steps),
        t.first_entry_in_row_in(Elem::Int(1), &behind, &mut steps),
        t.last_entry_in_row_in(Elem::Int(1), &behind, &mut steps),
    ])
}

#[test]
fn sorted_cells_are_put_and_go(rt: HostRuntime) -> Result<(), Fail> {
    let told = told::<Brand>(rt.alloc(), Blank::new(1))
        .ok()
        .ok_or("memory")?;
    assert_eq!(rt; told.before, Some(Elem::Int(101)));
    assert_eq!(rt; told.rows, (Some(Elem::Int(1)), Some(Elem::Int(2))));
    assert_eq!(rt; told.beside, (Some(Elem::Int(2)), None));
    assert_eq!(rt; told.cut, (Some(Elem::Int(2)), Some(Elem::Int(1))));
    assert_eq!(rt; told.in_row, (Some(Elem::Int(11)), Some(Elem::Int(10))));
    assert_eq!(rt; told.columns, (Some(Elem::Int(10)), Some(Elem::Int(11))));
    assert_eq!(rt; told.row_in_column, Some(Elem::Int(1)));
    assert_eq!(rt; told.lens, (2, 2));
    assert_eq!(rt; told.value, Some(Elem::Int(102)));
    assert_eq!(rt; told.removed, 2);
    assert_eq!(rt; told.gone, 1);
    assert_eq!(rt; told.len, 0);
    Ok(())
}

#[test]
fn sorted_cells_come_with_their_values(rt: HostRuntime) -> Result<(), Fail> {
    let cells = whole::<Brand>(rt.alloc(), Blank::new(1))
        .ok()
        .ok_or("memory")?;
    assert_eq!(rt;
        cells[0],
        Some((Elem::Int(1), Elem::Int(10), Elem::Int(101)))
    );
    assert_eq!(rt;
        cells[1],
        Some((Elem::Int(2), Elem::Int(11), Elem::Int(200)))
    );
    Ok(())
}

#[test]
fn sorted_entries_come_with_their_values(rt: HostRuntime) -> Result<(), Fail> {
    let entries = entries::<Brand>(rt.alloc(), Blank::new(1))
        .ok()
        .ok_or("memory")?;
    assert_eq!(rt; entries[0], Some((Elem::Int(10), Elem::Int(101))));
    assert_eq!(rt; entries[1], Some((Elem::Int(11), Elem::Int(100))));
    assert_eq!(rt; entries[2], None);
    assert_eq!(rt; entries[3], Some((Elem::Int(10), Elem::Int(101))));
    assert_eq!(rt; entries[4], Some((Elem::Int(1), Elem::Int(100))));
    assert_eq!(rt; entries[5], Some((Elem::Int(2), Elem::Int(200))));
    assert_eq!(rt; entries[6], Some((Elem::Int(2), Elem::Int(200))));
    assert_eq!(rt; entries[7], None);
    assert_eq!(rt; entries[8], Some((Elem::Int(11), Elem::Int(100))));
    assert_eq!(rt; entries[9], Some((Elem::Int(11), Elem::Int(100))));
    Ok(())
}
