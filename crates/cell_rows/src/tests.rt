//! Each call once, on a table of both kinds.
ghost use Rattle.std.specs.Prelude.{◌≡◌, ◌<◌, true};
ghost use Rattle.cell_rows.specs.CellRows.{kind_of, IsCell};
ghost use Rattle.cell_rows.specs.Serving.{ServesCells};
ghost use Rattle.vocabulary.specs.Kinds.{shape_of_kind};
ghost use Rattle.vocabulary.specs.Shapes.{is_table};
ghost use Rattle.vocabulary.specs.declared.kinds.Kind.{Kind as AKind};

use crate::{CellRows, Reach, RowTest, SpottedRow};
use elem::{Elem, NoMemory, Steps};
use std::alloc::Global;
use std::marker::Brand;
use std::sync::ledger::{Blank, Ledger};
use std::test::Fail;
use view_laws::{Lane, PartAsk, Pick};
use vocabulary::{Item, Kind, Side, value_of};

/// What a small table tells.
#[derive(Drop)]
struct Summary {
    is_new: (bool, bool),
    is_refused: bool,
    value: Option<Elem>,
    ends: (Option<Elem>, Option<Elem>),
    ends_of_row: (Option<Elem>, Option<Elem>),
    ends_of_column: (Option<Elem>, Option<Elem>),
    lens: [usize; 3],
}

/// That every row passes.
struct Each;

impl RowTest for Each {
    ghost use Rattle.std.specs.Prelude.{true};

    ghost passes = { λ test row. true };

    fn test(&self, item: &Item) -> bool {
        true
    }
}

fn cell(r: i64, c: i64, v: i64) -> Item
    ensures { IsCell result }
{
    Item::Cell(Elem::Int(r), Elem::Int(c), Elem::Int(v))
}

/// The lane of all cells, of those of a row, or of those of a column.
fn lane_in(side: Option<Side>, x: i64) -> Lane
    ensures { (kind : AKind) → ServesCells kind result }
{
    let pick = Pick::Each;
    let x = Elem::Int(x);
    match side {
        None => Lane {
            first: PartAsk::Any,
            second: PartAsk::Any,
            pick,
        },
        Some(Side::First) => Lane {
            first: PartAsk::Is(x),
            second: PartAsk::Any,
            pick,
        },
        Some(Side::Second) => Lane {
            first: PartAsk::Any,
            second: PartAsk::Is(x),
            pick,
        },
    }
}

/// The values of the first and the last row in a lane.
fn ends<L: Ledger>(
    table: &CellRows,
    lane: &Lane,
    steps: &mut Steps<L>,
) -> (Option<Elem>, Option<Elem>)
    requires { ServesCells (kind_of table.now) lane.now }
{
    let first = table.next_row(lane, false, &None, steps);
    let last = table.next_row(lane, true, &None, steps);
    (value_in(first), value_in(last))
}

fn value_in(found: Option<SpottedRow>) -> Option<Elem> {
    match found {
        Some(found) => Some(value_of(&found.row)),
        None => None,
    }
}

/// 2 has 11, 1 has 11 and 10; the value at 1 and 10 is put twice, then row 1 goes, and what is left.
fn told<L: Ledger>(alloc: Global, blank: Blank, kind: Kind) -> Result<Summary, NoMemory>
    requires name { blank.name ≡ L.name }
    requires parts { blank.parts ≡ L.parts }
    requires some { 0 < blank.parts }
    requires table { is_table (shape_of_kind kind) ≡ true }
{
    let mut steps = Steps::<L>::new(blank);
    let mut table = CellRows::new(alloc, kind)?;
    let cells = [cell(2, 11, 200), cell(1, 11, 100), cell(1, 10, 101)];
    if table.place_all(alloc, &cells, 3, &mut steps).is_err() {
        return Err(NoMemory);
    }
    let in_place = table.place(&cell(1, 10, 102), &mut steps)?;
    let is_new = (in_place, table.place(&cell(3, 3, 3), &mut steps)?);
    let is_refused = table
        .place_all(alloc, &[cell(1, 1, 1)], 0, &mut steps)
        .is_err();
    let value = match table.row_of_cell(&Elem::Int(1), &Elem::Int(10), &mut steps) {
        Some(row) => Some(value_of(&row)),
        None => None,
    };
    let row = lane_in(Some(Side::First), 1);
    let ends = (
        ends(&table, &lane_in(None, 0), &mut steps),
        ends(&table, &row, &mut steps),
        ends(&table, &lane_in(Some(Side::Second), 11), &mut steps),
    );
    let len = table.len();
    table.drop_along(&row, &Each, &mut steps);
    let without_row = table.len();
    table.drop_all(Reach::Whole, &Each, &mut steps);
    Ok(Summary {
        is_new,
        is_refused,
        value,
        ends: ends.0,
        ends_of_row: ends.1,
        ends_of_column: ends.2,
        lens: [len, without_row, table.len()],
    })
}

#[test]
fn linked_cells_go_in_the_order_of_their_rows(rt: HostRuntime) -> Result<(), Fail> {
    let told = told::<Brand>(rt.alloc(), Blank::new(1), Kind::LinkedTable)
        .ok()
        .ok_or("memory")?;
    assert_eq!(rt; told.is_new, (false, true));
    assert_eq!(rt; told.is_refused, true);
    assert_eq!(rt; told.value, Some(Elem::Int(102)));
    assert_eq!(rt; told.ends, (Some(Elem::Int(200)), Some(Elem::Int(3))));
    assert_eq!(rt;
        told.ends_of_row,
        (Some(Elem::Int(100)), Some(Elem::Int(102)))
    );
    assert_eq!(rt;
        told.ends_of_column,
        (Some(Elem::Int(200)), Some(Elem::Int(100)))
    );
    assert_eq!(rt; told.lens, [4, 2, 0]);
    Ok(())
}

#[test]
fn sorted_cells_go_in_the_natural_order(rt: HostRuntime) -> Result<(), Fail> {
    let told = told::<Brand>(rt.alloc(), Blank::new(1), Kind::TreeBasedTable)
        .ok()
        .ok_or("memory")?;
    assert_eq!(rt; told.is_new, (false, true));
    assert_eq!(rt; told.is_refused, true);
    assert_eq!(rt; told.value, Some(Elem::Int(102)));
    assert_eq!(rt; told.ends, (Some(Elem::Int(102)), Some(Elem::Int(3))));
    assert_eq!(rt;
        told.ends_of_row,
        (Some(Elem::Int(102)), Some(Elem::Int(100)))
    );
    assert_eq!(rt;
        told.ends_of_column,
        (Some(Elem::Int(100)), Some(Elem::Int(200)))
    );
    assert_eq!(rt; told.lens, [4, 2, 0]);
    Ok(())
}
