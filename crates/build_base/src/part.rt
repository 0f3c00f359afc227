ghost use Rattle.std.specs.Prelude.{◌≡◌};
ghost use Rattle.build_base.specs.Rows.{key_of, first_of, second_of};

use crate::Row;
use elem::Elem;

/// By which of its elements a row is told from others.
#[derive(Clone, Copy, Debug)]
pub enum Part {
    /// The element of a list, set or multiset, the key of a pair, the row of a cell.
    First,
    /// The value of a pair, the column of a cell.
    Second,
    /// Both.
    Both,
}

/// The first element of a row.
pub fn first_of(row: &Row) -> Elem
    ensures { result ≡ first_of row.now }
{
    match row {
        Row::One(x) => *x,
        Row::Counted(x, _) => *x,
        Row::Pair(x, _) => *x,
        Row::Cell(x, _, _) => *x,
        Row::Edge(x, _, _) => *x,
        _ => Elem::Int(0),
    }
}

/// The second element of a row.
pub fn second_of(row: &Row) -> Elem
    ensures { result ≡ second_of row.now }
{
    match row {
        Row::Pair(_, y) => *y,
        Row::Cell(_, y, _) => *y,
        Row::Edge(_, y, _) => *y,
        _ => Elem::Int(0),
    }
}

/// The elements by which a row is told from others.
pub fn key_of(row: &Row, part: &Part) -> (Elem, Elem)
    ensures { result ≡ key_of part.now row.now }
{
    match part {
        Part::First => (first_of(row), first_of(row)),
        Part::Second => (second_of(row), second_of(row)),
        Part::Both => (first_of(row), second_of(row)),
    }
}
