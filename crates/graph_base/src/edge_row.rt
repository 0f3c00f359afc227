ghost use Rattle.std.specs.Prelude.{◌≡◌, ℕ, ◌<◌, Option, Some, None, cond};
ghost use Rattle.std.specs.HashMap.{spare};
ghost use Rattle.std.specs.HashMap as hash;
ghost use Rattle.elem.specs.Elements.{same};
ghost use Rattle.elem.specs.Keyed.{IsPresent, with_value};
ghost use Rattle.graph_base.specs.Ends.{Ends, same_ends, ends};
ghost use Rattle.graph_base.specs.Numbers.{number};

use elem::{Elem, natural_order, same};
use hash_seed::SeededMap;
use linked_base::FreeLinkedMap;
use mm_base::PairId;

/// An edge, the ids of its halves, and the place that gave it its number. A loop has one half, its first.
#[derive(Clone, Copy)]
pub struct EdgeRow {
    pub from: Elem,
    pub to: Elem,
    pub value: Elem,
    pub first: PairId,
    pub second: PairId,
    pub place: usize,
}

/// The id of the half that an edge has at a node, which is one of its ends.
pub fn half_at(a: &Elem, row: &EdgeRow) -> PairId
    ensures { result ≡ cond (same a.now row.now.from) row.now.first row.now.second }
{
    if same(a, &row.from) {
        row.first
    } else {
        row.second
    }
}

/// Writes the value of the row of a number.
pub fn write_value(rows: &mut FreeLinkedMap<EdgeRow>, number: &Elem, row: &EdgeRow, v: &Elem)
    requires { IsPresent rows.old number.now }
    ensures { rows.new ≡ with_value rows.old number.now (record row.now { value = v.now }) }
{
    let changed = EdgeRow {
        from: row.from,
        to: row.to,
        value: *v,
        first: row.first,
        second: row.second,
        place: row.place,
    };
    rows.replace(*number, changed);
}

/// The number of a place.
pub fn number_of(place: usize) -> Elem
    ensures { result ≡ number place }
{
    if place < 9223372036854775808 {
        Elem::Int(place as i64)
    } else {
        let beyond = (place - 9223372036854775808) as i64;
        Elem::Int(-1 - beyond)
    }
}

/// The key of an edge's ends: one for both ways round where there are no directions.
pub fn key_of(directed: bool, a: &Elem, b: &Elem) -> (Elem, Elem)
    ensures { result ≡ ends directed a.now b.now }
{
    if !directed && natural_order(b, a).is_lt() {
        (*b, *a)
    } else {
        (*a, *b)
    }
}

/// The number of the edge between two nodes.
pub fn find_number(
    index: &SeededMap<(Elem, Elem), Elem>,
    directed: bool,
    a: &Elem,
    b: &Elem,
) -> Option<Elem>
    ensures { result ≡ hash.get same_ends index.now (ends directed a.now b.now) }
{
    index.get(&key_of(directed, a, b)).copied()
}

/// Gives the ends of an edge its number, for which there is room.
pub fn write_number(
    index: &mut SeededMap<(Elem, Elem), Elem>,
    directed: bool,
    a: &Elem,
    b: &Elem,
    number: &Elem,
)
    requires { 0 < spare index.old }
    ensures { (q : Ends) → hash.get same_ends index.new q ≡ cond (same_ends (ends directed a.now b.now) q) (Some number.now) (hash.get same_ends index.old q) }
{
    let _before = index.insert(key_of(directed, a, b), *number);
}

/// Takes the number of an edge out.
pub fn take_number(
    index: &mut SeededMap<(Elem, Elem), Elem>,
    directed: bool,
    a: &Elem,
    b: &Elem,
) -> Option<Elem>
    ensures number { result ≡ hash.get same_ends index.old (ends directed a.now b.now) }
    ensures updates { (q : Ends) → hash.get same_ends index.new q ≡ cond (same_ends (ends directed a.now b.now) q) None (hash.get same_ends index.old q) }
{
    index.remove(&key_of(directed, a, b))
}
