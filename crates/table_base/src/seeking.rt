//! Walks along the thread through all cells, to a cell that is sought.
ghost use Rattle.std.specs.Prelude.{◌≡◌, ℕ, ◌≤◌, List, ◌++◌, length, Option, Some, None};
ghost use Rattle.std.specs.List.{filter};
ghost use Rattle.slab.specs.Slab.{ContainsKey, slab_len};
ghost use Rattle.elem.specs.declared.elements.Elem.{Elem as Key};
ghost use Rattle.linked_base.specs.declared.links.Ends.{Ends as TheEnds};
ghost use Rattle.linked_base.specs.Thread.{head_or, last_or, IsThread, links_at};
ghost use Rattle.linked_base.specs.Group.{of_key, IsGroup};
ghost use Rattle.table_base.specs.declared.sides.Side.TheVariants.{Row, Column};
ghost use Rattle.table_base.specs.CellNodes.{all_links, links, key_at, IsSpotFor};
ghost use Rattle.table_base.specs.Seeking.{passes, passes_at};

use crate::cell_nodes::CellNode;
use crate::sides::Side;
use elem::{Elem, same};
use linked_base::group::Group;
use slab::Slab;

/// What a cell is sought for: that it is of a column, or that it is the first of its row or its column.
#[derive(Clone, Copy)]
pub enum Sought {
    OfColumn(Elem),
    First(Side),
}

/// Whether a node is one that is sought.
fn passes(node: &CellNode, sought: &Sought) -> bool
    ensures { result ≡ passes sought.now node.now }
{
    match sought {
        Sought::OfColumn(column) => same(column, &node.column),
        Sought::First(Side::Row) => node.in_row.previous.is_none(),
        Sought::First(Side::Column) => node.in_column.previous.is_none(),
    }
}

/// The first place of a sought cell from `from` on.
pub fn next_sought(nodes: &Slab<CellNode>, from: Option<usize>, sought: &Sought) -> Option<usize>
    ensures there { (p : ℕ) → result ≡ Some p → ContainsKey nodes.now p }
    ensures found { (us vs : List ℕ) (all : TheEnds) → from ≡ head_or None vs → IsThread (links_at all_links nodes.now) all (us ++ vs) → length vs ≤ slab_len nodes.now → result ≡ head_or None (filter (passes_at sought.now nodes.now) vs) }
{
    let mut at = from;
    for _step in 0..nodes.len() {
        let Some(place) = at else {
            return None;
        };
        let Some(node) = nodes.get(place) else {
            return None;
        };
        if passes(node, sought) {
            return Some(place);
        }
        at = node.all.next;
    }
    None
}

/// The last place of a sought cell up to `from`.
pub fn previous_sought(
    nodes: &Slab<CellNode>,
    from: Option<usize>,
    sought: &Sought,
) -> Option<usize>
    ensures there { (p : ℕ) → result ≡ Some p → ContainsKey nodes.now p }
    ensures found { (us vs : List ℕ) (all : TheEnds) → from ≡ last_or None us → IsThread (links_at all_links nodes.now) all (us ++ vs) → length us ≤ slab_len nodes.now → result ≡ last_or None (filter (passes_at sought.now nodes.now) us) }
{
    let mut at = from;
    for _step in 0..nodes.len() {
        let Some(place) = at else {
            return None;
        };
        let Some(node) = nodes.get(place) else {
            return None;
        };
        if passes(node, sought) {
            return Some(place);
        }
        at = node.all.previous;
    }
    None
}

/// Where a new cell of a row goes in the thread of all: before the place behind the row's last cell, or last of all where
/// there is none or the cells are loose.
pub fn place_behind(nodes: &Slab<CellNode>, in_row: &Group, loose: bool) -> Option<usize>
    ensures { (ps : List ℕ) (all : TheEnds) (r : Key) → IsThread (links_at all_links nodes.now) all ps → IsGroup (links_at (links Row) nodes.now) in_row.now (of_key (key_at Row nodes.now) r ps) → IsSpotFor nodes.now loose r ps result }
{
    if loose {
        return None;
    }
    let Some(place) = in_row.ends.last else {
        return None;
    };
    let Some(node) = nodes.get(place) else {
        return None;
    };
    node.all.next
}

/// The first place of a column from `from` on. A column with no cell, and the end of the thread, take no walk.
pub fn place_in_column(
    nodes: &Slab<CellNode>,
    in_column: &Group,
    from: Option<usize>,
    c: &Elem,
) -> Option<usize>
    ensures { (us vs : List ℕ) (all : TheEnds) → from ≡ head_or None vs → IsThread (links_at all_links nodes.now) all (us ++ vs) → length vs ≤ slab_len nodes.now → IsGroup (links_at (links Column) nodes.now) in_column.now (of_key (key_at Column nodes.now) c.now (us ++ vs)) → result ≡ head_or None (of_key (key_at Column nodes.now) c.now vs) }
{
    if in_column.count == 0 {
        return None;
    }
    let Some(place) = from else {
        return None;
    };
    let Some(node) = nodes.get(place) else {
        return None;
    };
    next_of_column(nodes, in_column, from, node.all.previous, c)
}

/// The first place of a column from `from` on, sought both ways along the thread of all: from `from` on for the cell, and
/// from `before` back for the one that it follows in the column.
fn next_of_column(
    nodes: &Slab<CellNode>,
    in_column: &Group,
    from: Option<usize>,
    before: Option<usize>,
    c: &Elem,
) -> Option<usize>
    ensures { (us vs : List ℕ) (all : TheEnds) → from ≡ head_or None vs → before ≡ last_or None us → IsThread (links_at all_links nodes.now) all (us ++ vs) → length vs ≤ slab_len nodes.now → IsGroup (links_at (links Column) nodes.now) in_column.now (of_key (key_at Column nodes.now) c.now (us ++ vs)) → result ≡ head_or None (of_key (key_at Column nodes.now) c.now vs) }
{
    let sought = Sought::OfColumn(*c);
    let mut ahead = from;
    let mut behind = before;
    for _step in 0..nodes.len() {
        let Some(next) = ahead else {
            return None;
        };
        let Some(later) = nodes.get(next) else {
            return None;
        };
        if passes(later, &sought) {
            return Some(next);
        }
        let Some(previous) = behind else {
            return in_column.ends.first;
        };
        let Some(earlier) = nodes.get(previous) else {
            return None;
        };
        if passes(earlier, &sought) {
            return earlier.in_column.next;
        }
        ahead = later.all.next;
        behind = earlier.all.previous;
    }
    None
}
