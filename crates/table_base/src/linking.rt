//! A cell put into its three threads, and one taken out.
ghost use Rattle.std.specs.Prelude.{◌≡◌, ◌≢◌, ℕ, ◌+◌, ◌<◌, ◌≤◌, List, [], ◌∷◌, ◌++◌, Option, Some, None};
ghost use Rattle.slab.specs.Slab.{get, ContainsKey, HasRoomFor, slab_len};
ghost use Rattle.elem.specs.declared.elements.Elem.{Elem as Key};
ghost use Rattle.linked_base.specs.declared.group.Group.{Group as TheGroup};
ghost use Rattle.linked_base.specs.Thread.{head_or};
ghost use Rattle.linked_base.specs.Group.{group_or_none, of_key};
ghost use Rattle.table_base.specs.declared.sides.Side.{Side};
ghost use Rattle.table_base.specs.declared.sides.Side.TheVariants.{Row, Column};
ghost use Rattle.table_base.specs.CellNodes.{key_at, cell, cell_at, the_node, with_group, AreCells};

use crate::cell_nodes::{AllCells, CellNode, CellsOfColumn, CellsOfRow, new_node};
use elem::Elem;
use linked_base::group::{Group, join, leave};
use linked_base::thread::{Ends, link_before, unlink};
use slab::Slab;

/// Puts a new node last in its row's thread, before `next` in the thread of all and before `next_in_column` in that of
/// its column.
pub fn link_cell(
    nodes: &mut Slab<CellNode>,
    all: &mut Ends,
    in_row: &mut Group,
    in_column: &mut Group,
    r: &Elem,
    c: &Elem,
    v: &Elem,
    next: Option<usize>,
    next_in_column: Option<usize>,
) -> usize
    requires room { HasRoomFor nodes.old 1 }
    requires next { (p : ℕ) → next ≡ Some p → ContainsKey nodes.old p }
    requires next_in_column { (p : ℕ) → next_in_column ≡ Some p → ContainsKey nodes.old p }
    requires row_counted { in_row.old.count ≤ slab_len nodes.old }
    requires column_counted { in_column.old.count ≤ slab_len nodes.old }
    ensures cells { (us vs : List ℕ) (rows columns : Key → Option TheGroup) → next ≡ head_or None vs → of_key (key_at Row nodes.old) r.now vs ≡ [] → next_in_column ≡ head_or None (of_key (key_at Column nodes.old) c.now vs) → in_row.old ≡ group_or_none (rows r.now) → in_column.old ≡ group_or_none (columns c.now) → AreCells nodes.old all.old rows columns (us ++ vs) → AreCells nodes.new all.new (with_group r.now in_row.new rows) (with_group c.now in_column.new columns) (us ++ result ∷ vs) }
    ensures fresh { get nodes.old result ≡ None }
    ensures here { (s : Side) → cell_at s nodes.new result ≡ Some (cell s (the_node r.now c.now v.now)) }
    ensures others { (s : Side) (p : ℕ) → p ≢ result → cell_at s nodes.new p ≡ cell_at s nodes.old p }
    ensures row_used { 0 < in_row.new.count }
    ensures column_used { 0 < in_column.new.count }
{
    let node = new_node(r, c, v);
    let place = nodes.insert_reserved(node);
    link_before::<AllCells, CellNode>(nodes, all, place, next);
    join::<CellsOfRow, CellNode>(nodes, in_row, place, None);
    join::<CellsOfColumn, CellNode>(nodes, in_column, place, next_in_column);
    place
}

/// Takes the node at `place` out of its three threads and the slab.
pub fn unlink_cell(
    nodes: &mut Slab<CellNode>,
    all: &mut Ends,
    in_row: &mut Group,
    in_column: &mut Group,
    place: usize,
)
    requires place { ContainsKey nodes.old place }
    requires row_counted { 0 < in_row.old.count }
    requires column_counted { 0 < in_column.old.count }
    ensures cells { (us vs : List ℕ) (rows columns : Key → Option TheGroup) (r c : Key) → key_at Row nodes.old place ≡ Some r → key_at Column nodes.old place ≡ Some c → in_row.old ≡ group_or_none (rows r) → in_column.old ≡ group_or_none (columns c) → AreCells nodes.old all.old rows columns (us ++ place ∷ vs) → AreCells nodes.new all.new (with_group r in_row.new rows) (with_group c in_column.new columns) (us ++ vs) }
    ensures others { (s : Side) (p : ℕ) → p ≢ place → cell_at s nodes.new p ≡ cell_at s nodes.old p }
{
    unlink::<AllCells, CellNode>(nodes, all, place);
    leave::<CellsOfRow, CellNode>(nodes, in_row, place);
    leave::<CellsOfColumn, CellNode>(nodes, in_column, place);
    nodes.remove(place);
}
