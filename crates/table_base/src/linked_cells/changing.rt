//! A new cell put in, and a cell taken out.
ghost use Rattle.std.specs.Prelude.{◌≡◌, ◌<◌, None, OnOk, OnErr};
ghost use Rattle.std.specs.HashMap.{spare};
ghost use Rattle.std.specs.HashMap as hash;
ghost use Rattle.slab.specs.Slab.{HasRoomFor};
ghost use Rattle.elem.specs.declared.elements.Elem.{Elem as Key};
ghost use Rattle.elem.specs.Elements.{same};
ghost use Rattle.table_base.specs.declared.spots.Spot.{Spot as TheSpot};
ghost use Rattle.table_base.specs.Spots.{same_spot};
ghost use Rattle.table_base.specs.Cells.{value_in, without_cell, with_new};

use super::LinkedCells;
use crate::cell_nodes::CellNode;
use crate::linking::{link_cell, unlink_cell};
use crate::seeking::{place_behind, place_in_column};
use crate::spots::{Spot, place_of, take_place, write_place};
use elem::{Elem, NoMemory};
use hash_seed::SeededMap;
use linked_base::group::{Group, group_of, keep_group, write_group};
use slab::Slab;

impl LinkedCells {
    /// Puts a new cell in.
    pub(crate) fn add(&mut self, r: &Elem, c: &Elem, v: &Elem) -> Result<(), NoMemory>
        requires { value_in r.now c.now self.old.cells ≡ None }
        ensures ok { OnOk result (self.new.cells ≡ with_new self.old (r.now, (c.now, v.now))) }
        ensures kind { self.new.loose ≡ self.old.loose }
        ensures err { OnErr result (self.new ≡ self.old) }
    {
        let room = make_room(
            &mut self.nodes,
            &mut self.rows,
            &mut self.columns,
            &mut self.index,
        );
        if room.is_err() {
            return Err(NoMemory);
        }
        let mut in_row = group_of(&self.rows, r);
        let mut in_column = group_of(&self.columns, c);
        let next = place_behind(&self.nodes, &in_row, self.loose);
        let next_in_column = place_in_column(&self.nodes, &in_column, next, c);
        let place = link_cell(
            &mut self.nodes,
            &mut self.all,
            &mut in_row,
            &mut in_column,
            r,
            c,
            v,
            next,
            next_in_column,
        );
        write_group(&mut self.rows, r, in_row);
        write_group(&mut self.columns, c, in_column);
        write_place(&mut self.index, r, c, place);
        Ok(())
    }

    /// Takes the cell at a row and a column out, and tells its value.
    pub(crate) fn take(&mut self, r: &Elem, c: &Elem) -> Option<Elem>
        ensures value { result ≡ value_in r.now c.now self.old.cells }
        ensures cells { self.new.cells ≡ without_cell r.now c.now self.old.cells }
        ensures kind { self.new.loose ≡ self.old.loose }
    {
        let place = place_of(&self.index, r, c)?;
        let value = self.nodes[place].value;
        let mut in_row = group_of(&self.rows, r);
        let mut in_column = group_of(&self.columns, c);
        unlink_cell(
            &mut self.nodes,
            &mut self.all,
            &mut in_row,
            &mut in_column,
            place,
        );
        keep_group(&mut self.rows, r, in_row);
        keep_group(&mut self.columns, c, in_column);
        take_place(&mut self.index, r, c);
        Some(value)
    }
}

/// Makes room for one more cell. What is there stays, also where memory is refused.
fn make_room(
    nodes: &mut Slab<CellNode>,
    rows: &mut SeededMap<Elem, Group>,
    columns: &mut SeededMap<Elem, Group>,
    index: &mut SeededMap<Spot, usize>,
) -> Result<(), NoMemory>
    ensures for_node { OnOk result (HasRoomFor nodes.new 1) }
    ensures for_row { OnOk result (0 < spare rows.new) }
    ensures for_column { OnOk result (0 < spare columns.new) }
    ensures for_spot { OnOk result (0 < spare index.new) }
    ensures nodes { nodes.new ≡ record nodes.old { capacity = nodes.new.capacity } }
    ensures rows { (k : Key) → hash.get same rows.new k ≡ hash.get same rows.old k }
    ensures columns { (k : Key) → hash.get same columns.new k ≡ hash.get same columns.old k }
    ensures index { (x : TheSpot) → hash.get same_spot index.new x ≡ hash.get same_spot index.old x }
{
    if nodes.reserve(1).is_err() {
        return Err(NoMemory);
    }
    if rows.reserve(1).is_err() {
        return Err(NoMemory);
    }
    if columns.reserve(1).is_err() {
        return Err(NoMemory);
    }
    if index.reserve(1).is_err() {
        return Err(NoMemory);
    }
    Ok(())
}
