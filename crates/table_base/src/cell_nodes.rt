//! Nodes of cells, with a place in a thread through all, in that of their row and in that of their column.
ghost use Rattle.std.specs.Prelude.{◌≡◌, refl, ℕ, Some, None};
ghost use Rattle.slab.specs.Slab.{ContainsKey, get, slab_len};
ghost use Rattle.linked_base.specs.Thread.{Rewrites};
ghost use Rattle.std.specs.Option.{option_map};
ghost use Rattle.table_base.specs.CellNodes.{the_node, links, key, key_at, rest};

use crate::sides::Side;
use elem::Elem;
use linked_base::thread::{Links, Threaded};
use slab::Slab;

/// The thread through all cells.
pub struct AllCells;

/// The thread through the cells of a row.
pub struct CellsOfRow;

/// The thread through the cells of a column.
pub struct CellsOfColumn;

/// A cell and its places in the three threads.
#[derive(Clone, Copy)]
pub struct CellNode {
    pub row: Elem,
    pub column: Elem,
    pub value: Elem,
    pub all: Links,
    pub in_row: Links,
    pub in_column: Links,
}

impl Threaded<AllCells> for CellNode {
    ghost links = { λ n. n.all };

    ghost with_links = { λ n l. record n { all = l } };

    ghost links_back = { λ n. refl };

    ghost links_of_set = { λ n l. refl };

    ghost set_twice = { λ n l m. refl };

    fn links(&self) -> Links {
        self.all
    }

    fn set_links(&mut self, to: Links) {
        self.all = to;
    }
}

impl Threaded<CellsOfRow> for CellNode {
    ghost links = { λ n. n.in_row };

    ghost with_links = { λ n l. record n { in_row = l } };

    ghost links_back = { λ n. refl };

    ghost links_of_set = { λ n l. refl };

    ghost set_twice = { λ n l m. refl };

    fn links(&self) -> Links {
        self.in_row
    }

    fn set_links(&mut self, to: Links) {
        self.in_row = to;
    }
}

impl Threaded<CellsOfColumn> for CellNode {
    ghost links = { λ n. n.in_column };

    ghost with_links = { λ n l. record n { in_column = l } };

    ghost links_back = { λ n. refl };

    ghost links_of_set = { λ n l. refl };

    ghost set_twice = { λ n l m. refl };

    fn links(&self) -> Links {
        self.in_column
    }

    fn set_links(&mut self, to: Links) {
        self.in_column = to;
    }
}

/// A node that is in no thread.
pub fn new_node(r: &Elem, c: &Elem, v: &Elem) -> CellNode
    ensures { result ≡ the_node r.now c.now v.now }
{
    let none = Links {
        previous: None,
        next: None,
    };
    CellNode {
        row: *r,
        column: *c,
        value: *v,
        all: none,
        in_row: none,
        in_column: none,
    }
}

/// Writes the value of the node at `place`.
pub fn write_value(nodes: &mut Slab<CellNode>, place: usize, v: &Elem)
    ensures nodes { Rewrites (λ n. record n { value = v.now }) (Some place) nodes.old nodes.new }
    ensures len { slab_len nodes.new ≡ slab_len nodes.old }
{
    if let Some(node) = nodes.get_mut(place) {
        node.value = *v;
    }
}
