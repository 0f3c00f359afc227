//! What a call answers.

use crate::Item;
use elem::Elem;
use std::marker::Model;

/// The items of a list, of which contracts see the list.
#[derive(Drop)]
pub struct Items {
    items: Vec<Item>,
}

impl Model for Items {
    ghost use Rattle.std.specs.Prelude.{List};
    ghost use Rattle.vocabulary.specs.declared.items.Item.{Item};

    ghost Value = { List Item };

    ghost view = { λ a. a.items.items };
}

/// The answer of a call that is not refused.
#[derive(Drop)]
pub enum Answer {
    /// It was done, and there is nothing to tell.
    Done,
    Truth(bool),
    Number(usize),
    /// An index, or none, which is printed as -1.
    Index(Option<usize>),
    Element(Elem),
    /// An element, or none, which is printed as `null`.
    Optional(Option<Elem>),
    /// A row, or none, which is printed as `null`.
    Row(Option<Item>),
    /// The values of a key.
    Values(Items),
    /// The cells of a row or column.
    Cells(Items),
}
