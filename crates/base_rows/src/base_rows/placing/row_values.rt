//! What stands beside the key in a row of a set or a map.
ghost use Rattle.vocabulary.specs.declared.items.Item.TheVariants.{Entry, One};
ghost use Rattle.std.specs.Prelude.{refl};
ghost use Rattle.vocabulary.specs.Items.{value_of as value_in_entry};

use elem::Elem;
use vocabulary::{Item, value_of};

/// What stands beside the key in a row: nothing in a set, and the value in a map.
pub trait RowValue: Copy {
    ghost use Rattle.std.specs.Prelude.{◌≡◌};
    ghost use Rattle.elem.specs.declared.elements.Elem.{Elem as Element};
    ghost use Rattle.vocabulary.specs.declared.items.Item.{Item as AnyItem};
    ghost use Rattle.vocabulary.specs.Items.{key_of};

    /// The row of a key and a value.
    ghost row_of: { Element → Self → AnyItem };

    /// The value in a row.
    ghost value_in: { AnyItem → Self };

    /// The row of a key and a value.
    fn row(k: Elem, v: Self) -> Item
        ensures { result ≡ row_of k v };

    /// The value in a row.
    fn value(row: &Item) -> Self
        ensures { result ≡ value_in row.now };

    /// The key of a row is the one that it was made of.
    ghost key_kept: { (k : Element) (v : Self) → key_of (row_of k v) ≡ k };
}

impl RowValue for () {
    ghost row_of = { λ k v. One k };

    ghost value_in = { λ row. tt };

    fn row(k: Elem, v: ()) -> Item {
        Item::One(k)
    }

    fn value(row: &Item) -> () {
        ()
    }

    ghost key_kept = { λ k v. refl };
}

impl RowValue for Elem {
    ghost row_of = { λ k v. Entry k v };

    ghost value_in = { λ row. value_in_entry row };

    fn row(k: Elem, v: Elem) -> Item {
        Item::Entry(k, v)
    }

    fn value(row: &Item) -> Elem {
        value_of(row)
    }

    ghost key_kept = { λ k v. refl };
}
