ghost use Rattle.std.specs.Prelude.{◌≡◌, true};

use vocabulary::Item;

/// A test of rows, or of the items that a view shows.
pub trait RowTest {
    ghost use Rattle.std.specs.Prelude.{◌≡◌, Bool, true};
    ghost use Rattle.vocabulary.specs.declared.items.Item.{Item as AnyItem};

    /// Which ones pass.
    ghost passes: { Self → AnyItem → Bool };

    /// Whether one passes.
    fn test(&self, item: &Item) -> bool
        ensures { result ≡ passes self.now item.now };

    /// Whether the test is known to let every one pass.
    fn takes_all(&self) -> bool
        ensures { result ≡ true → (item : AnyItem) → passes self.now item ≡ true }
    {
        false
    }
}
