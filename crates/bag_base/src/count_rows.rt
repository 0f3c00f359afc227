ghost use Rattle.std.specs.Prelude.{◌≡◌, ◌⊎◌, [], length, true, is_some, Some, IsOk, OnOk, OnErr, IfSome};
ghost use Rattle.std.specs.Option.{option_map};
ghost use Rattle.elem.specs.Keyed.{value_at};
ghost use Rattle.bag_base.specs.Counts.{with_count};

use elem::{Elem, NoMemory};
use hash_seed::Seed;
use std::alloc::Global;

/// The greatest count of one element.
pub(crate) const MOST: u32 = 2147483647;

/// The rows in which a bag keeps its counts: distinct elements in an order that the type gives, each with a number. Its
/// calls are not counted.
pub trait CountRows: Drop {
    ghost use Rattle.std.specs.Prelude.{◌≡◌, ℕ, List};
    ghost use Rattle.elem.specs.Elements.{same};
    ghost use Rattle.elem.specs.Rows.{first_key, last_key, key_after, key_before};
    ghost use Rattle.elem.specs.Keyed.{value_at, IsPresent, IsAbsent, HasDistinctKeys, with_value, without, AddsRow};
    ghost use Rattle.elem.specs.declared.elements.Elem.{Elem};

    /// The rows in order.
    ghost rows: { Self → List (Elem × ℕ) };

    /// The rows with a new one, at the place that the type gives.
    ghost inserted: { List (Elem × ℕ) → Elem → ℕ → List (Elem × ℕ) };

    /// No rows. Where elements are hashed they are by the seed.
    fn with_hasher(alloc: Global, seed: Seed) -> Self
        ensures { rows result ≡ [] };

    /// The number of rows.
    fn len(&self) -> usize
        ensures len { result ≡ length (rows self.now) }
        ensures distinct { HasDistinctKeys (rows self.now) };

    /// The number beside an element.
    fn probe(&self, x: Elem) -> Option<u32>
        ensures { result ≡ value_at (rows self.now) x };

    /// The first element.
    fn first(&self) -> Option<Elem>
        ensures { result ≡ first_key (rows self.now) };

    /// The last element.
    fn last(&self) -> Option<Elem>
        ensures { result ≡ last_key (rows self.now) };

    /// The element after `k`.
    fn after(&self, k: Elem) -> Option<Elem>
        requires { IsPresent (rows self.now) k }
        ensures { result ≡ key_after (same k) (rows self.now) };

    /// The element before `k`.
    fn before(&self, k: Elem) -> Option<Elem>
        requires { IsPresent (rows self.now) k }
        ensures { result ≡ key_before (same k) (rows self.now) };

    /// The first element, with the number beside it.
    fn first_row(&self) -> Option<(Elem, u32)>
        ensures element { option_map (λ row. row.0) result ≡ first_key (rows self.now) }
        ensures number { IfSome result (λ row. value_at (rows self.now) row.0 ≡ Some row.1) };

    /// The last element, with the number beside it.
    fn last_row(&self) -> Option<(Elem, u32)>
        ensures element { option_map (λ row. row.0) result ≡ last_key (rows self.now) }
        ensures number { IfSome result (λ row. value_at (rows self.now) row.0 ≡ Some row.1) };

    /// The element after `k`, with the number beside it.
    fn row_after(&self, k: Elem) -> Option<(Elem, u32)>
        requires { IsPresent (rows self.now) k }
        ensures element { option_map (λ row. row.0) result ≡ key_after (same k) (rows self.now) }
        ensures number { IfSome result (λ row. value_at (rows self.now) row.0 ≡ Some row.1) };

    /// The element before `k`, with the number beside it.
    fn row_before(&self, k: Elem) -> Option<(Elem, u32)>
        requires { IsPresent (rows self.now) k }
        ensures element { option_map (λ row. row.0) result ≡ key_before (same k) (rows self.now) }
        ensures number { IfSome result (λ row. value_at (rows self.now) row.0 ≡ Some row.1) };

    /// Adds a row, at the place that the type gives.
    fn insert(&mut self, x: Elem, n: u32) -> Result<(), NoMemory>
        requires { IsAbsent (rows self.old) x }
        ensures ok { OnOk result (rows self.new ≡ inserted (rows self.old) x n) }
        ensures err { OnErr result (rows self.new ≡ rows self.old) };

    /// Writes another number beside an element, and tells the one before.
    fn replace(&mut self, x: Elem, n: u32) -> u32
        requires { IsPresent (rows self.old) x }
        ensures value { value_at (rows self.old) x ≡ Some result }
        ensures rows { rows self.new ≡ with_value (rows self.old) x n };

    /// Removes the row of an element, and tells its number.
    fn remove(&mut self, x: Elem) -> Option<u32>
        ensures value { result ≡ value_at (rows self.old) x }
        ensures rows { rows self.new ≡ without (rows self.old) x };

    /// Removes every row.
    fn clear(&mut self)
        ensures { rows self.new ≡ [] };

    /// An insertion adds one row at one place, and the others keep their order.
    ghost adds_row: { (old : List (Elem × ℕ)) (x : Elem) (n : ℕ) → AddsRow old (inserted old x n) x n };
}

/// Writes the number beside an element, and 0 by removing its row.
pub(crate) fn write_row<R: CountRows>(
    rows: &mut R,
    x: &Elem,
    is_there: bool,
    n: u32,
) -> Result<(), NoMemory>
    requires { is_there ≡ is_some (value_at (R.rows rows.old) x.now) }
    ensures ok { OnOk result (R.rows rows.new ≡ with_count R.inserted (R.rows rows.old) x.now n) }
    ensures err { OnErr result (R.rows rows.new ≡ R.rows rows.old) }
    ensures fits { (n ≡ 0) ⊎ (is_there ≡ true) → IsOk result }
{
    if n == 0 {
        rows.remove(*x);
    } else if is_there {
        rows.replace(*x, n);
    } else {
        rows.insert(*x, n)?;
    }
    Ok(())
}
