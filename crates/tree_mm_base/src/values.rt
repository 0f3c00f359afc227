//! The values of a key, put in a tree.
ghost use Rattle.std.specs.Prelude.{◌≡◌, [], is_some, OnOk};
ghost use Rattle.std.specs.List.{list_any};
ghost use Rattle.elem.specs.Elements.{same};
ghost use Rattle.elem.specs.Keyed.{value_at};

use elem::{Elem, NoMemory};
use plain_base::FreeTreeMapRows;

/// Puts each of these values in a tree that has none, equal ones once.
pub(crate) fn put_values(tree: &mut FreeTreeMapRows<()>, vs: &[Elem]) -> Result<(), NoMemory>
    requires { tree.old ≡ [] }
    ensures { OnOk result ((x : _) → is_some (value_at tree.new x) ≡ list_any (same x) vs.now) }
{
    for v in vs {
        if !tree.contains(v) {
            tree.insert(*v, ())?;
        }
    }
    Ok(())
}
