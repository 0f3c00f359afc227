//! Where items go that are added at the end of a view.
ghost use Rattle.std.specs.Prelude.{◌≡◌, ◌<◌, length, true};
ghost use Rattle.base_rows.specs.BaseRows.{IsFree, IsSpotIn};
ghost use Rattle.base_store.specs.Stored.{view_in};
ghost use Rattle.view_steps.specs.Indexes.{end_of_view};
ghost use Rattle.vocabulary.specs.Kinds.{shape_of_kind};
ghost use Rattle.vocabulary.specs.Known.{is_known_kind};
ghost use Rattle.vocabulary.specs.Shapes.{is_list};
ghost use Rattle.machine.specs.Bases.{base_at};
ghost use Rattle.view_steps.specs.KnownViews.{number_under};
ghost use Rattle.view_steps.specs.Turning.{turned};

use base_store::{AnyRef, Store};
use vocabulary::{Kind, Spot};

/// Whether bases of a known kind are lists.
fn is_list_kind(kind: Kind) -> bool
    requires { is_known_kind kind ≡ true }
    ensures { result ≡ is_list (shape_of_kind kind) }
{
    matches!(kind, Kind::ArrayList)
}

/// Where an item goes that is added at the end of a view: in a list, at its front where the walk is turned round.
pub(crate) fn end_spot(store: &Store, n: AnyRef) -> Spot
    requires { n < length store.now.nodes }
    ensures spot { result ≡ end_of_view store.now.world (view_in store.now n) }
    ensures within { IsSpotIn (base_at store.now.world (number_under (view_in store.now n))).kind (length (base_at store.now.world (number_under (view_in store.now n))).rows) result }
    ensures free { IsFree result }
{
    let kind = store.kind(store.base_of(n));
    if is_list_kind(kind) && store.is_turned(n) {
        Spot::Before(0)
    } else {
        Spot::Own
    }
}
