//! Printing a view.
ghost use Rattle.std.specs.Prelude.{◌≡◌, ◌<◌, ◌++◌, ◌∷◌, [], true, length, None, map as mapped};
ghost use Rattle.base_store.specs.Stored.{view_in};
ghost use Rattle.session.specs.KnownShapes.{AreKnown, is_known_item, is_known_shape};
ghost use Rattle.session.specs.Printing.{separator};
ghost use Rattle.session.specs.Replying.{Goes, Said};
ghost use Rattle.machine.specs.Reading.{reading_refusal};
ghost use Rattle.machine.specs.Texts as text;
ghost use Rattle.machine.specs.ViewTexts.{text_of};
ghost use Rattle.machine.specs.Views.{shape_at, shown};

use crate::faults::ExecFault;
use crate::replies::Reply;
use base_store::{AnyRef, Store};
use elem::{Sink, Steps, write_elem};
use read_chain::Walk;
use std::sync::ledger::Ledger;
use vocabulary::{Item, Shape};

/// Says the text of a view.
pub fn print<S: Sink, L: Ledger>(
    store: &Store,
    n: AnyRef,
    reply: &mut Reply,
    out: &mut S,
    steps: &mut Steps<L>,
) -> Result<(), ExecFault>
    requires node { n < length store.now.nodes }
    ensures read { reading_refusal store.now.world (view_in store.now n) ≡ None }
    ensures said { Said result (S.taken out.old) (S.taken out.new) (S.faults out.old) (S.faults out.new) (text_of store.now.world (view_in store.now n) ++ 10 ∷ []) }
{
    let shape = known_shape(store, n);
    items_fit(store, n);
    reply.begin();
    reply.write(out, opening(shape));
    write_items(store, n, reply, out, steps);
    reply.write(out, closing(shape));
    reply.end(out)
}

/// The shape of a node, which is one of lists, sets, maps and bimaps. Reading such a view is not refused.
pub fn known_shape(store: &Store, n: AnyRef) -> Shape
    requires { n < length store.now.nodes }
    ensures shape { result ≡ shape_at store.now.world (view_in store.now n) }
    ensures known { is_known_shape result ≡ true }
    ensures read { reading_refusal store.now.world (view_in store.now n) ≡ None }
{
    let _base = store.base_of(n);
    store.shape(n)
}

/// Does nothing; its contract says that a view shows elements, or keys and their values.
pub fn items_fit(store: &Store, n: AnyRef)
    requires { n < length store.now.nodes }
    ensures { AreKnown (shown store.now.world (view_in store.now n)) }
{
    store.rows_fit(store.base_of(n));
}

fn opening(shape: Shape) -> &'static [u8]
    requires { is_known_shape shape ≡ true }
    ensures { result.now ≡ text.opening shape }
{
    match shape {
        Shape::Map { .. } | Shape::BiMap => b"{",
        _ => b"[",
    }
}

fn closing(shape: Shape) -> &'static [u8]
    requires { is_known_shape shape ≡ true }
    ensures { result.now ≡ text.closing shape }
{
    match shape {
        Shape::Map { .. } | Shape::BiMap => b"}",
        _ => b"]",
    }
}

/// Writes what a view shows.
fn write_items<S: Sink, L: Ledger>(
    store: &Store,
    n: AnyRef,
    reply: &mut Reply,
    out: &mut S,
    steps: &mut Steps<L>,
)
    requires node { n < length store.now.nodes }
    ensures { Goes (S.taken out.old) (S.taken out.new) (S.faults out.old) (S.faults out.new) reply.old reply.new (text.listed (mapped text.item_text (shown store.now.world (view_in store.now n)))) }
{
    items_fit(store, n);
    let mut walk = Walk::over(store, n, false);
    let mut is_first = true;
    while let Some(item) = walk.next(store, steps) {
        reply.write(out, separator(is_first));
        write_item(&item, reply, out);
        is_first = false;
    }
}

/// What stands before an item.
fn separator(is_first: bool) -> &'static [u8]
    ensures { result.now ≡ separator is_first }
{
    if is_first { b"" } else { b", " }
}

/// Writes an element, or a key and its value.
pub fn write_item<S: Sink>(item: &Item, reply: &mut Reply, out: &mut S)
    requires { is_known_item item.now ≡ true }
    ensures { Goes (S.taken out.old) (S.taken out.new) (S.faults out.old) (S.faults out.new) reply.old reply.new (text.item_text item.now) }
{
    match item {
        Item::One(x) => reply.write(out, write_elem(*x).as_slice()),
        Item::Entry(k, v) => {
            reply.write(out, write_elem(*k).as_slice());
            reply.write(out, b"=");
            reply.write(out, write_elem(*v).as_slice());
        }
        _ => {}
    }
}
