//! The calls on two networks, and what each answers.
ghost use Rattle.std.specs.Prelude.{◌≡◌, ◌<◌};

use crate::{NetFault, NetGone, NetItem, NetStep, NetworkRows, Side};
use elem::{Elem, Steps, same};
use std::alloc::Global;
use std::marker::Brand;
use std::sync::ledger::{Blank, Ledger};
use std::test::Fail;

/// Puts an edge where there is room, and tells whether it is new.
fn put<L: Ledger>(
    w: &mut NetworkRows,
    a: i64,
    b: i64,
    x: i64,
    steps: &mut Steps<L>,
) -> Result<bool, NetFault> {
    if w.len() > 1073741820 {
        return Ok(false);
    }
    w.add_edge(Elem::Int(a), Elem::Int(b), Elem::Int(x), steps)
}

/// The number that an element is.
fn number(a: &Elem) -> i64 {
    match a {
        Elem::Int(n) => *n,
        Elem::Text(_word) => -3,
    }
}

/// The number of an item that is one element, 12 for the pair of 1 and 2, and -3 for another pair.
fn told(item: &NetItem) -> i64 {
    match item {
        NetItem::One(a) => number(a),
        NetItem::Pair(a, b) => {
            if same(a, &Elem::Int(1)) && same(b, &Elem::Int(2)) {
                12
            } else {
                -3
            }
        }
    }
}

/// What is told of an item of a set, -1 where there is none, and -2 where the set is gone.
fn answer(shown: Result<Option<NetItem>, NetGone>) -> i64 {
    let Ok(found) = shown else {
        return -2;
    };
    let Some(item) = found else {
        return -1;
    };
    told(&item)
}

/// The first three items of a set by number.
fn first_three<L: Ledger>(
    w: &NetworkRows,
    step: &NetStep,
    steps: &mut Steps<L>,
) -> (i64, i64, i64) {
    let first = answer(w.shown_at(step, 0, steps));
    let second = answer(w.shown_at(step, 1, steps));
    (first, second, answer(w.shown_at(step, 2, steps)))
}

/// What is told of the item after another by a walk.
fn after<L: Ledger>(w: &NetworkRows, step: &NetStep, spot: &Elem, steps: &mut Steps<L>) -> i64 {
    let Ok(found) = w.next_shown(step, *spot, steps) else {
        return -2;
    };
    let Some(row) = found else {
        return -1;
    };
    told(&row.1)
}

/// The first two items of a set by a walk.
fn walked<L: Ledger>(w: &NetworkRows, step: &NetStep, steps: &mut Steps<L>) -> (i64, i64) {
    let Ok(found) = w.first_shown(step, steps) else {
        return (-2, -2);
    };
    let Some(row) = found else {
        return (-1, -1);
    };
    let second = after(w, step, &row.0, steps);
    (told(&row.1), second)
}

/// Nodes 1 and 2 with the edges 11 and 12 from 1 to 2, in a network with directions and without loops.
fn parallel<L: Ledger>(
    alloc: Global,
    steps: &mut Steps<L>,
) -> Result<(NetworkRows, bool, bool), NetFault> {
    let Ok(mut w) = NetworkRows::new(alloc, true, false) else {
        return Err(NetFault::NoMemory);
    };
    let first = put(&mut w, 1, 2, 11, steps)?;
    let second = put(&mut w, 1, 2, 12, steps)?;
    Ok((w, first, second))
}

/// What the puts of two parallel edges answer, and two that change nothing.
fn put_twice<L: Ledger>(
    alloc: Global,
    blank: Blank,
) -> Result<(bool, bool, bool, Option<NetFault>, usize), NetFault>
    requires name { blank.name ≡ L.name }
    requires parts { blank.parts ≡ L.parts }
    requires some { 0 < blank.parts }
{
    let mut steps = Steps::<L>::new(blank);
    let (mut w, first, second) = parallel(alloc, &mut steps)?;
    let again = put(&mut w, 1, 2, 11, &mut steps)?;
    let turned = put(&mut w, 2, 1, 11, &mut steps).err();
    Ok((first, second, again, turned, w.len()))
}

/// The edges from 1 to 2, those beside 11, the edges of the graph, the ends of 12, and the degree of 1.
fn read<L: Ledger>(
    alloc: Global,
    blank: Blank,
) -> Result<
    (
        (i64, i64, i64),
        (i64, i64, i64),
        (i64, i64, i64),
        (i64, i64),
        Option<(Elem, Elem)>,
        Option<i32>,
    ),
    NetFault,
>
    requires name { blank.name ≡ L.name }
    requires parts { blank.parts ≡ L.parts }
    requires some { 0 < blank.parts }
{
    let mut steps = Steps::<L>::new(blank);
    let (w, _first, _second) = parallel(alloc, &mut steps)?;
    let between = NetStep::EdgesConnecting(Elem::Int(1), Elem::Int(2));
    let connecting = first_three(&w, &between, &mut steps);
    let beside = first_three(&w, &NetStep::AdjacentEdges(Elem::Int(11)), &mut steps);
    let pairs = first_three(&w, &NetStep::GraphEdges, &mut steps);
    let nodes = walked(&w, &NetStep::Nodes, &mut steps);
    let ends = w.ends(Elem::Int(12), &mut steps);
    let degree = w.degree(Elem::Int(1), Side::At, &mut steps);
    Ok((connecting, beside, pairs, nodes, ends, degree))
}

/// The edges out of 1 before and after its edge goes and after it goes itself, the nodes that are left, and the edges into a
/// node that never came, in a network without directions and loops.
fn kept<L: Ledger>(
    alloc: Global,
    blank: Blank,
) -> Result<
    (
        (i64, i64),
        (i64, i64),
        (i64, i64, i64),
        (i64, i64),
        (i64, i64, i64),
    ),
    NetFault,
>
    requires name { blank.name ≡ L.name }
    requires parts { blank.parts ≡ L.parts }
    requires some { 0 < blank.parts }
{
    let mut steps = Steps::<L>::new(blank);
    let Ok(mut w) = NetworkRows::new(alloc, false, false) else {
        return Err(NetFault::NoMemory);
    };
    put(&mut w, 1, 2, 5, &mut steps)?;
    let out = NetStep::OutEdges(Elem::Int(1));
    let before = walked(&w, &out, &mut steps);
    w.remove_edge(Elem::Int(5), &mut steps);
    let after = walked(&w, &out, &mut steps);
    w.remove_node(Elem::Int(1), &mut steps);
    let gone = first_three(&w, &out, &mut steps);
    let nodes = walked(&w, &NetStep::Nodes, &mut steps);
    let never = first_three(&w, &NetStep::InEdges(Elem::Int(9)), &mut steps);
    Ok((before, after, gone, nodes, never))
}

/// Whether the edge turned is new, the fault of a loop, whether 1 and 9 are nodes, whether a node is new twice, and the flags,
/// in a network without directions and loops.
fn refused<L: Ledger>(
    alloc: Global,
    blank: Blank,
) -> Result<(bool, Option<NetFault>, bool, bool, bool, bool), NetFault>
    requires name { blank.name ≡ L.name }
    requires parts { blank.parts ≡ L.parts }
    requires some { 0 < blank.parts }
{
    let mut steps = Steps::<L>::new(blank);
    let Ok(mut w) = NetworkRows::new(alloc, false, false) else {
        return Err(NetFault::NoMemory);
    };
    put(&mut w, 1, 2, 5, &mut steps)?;
    let turned = put(&mut w, 2, 1, 5, &mut steps)?;
    let looped = put(&mut w, 3, 3, 6, &mut steps).err();
    let one = w.has_node(Elem::Int(1), &mut steps);
    let nine = w.has_node(Elem::Int(9), &mut steps);
    let mut new = false;
    if w.len() <= 1073741820 {
        new = match w.add_node(Elem::Int(9), &mut steps) {
            Ok(new) => new,
            Err(_) => return Err(NetFault::NoMemory),
        };
    }
    Ok((turned, looped, one, nine, new, w.directed() || w.loops()))
}

#[test]
fn parallel_edges_are_put_once(rt: HostRuntime) -> Result<(), Fail> {
    let (first, second, again, turned, len) = put_twice::<Brand>(rt.alloc(), Blank::new(1))
        .ok()
        .ok_or("fault")?;
    assert_eq!(rt; first, true);
    assert_eq!(rt; second, true);
    assert_eq!(rt; again, false);
    assert_eq!(rt; turned, Some(NetFault::Taken));
    assert_eq!(rt; len, 4);
    Ok(())
}

#[test]
fn parallel_edges_are_read(rt: HostRuntime) -> Result<(), Fail> {
    let (connecting, beside, pairs, nodes, ends, degree) = read::<Brand>(rt.alloc(), Blank::new(1))
        .ok()
        .ok_or("fault")?;
    assert_eq!(rt; connecting, (11, 12, -1));
    assert_eq!(rt; beside, (12, -1, -1));
    assert_eq!(rt; pairs, (12, -1, -1));
    assert_eq!(rt; nodes, (1, 2));
    assert_eq!(rt; ends, Some((Elem::Int(1), Elem::Int(2))));
    assert_eq!(rt; degree, Some(2));
    Ok(())
}

#[test]
fn a_set_is_refused_once_its_node_is_gone(rt: HostRuntime) -> Result<(), Fail> {
    let (before, after, gone, nodes, never) = kept::<Brand>(rt.alloc(), Blank::new(1))
        .ok()
        .ok_or("fault")?;
    assert_eq!(rt; before, (5, -1));
    assert_eq!(rt; after, (-1, -1));
    assert_eq!(rt; gone, (-2, -2, -2));
    assert_eq!(rt; nodes, (2, -1));
    assert_eq!(rt; never, (-2, -2, -2));
    Ok(())
}

#[test]
fn a_loop_is_refused(rt: HostRuntime) -> Result<(), Fail> {
    let (turned, looped, one, nine, new, flags) = refused::<Brand>(rt.alloc(), Blank::new(1))
        .ok()
        .ok_or("fault")?;
    assert_eq!(rt; turned, false);
    assert_eq!(rt; looped, Some(NetFault::Loop));
    assert_eq!(rt; one, true);
    assert_eq!(rt; nine, false);
    assert_eq!(rt; new, true);
    assert_eq!(rt; flags, false);
    Ok(())
}
