//! Each public call once.
ghost use Rattle.std.specs.Prelude.{◌≡◌, ◌<◌};

use crate::{GraphFault, ValueGraphRows, Way};
use elem::{Elem, Steps};
use std::alloc::Global;
use std::marker::Brand;
use std::sync::ledger::{Blank, Ledger};
use std::test::Fail;

/// Puts an edge where there is room, and tells the former value.
fn put<L: Ledger>(
    g: &mut ValueGraphRows,
    a: i64,
    b: i64,
    v: i64,
    steps: &mut Steps<L>,
) -> Result<Option<Elem>, GraphFault> {
    if g.len() > 1073741820 {
        return Ok(None);
    }
    g.put_edge(Elem::Int(a), Elem::Int(b), Elem::Int(v), steps)
}

/// The former value of 2 and 1, the size, a loop's count in the degree of 3, and the second edge at 1, where the edges
/// are 1 to 2, 1 to 3 and 3 to 3.
fn undirected<L: Ledger>(
    alloc: Global,
    blank: Blank,
) -> Result<(Option<Elem>, usize, i32, Option<(Elem, Elem, Elem)>), GraphFault>
    requires name { blank.name ≡ L.name }
    requires parts { blank.parts ≡ L.parts }
    requires some { 0 < blank.parts }
{
    let mut steps = Steps::<L>::new(blank);
    let Ok(mut g) = ValueGraphRows::new(alloc, false, true) else {
        return Err(GraphFault::NoMemory);
    };
    put(&mut g, 1, 2, 10, &mut steps)?;
    put(&mut g, 1, 3, 20, &mut steps)?;
    put(&mut g, 3, 3, 30, &mut steps)?;
    let former = put(&mut g, 2, 1, 11, &mut steps)?;
    let degree = g.degree(Elem::Int(3), Way::Both, &mut steps)?;
    let second = g.incident_at(Elem::Int(1), 1, &mut steps);
    Ok((former, g.len(), degree, second))
}

/// The first node, the first edge, the degree of 2 into it and the size, where 1 was removed from a graph with directions.
fn fewer<L: Ledger>(
    alloc: Global,
    blank: Blank,
) -> Result<(Option<Elem>, Option<(Elem, Elem, Elem)>, i32, usize), GraphFault>
    requires name { blank.name ≡ L.name }
    requires parts { blank.parts ≡ L.parts }
    requires some { 0 < blank.parts }
{
    let mut steps = Steps::<L>::new(blank);
    let Ok(mut g) = ValueGraphRows::new(alloc, true, false) else {
        return Err(GraphFault::NoMemory);
    };
    put(&mut g, 1, 2, 10, &mut steps)?;
    put(&mut g, 2, 3, 20, &mut steps)?;
    put(&mut g, 3, 2, 30, &mut steps)?;
    put(&mut g, 2, 4, 40, &mut steps)?;
    g.remove_node(Elem::Int(1), &mut steps);
    g.remove_edge(Elem::Int(2), Elem::Int(4), &mut steps);
    let node = g.node_at(0, &mut steps);
    let edge = g.edge_at(0, &mut steps);
    let degree = g.degree(Elem::Int(2), Way::Into, &mut steps)?;
    Ok((node, edge, degree, g.len()))
}

/// Whether 1 and 2 are nodes, the value of an edge that is not there, and the fault of a loop.
fn asked<L: Ledger>(
    alloc: Global,
    blank: Blank,
) -> Result<(bool, bool, Option<Elem>, bool), GraphFault>
    requires name { blank.name ≡ L.name }
    requires parts { blank.parts ≡ L.parts }
    requires some { 0 < blank.parts }
{
    let mut steps = Steps::<L>::new(blank);
    let Ok(mut g) = ValueGraphRows::new(alloc, true, false) else {
        return Err(GraphFault::NoMemory);
    };
    if g.len() <= 1073741820 && g.add_node(Elem::Int(1), &mut steps).is_err() {
        return Err(GraphFault::NoMemory);
    }
    let one = g.has_node(Elem::Int(1), &mut steps);
    let two = g.has_node(Elem::Int(2), &mut steps);
    let value = g.edge(Elem::Int(1), Elem::Int(1), &mut steps)?;
    let looped = put(&mut g, 1, 1, 5, &mut steps).is_err();
    Ok((one, two, value, looped && g.directed() && !g.loops()))
}

/// The second node, the edge behind the first one at 2, the next node of 2 behind 3, and the first node before 2, where the
/// edges are 1 to 2, 2 to 3 and 2 to 4.
fn turned<L: Ledger>(
    alloc: Global,
    blank: Blank,
) -> Result<
    (
        Option<Elem>,
        Option<(Elem, Elem, Elem)>,
        Option<Elem>,
        Option<Elem>,
    ),
    GraphFault,
>
    requires name { blank.name ≡ L.name }
    requires parts { blank.parts ≡ L.parts }
    requires some { 0 < blank.parts }
{
    let mut steps = Steps::<L>::new(blank);
    let Ok(mut g) = ValueGraphRows::new(alloc, true, false) else {
        return Err(GraphFault::NoMemory);
    };
    put(&mut g, 1, 2, 10, &mut steps)?;
    put(&mut g, 2, 3, 20, &mut steps)?;
    put(&mut g, 2, 4, 30, &mut steps)?;
    let Some(first) = g.first_node(&mut steps) else {
        return Err(GraphFault::NoNode);
    };
    let second = g.node_after(first, &mut steps);
    let Some(edge) = g.first_incident(Elem::Int(2), &mut steps) else {
        return Err(GraphFault::NoNode);
    };
    let behind = g.incident_after(Elem::Int(2), edge, &mut steps);
    let next = g.next_after(Elem::Int(2), Elem::Int(3), false, &mut steps);
    let before = g.first_next(Elem::Int(2), true, &mut steps);
    Ok((second, behind, next, before))
}

#[test]
fn an_edge_is_put_once(rt: HostRuntime) -> Result<(), Fail> {
    let (former, len, degree, second) = undirected::<Brand>(rt.alloc(), Blank::new(1))
        .ok()
        .ok_or("fault")?;
    assert_eq!(rt; former, Some(Elem::Int(10)));
    assert_eq!(rt; len, 6);
    assert_eq!(rt; degree, 3);
    assert_eq!(rt; second, Some((Elem::Int(1), Elem::Int(3), Elem::Int(20))));
    Ok(())
}

#[test]
fn a_node_goes_with_its_edges(rt: HostRuntime) -> Result<(), Fail> {
    let (node, edge, degree, len) = fewer::<Brand>(rt.alloc(), Blank::new(1))
        .ok()
        .ok_or("fault")?;
    assert_eq!(rt; node, Some(Elem::Int(2)));
    assert_eq!(rt; edge, Some((Elem::Int(2), Elem::Int(3), Elem::Int(20))));
    assert_eq!(rt; degree, 1);
    assert_eq!(rt; len, 5);
    Ok(())
}

#[test]
fn a_loop_is_refused(rt: HostRuntime) -> Result<(), Fail> {
    let (one, two, value, looped) = asked::<Brand>(rt.alloc(), Blank::new(1))
        .ok()
        .ok_or("fault")?;
    assert_eq!(rt; one, true);
    assert_eq!(rt; two, false);
    assert_eq!(rt; value, None);
    assert_eq!(rt; looped, true);
    Ok(())
}

#[test]
fn next_nodes_go_both_ways(rt: HostRuntime) -> Result<(), Fail> {
    let (second, behind, next, before) = turned::<Brand>(rt.alloc(), Blank::new(1))
        .ok()
        .ok_or("fault")?;
    assert_eq!(rt; second, Some(Elem::Int(2)));
    assert_eq!(rt; behind, Some((Elem::Int(2), Elem::Int(3), Elem::Int(20))));
    assert_eq!(rt; next, Some(Elem::Int(4)));
    assert_eq!(rt; before, Some(Elem::Int(1)));
    Ok(())
}
