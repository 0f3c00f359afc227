//! Each public call once.
ghost use Rattle.std.specs.Prelude.{◌≡◌, ◌<◌};

use crate::two_lists::{Listed, make_listed};
use crate::{ClosureFault, WalkFault, breadth_first, closure, depth_post, depth_pre, has_cycle};
use elem::{Elem, NoMemory, Steps};
use hash_seed::Seed;
use std::alloc::Global;
use std::marker::Brand;
use std::sync::ledger::{Blank, Ledger};
use std::test::Fail;

/// The edges 1 to 2, 1 to 3, 2 to 4 and 3 to 4.
fn diamond(alloc: Global) -> Result<Listed, NoMemory> {
    let nodes = [Elem::Int(1), Elem::Int(2), Elem::Int(3), Elem::Int(4)];
    let edges = [
        (Elem::Int(1), Elem::Int(2)),
        (Elem::Int(1), Elem::Int(3)),
        (Elem::Int(2), Elem::Int(4)),
        (Elem::Int(3), Elem::Int(4)),
    ];
    make_listed(alloc, &nodes, &edges, true)
}

/// The edges 1 to 2 and 2 to 3, without directions.
fn line(alloc: Global) -> Result<Listed, NoMemory> {
    let nodes = [Elem::Int(1), Elem::Int(2), Elem::Int(3)];
    let edges = [(Elem::Int(1), Elem::Int(2)), (Elem::Int(2), Elem::Int(3))];
    make_listed(alloc, &nodes, &edges, false)
}

/// The edges 1 to 2, 2 to 3 and 3 to 1, without directions.
fn ring(alloc: Global) -> Result<Listed, NoMemory> {
    let nodes = [Elem::Int(1), Elem::Int(2), Elem::Int(3)];
    let edges = [
        (Elem::Int(1), Elem::Int(2)),
        (Elem::Int(2), Elem::Int(3)),
        (Elem::Int(3), Elem::Int(1)),
    ];
    make_listed(alloc, &nodes, &edges, false)
}

/// The diamond from 1 in its three orders.
fn from_one<L: Ledger>(
    alloc: Global,
    blank: Blank,
) -> Result<(Vec<Elem>, Vec<Elem>, Vec<Elem>), WalkFault>
    requires name { blank.name ≡ L.name }
    requires parts { blank.parts ≡ L.parts }
    requires some { 0 < blank.parts }
{
    let mut steps = Steps::<L>::new(blank);
    let g = diamond(alloc)?;
    let breadth = breadth_first(alloc, Seed::fixed(), &g, Elem::Int(1), &mut steps)?;
    let pre = depth_pre(alloc, Seed::fixed(), &g, Elem::Int(1), &mut steps)?;
    let post = depth_post(alloc, Seed::fixed(), &g, Elem::Int(1), &mut steps)?;
    Ok((breadth, pre, post))
}

/// The line from 2 breadth first, and whether 9 is refused as no node.
fn along_line<L: Ledger>(alloc: Global, blank: Blank) -> Result<(Vec<Elem>, bool), WalkFault>
    requires name { blank.name ≡ L.name }
    requires parts { blank.parts ≡ L.parts }
    requires some { 0 < blank.parts }
{
    let mut steps = Steps::<L>::new(blank);
    let g = line(alloc)?;
    let found = breadth_first(alloc, Seed::fixed(), &g, Elem::Int(2), &mut steps)?;
    let refused = breadth_first(alloc, Seed::fixed(), &g, Elem::Int(9), &mut steps);
    let is_refused = matches!(&refused, Err(WalkFault::NoNode));
    Ok((found, is_refused))
}

/// The nodes and the edges of the closure of the line, and whether one place fewer is refused.
fn joined_line<L: Ledger>(
    alloc: Global,
    blank: Blank,
) -> Result<(Vec<Elem>, Vec<(Elem, Elem)>, bool), ClosureFault>
    requires name { blank.name ≡ L.name }
    requires parts { blank.parts ≡ L.parts }
    requires some { 0 < blank.parts }
{
    let mut steps = Steps::<L>::new(blank);
    let g = line(alloc)?;
    let joined = closure(alloc, Seed::fixed(), &g, 9, &mut steps)?;
    let refused = closure(alloc, Seed::fixed(), &g, 8, &mut steps);
    let is_refused = matches!(&refused, Err(ClosureFault::Limit));
    match (
        Vec::from_slice(alloc, joined.nodes()),
        Vec::from_slice(alloc, joined.edges()),
    ) {
        (Ok(nodes), Ok(edges)) => Ok((nodes, edges, is_refused)),
        _ => Err(ClosureFault::NoMemory),
    }
}

/// Whether the diamond, the line and the ring have a cycle.
fn cycles<L: Ledger>(alloc: Global, blank: Blank) -> Result<(bool, bool, bool), NoMemory>
    requires name { blank.name ≡ L.name }
    requires parts { blank.parts ≡ L.parts }
    requires some { 0 < blank.parts }
{
    let mut steps = Steps::<L>::new(blank);
    let of_diamond = has_cycle(alloc, Seed::fixed(), &diamond(alloc)?, &mut steps)?;
    let of_line = has_cycle(alloc, Seed::fixed(), &line(alloc)?, &mut steps)?;
    let of_ring = has_cycle(alloc, Seed::fixed(), &ring(alloc)?, &mut steps)?;
    Ok((of_diamond, of_line, of_ring))
}

#[test]
fn a_diamond_in_three_orders(rt: HostRuntime) -> Result<(), Fail> {
    let (breadth, pre, post) = from_one::<Brand>(rt.alloc(), Blank::new(1))
        .ok()
        .ok_or("fault")?;
    assert_eq!(rt;
        breadth.as_slice(),
        [Elem::Int(1), Elem::Int(2), Elem::Int(3), Elem::Int(4)].as_slice()
    );
    assert_eq!(rt;
        pre.as_slice(),
        [Elem::Int(1), Elem::Int(2), Elem::Int(4), Elem::Int(3)].as_slice()
    );
    assert_eq!(rt;
        post.as_slice(),
        [Elem::Int(4), Elem::Int(2), Elem::Int(3), Elem::Int(1)].as_slice()
    );
    Ok(())
}

#[test]
fn a_line_both_ways(rt: HostRuntime) -> Result<(), Fail> {
    let (found, refused) = along_line::<Brand>(rt.alloc(), Blank::new(1))
        .ok()
        .ok_or("fault")?;
    assert_eq!(rt;
        found.as_slice(),
        [Elem::Int(2), Elem::Int(1), Elem::Int(3)].as_slice()
    );
    assert_eq!(rt; refused, true);
    Ok(())
}

#[test]
fn a_line_is_joined(rt: HostRuntime) -> Result<(), Fail> {
    let (nodes, edges, refused) = joined_line::<Brand>(rt.alloc(), Blank::new(1))
        .ok()
        .ok_or("fault")?;
    assert_eq!(rt;
        nodes.as_slice(),
        [Elem::Int(1), Elem::Int(2), Elem::Int(3)].as_slice()
    );
    assert_eq!(rt; edges.len(), 6);
    assert_eq!(rt; edges.first().copied(), Some((Elem::Int(1), Elem::Int(1))));
    assert_eq!(rt; edges.get(2).copied(), Some((Elem::Int(1), Elem::Int(3))));
    assert_eq!(rt; edges.last().copied(), Some((Elem::Int(3), Elem::Int(3))));
    assert_eq!(rt; refused, true);
    Ok(())
}

#[test]
fn a_ring_is_a_cycle(rt: HostRuntime) -> Result<(), Fail> {
    let (of_diamond, of_line, of_ring) = cycles::<Brand>(rt.alloc(), Blank::new(1))
        .ok()
        .ok_or("fault")?;
    assert_eq!(rt; of_diamond, false);
    assert_eq!(rt; of_line, false);
    assert_eq!(rt; of_ring, true);
    Ok(())
}
