//! A graph walked along its edges and against them.
ghost use Rattle.std.specs.Prelude.{◌≡◌, ◌<◌};

use crate::Turned;
use elem::{Elem, Steps};
use graph_base::{GraphFault, ValueGraphRows};
use graph_walk::{breadth_first, has_cycle};
use hash_seed::Seed;
use std::alloc::Global;
use std::marker::Brand;
use std::sync::ledger::{Blank, Ledger};
use std::test::Fail;

/// Puts an edge where there is room.
fn put<L: Ledger>(
    g: &mut ValueGraphRows,
    a: i64,
    b: i64,
    steps: &mut Steps<L>,
) -> Result<(), GraphFault> {
    if g.len() <= 1073741820 {
        g.put_edge(Elem::Int(a), Elem::Int(b), Elem::Int(1), steps)?;
    }
    Ok(())
}

/// The edges 1 to 2, 1 to 3, 2 to 4 and 3 to 4.
fn diamond<L: Ledger>(
    alloc: Global,
    directed: bool,
    steps: &mut Steps<L>,
) -> Result<ValueGraphRows, GraphFault> {
    let Ok(mut g) = ValueGraphRows::new(alloc, directed, false) else {
        return Err(GraphFault::NoMemory);
    };
    put(&mut g, 1, 2, steps)?;
    put(&mut g, 1, 3, steps)?;
    put(&mut g, 2, 4, steps)?;
    put(&mut g, 3, 4, steps)?;
    Ok(g)
}

/// The nodes breadth first from 1 along the edges and from 4 against them.
fn both_ways<L: Ledger>(alloc: Global, blank: Blank) -> Result<(Vec<Elem>, Vec<Elem>), GraphFault>
    requires name { blank.name ≡ L.name }
    requires parts { blank.parts ≡ L.parts }
    requires some { 0 < blank.parts }
{
    let mut steps = Steps::<L>::new(blank);
    let g = diamond(alloc, true, &mut steps)?;
    let along = Turned {
        rows: &g,
        turned: false,
    };
    let against = Turned {
        rows: &g,
        turned: true,
    };
    match (
        breadth_first(alloc, Seed::fixed(), &along, Elem::Int(1), &mut steps),
        breadth_first(alloc, Seed::fixed(), &against, Elem::Int(4), &mut steps),
    ) {
        (Ok(first), Ok(second)) => Ok((first, second)),
        _ => Err(GraphFault::NoMemory),
    }
}

/// Whether the diamond has a cycle with directions, and without them.
fn cycles<L: Ledger>(alloc: Global, blank: Blank) -> Result<(bool, bool), GraphFault>
    requires name { blank.name ≡ L.name }
    requires parts { blank.parts ≡ L.parts }
    requires some { 0 < blank.parts }
{
    let mut steps = Steps::<L>::new(blank);
    let g = diamond(alloc, true, &mut steps)?;
    let h = diamond(alloc, false, &mut steps)?;
    let with = Turned {
        rows: &g,
        turned: true,
    };
    let without = Turned {
        rows: &h,
        turned: true,
    };
    match (
        has_cycle(alloc, Seed::fixed(), &with, &mut steps),
        has_cycle(alloc, Seed::fixed(), &without, &mut steps),
    ) {
        (Ok(first), Ok(second)) => Ok((first, second)),
        _ => Err(GraphFault::NoMemory),
    }
}

#[test]
fn a_diamond_both_ways(rt: HostRuntime) -> Result<(), Fail> {
    let (along, against) = both_ways::<Brand>(rt.alloc(), Blank::new(1))
        .ok()
        .ok_or("fault")?;
    assert_eq!(rt;
        along.as_slice(),
        [Elem::Int(1), Elem::Int(2), Elem::Int(3), Elem::Int(4)].as_slice()
    );
    assert_eq!(rt;
        against.as_slice(),
        [Elem::Int(4), Elem::Int(2), Elem::Int(3), Elem::Int(1)].as_slice()
    );
    Ok(())
}

#[test]
fn a_diamond_is_a_cycle_without_directions(rt: HostRuntime) -> Result<(), Fail> {
    let (with, without) = cycles::<Brand>(rt.alloc(), Blank::new(1))
        .ok()
        .ok_or("fault")?;
    assert_eq!(rt; with, false);
    assert_eq!(rt; without, true);
    Ok(())
}
