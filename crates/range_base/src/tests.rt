//! One script over each type: neighbours and overlaps, as the numbers between them say.
ghost use Rattle.std.specs.Prelude.{◌≡◌, ◌<◌};
ghost use Rattle.elem.specs.Cuts.{IsWholeCut};
ghost use Rattle.elem.specs.Spans.{IsWhole};

use crate::*;
use elem::{Cut, Elem, Span, Steps};
use std::alloc::Global;
use std::marker::Brand;
use std::process::Abort;
use std::sync::ledger::{Blank, Ledger};

// The range between two cuts, or an empty one where they are out of order.
fn between(lo: Cut, hi: Cut) -> Span
    requires lo { IsWholeCut lo }
    requires hi { IsWholeCut hi }
    ensures { IsWhole result }
{
    let lo = lo.place();
    let hi = hi.place();
    if lo <= hi {
        Span::at(lo, hi)
    } else {
        Span::at(lo, lo)
    }
}

fn closed(lo: i64, hi: i64) -> Span
    ensures { IsWhole result }
{
    between(Cut::Below(Elem::Int(lo)), Cut::Above(Elem::Int(hi)))
}

fn closed_open(lo: i64, hi: i64) -> Span
    ensures { IsWhole result }
{
    between(Cut::Below(Elem::Int(lo)), Cut::Below(Elem::Int(hi)))
}

fn open_closed(lo: i64, hi: i64) -> Span
    ensures { IsWhole result }
{
    between(Cut::Above(Elem::Int(lo)), Cut::Above(Elem::Int(hi)))
}

fn open(lo: i64, hi: i64) -> Span
    ensures { IsWhole result }
{
    between(Cut::Above(Elem::Int(lo)), Cut::Below(Elem::Int(hi)))
}

fn ranges<L: Ledger, R: Abort>(rt: &R, alloc: Global, blank: Blank) -> Result<(), std::test::Fail>
    requires name { blank.name ≡ L.name }
    requires parts { blank.parts ≡ L.parts }
    requires some { 0 < blank.parts }
{
    let mut steps: Steps<L> = Steps::new(blank);
    let mut rows = RangeRows::new(alloc);
    assert!(rt; rows.add(&closed(1, 3), &mut steps) == Ok(true));
    assert!(rt; rows.add(&closed(4, 6), &mut steps) == Ok(true));
    assert!(rt; rows.first(&mut steps) == Some(closed(1, 3)));
    assert!(rt; rows.after(&closed(1, 3), &mut steps) == Some(closed(4, 6)));
    assert!(rt; rows.add(&open(3, 4), &mut steps) == Ok(true));
    assert!(rt; rows.first(&mut steps) == Some(closed(1, 6)));
    assert!(rt; rows.len() == 1);
    assert!(rt; rows.add(&open_closed(2, 6), &mut steps) == Ok(false));
    assert!(rt; rows.cut_out(&closed(3, 3), &mut steps) == Ok(true));
    assert!(rt; rows.probe(&Cut::Below(Elem::Int(3)), &mut steps) == Some(closed_open(1, 3)));
    assert!(rt; rows.probe(&Cut::End, &mut steps) == Some(open_closed(3, 6)));
    Ok(())
}

#[test]
fn ranges_that_touch_are_one_row(rt: HostRuntime) -> Result<(), std::test::Fail> {
    let alloc = rt.alloc();
    ranges::<Brand, HostRuntime>(&rt, alloc, Blank::new(1))
}

fn complemented<L: Ledger, R: Abort>(
    rt: &R,
    alloc: Global,
    blank: Blank,
) -> Result<(), std::test::Fail>
    requires name { blank.name ≡ L.name }
    requires parts { blank.parts ≡ L.parts }
    requires some { 0 < blank.parts }
{
    let mut steps: Steps<L> = Steps::new(blank);
    let mut rows = RangeRows::new(alloc);
    let tail = between(Cut::Below(Elem::Int(9)), Cut::End);
    assert!(rt; rows.add(&closed(1, 5), &mut steps) == Ok(true));
    assert!(rt; rows.cut_out(&closed(3, 3), &mut steps) == Ok(true));
    assert!(rt; rows.add(&tail, &mut steps) == Ok(true));
    assert!(rt; rows.first(&mut steps) == Some(closed_open(1, 3)));
    assert!(rt; rows.after(&closed_open(1, 3), &mut steps) == Some(open_closed(3, 5)));
    assert!(rt; rows.after(&open_closed(3, 5), &mut steps) == Some(tail));
    assert!(rt; rows.len() == 3);
    Ok(())
}

#[test]
fn a_number_cut_out_parts_a_row(rt: HostRuntime) -> Result<(), std::test::Fail> {
    let alloc = rt.alloc();
    complemented::<Brand, HostRuntime>(&rt, alloc, Blank::new(1))
}

fn valued<L: Ledger, R: Abort>(rt: &R, alloc: Global, blank: Blank) -> Result<(), std::test::Fail>
    requires name { blank.name ≡ L.name }
    requires parts { blank.parts ≡ L.parts }
    requires some { 0 < blank.parts }
{
    let mut steps: Steps<L> = Steps::new(blank);
    let mut rows = RangeMapRows::new(alloc);
    assert!(rt; rows.put(&closed(1, 5), Elem::Int(1), &mut steps) == Ok(true));
    assert!(rt; rows.put(&closed_open(4, 8), Elem::Int(2), &mut steps) == Ok(true));
    assert!(rt; rows.first(&mut steps) == Some((closed_open(1, 4), Elem::Int(1))));
    assert!(rt;
        rows.after(&closed_open(1, 4), &mut steps) == Some((closed_open(4, 8), Elem::Int(2)))
    );
    assert!(rt; rows.cut_out(&closed(3, 4), &mut steps) == Ok(true));
    assert!(rt; rows.first(&mut steps) == Some((closed_open(1, 3), Elem::Int(1))));
    assert!(rt;
        rows.probe(&Cut::Above(Elem::Int(4)), &mut steps) == Some((open(4, 8), Elem::Int(2)))
    );
    assert!(rt; rows.len() == 2);
    Ok(())
}

#[test]
fn a_put_cuts_the_overlap_away(rt: HostRuntime) -> Result<(), std::test::Fail> {
    let alloc = rt.alloc();
    valued::<Brand, HostRuntime>(&rt, alloc, Blank::new(1))
}
