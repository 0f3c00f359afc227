//! Each public call on two range sets: one with ends, whose ranges `[1..3]` and `[4..6]` have a gap that holds no whole
//! number, and one without ends. And what a set without members answers.
ghost use Rattle.std.specs.Prelude.{◌≡◌, ◌<◌, ◌≤◌};
ghost use Rattle.elem.specs.declared.cuts.Cut.TheVariants.{Below, Above};
ghost use Rattle.elem.specs.declared.elements.Elem.TheVariants.{Int};
ghost use Rattle.elem.specs.Cuts.{IsWholeCut};
ghost use Rattle.elem.specs.Places.{place};
ghost use Rattle.elem.specs.Spans.{IsWhole};
ghost use Rattle.discrete_set.specs.Ranges.{IsRangeSet};

use crate::{DiscreteRows, canonical_law};
use elem::{Cut, Elem, Span, Steps};
use std::alloc::Global;
use std::marker::Brand;
use std::process::Abort;
use std::sync::ledger::{Blank, Ledger};
use std::test::Fail;

fn below(number: i64) -> Cut
    ensures { result ≡ Below (Int number) }
{
    Cut::Below(Elem::Int(number))
}

fn above(number: i64) -> Cut
    ensures { result ≡ Above (Int number) }
{
    Cut::Above(Elem::Int(number))
}

/// The range between two cuts, as it is shown.
fn shown(lo: Cut, hi: Cut) -> Option<Span> {
    Some(Span { lo, hi })
}

/// The range between two cuts beside whole numbers.
fn between(lo: Cut, hi: Cut) -> Span
    requires lo { IsWholeCut lo }
    requires hi { IsWholeCut hi }
    requires in_order { place lo ≤ place hi }
    ensures whole { IsWhole result }
    ensures lo { place result.lo ≡ place lo }
    ensures hi { place result.hi ≡ place hi }
{
    Span::at(lo.place(), hi.place())
}

/// The ranges `[1..3]`, `[4..6]` and `(8..9)`.
fn with_ends() -> [Span; 3]
    ensures { IsRangeSet result }
{
    let low = between(below(1), above(3));
    let middle = between(below(4), above(6));
    let high = between(above(8), below(9));
    [low, middle, high]
}

/// The ranges `(-∞..0)` and `(5..+∞)`.
fn without_ends() -> [Span; 2]
    ensures { IsRangeSet result }
{
    let low = between(Cut::Start, below(0));
    let high = between(above(5), Cut::End);
    [low, high]
}

/// The range `(2..4]`.
fn window() -> Span
    ensures { IsWhole result }
{
    between(above(2), above(4))
}

fn few<L: Ledger, A: Abort>(rt: &A, alloc: Global, blank: Blank) -> Result<(), Fail>
    requires name { blank.name ≡ L.name }
    requires parts { blank.parts ≡ L.parts }
    requires some { 0 < blank.parts }
{
    let mut steps: Steps<L> = Steps::new(blank);
    let rows = with_ends();
    canonical_law(&rows, &rows);
    let made = DiscreteRows::of(alloc, &rows, &mut steps);
    let set = made.ok().ok_or("memory")?;
    assert!(rt; set.runs() == 1);
    assert!(rt; set.canonical_at(0, &mut steps) == shown(below(1), below(7)));
    assert!(rt; set.canonical_at(1, &mut steps) == None);
    assert!(rt; set.run_at(0, &mut steps) == shown(below(1), above(6)));
    assert!(rt; set.size(&mut steps) == 6);
    assert!(rt; set.first(&mut steps) == Some(1));
    assert!(rt; set.last(&mut steps) == Some(6));
    assert!(rt; set.item(0, &mut steps) == Some(1));
    assert!(rt; set.item(1, &mut steps) == Some(2));
    assert!(rt; set.item(6, &mut steps) == None);
    let part = set.within(alloc, &window(), &mut steps);
    let part = part.ok().ok_or("memory")?;
    assert!(rt; part.run_at(0, &mut steps) == shown(below(3), above(4)));
    let both = part.intersection(alloc, &set, &mut steps);
    let both = both.ok().ok_or("memory")?;
    assert!(rt; both.runs() == 1);
    assert!(rt; both.last(&mut steps) == Some(4));
    assert!(rt; both.contains(4, &mut steps));
    assert!(rt; !both.contains(2, &mut steps));
    assert!(rt; !both.contains(5, &mut steps));
    Ok(())
}

fn many<L: Ledger, A: Abort>(rt: &A, alloc: Global, blank: Blank) -> Result<(), Fail>
    requires name { blank.name ≡ L.name }
    requires parts { blank.parts ≡ L.parts }
    requires some { 0 < blank.parts }
{
    let mut steps: Steps<L> = Steps::new(blank);
    let rows = without_ends();
    let made = DiscreteRows::of(alloc, &rows, &mut steps);
    let set = made.ok().ok_or("memory")?;
    assert!(rt; set.runs() == 2);
    assert!(rt; set.canonical_at(0, &mut steps) == shown(below(i64::MIN), below(0)));
    assert!(rt; set.canonical_at(1, &mut steps) == shown(below(6), Cut::End));
    assert!(rt; set.size(&mut steps) == 2147483647);
    assert!(rt; !set.contains(3, &mut steps));
    assert!(rt; set.contains(i64::MAX, &mut steps));
    assert!(rt; set.item(0, &mut steps) == Some(-9223372036854775808));
    assert!(rt; set.item(9223372036854775808, &mut steps) == Some(6));
    assert!(rt; set.item(18446744073709551609, &mut steps) == Some(9223372036854775807));
    assert!(rt; set.item(18446744073709551610, &mut steps) == None);
    assert!(rt; set.first(&mut steps) == Some(i64::MIN));
    assert!(rt; set.last(&mut steps) == Some(i64::MAX));
    Ok(())
}

fn none<L: Ledger, A: Abort>(rt: &A, alloc: Global, blank: Blank) -> Result<(), Fail>
    requires name { blank.name ≡ L.name }
    requires parts { blank.parts ≡ L.parts }
    requires some { 0 < blank.parts }
{
    let mut steps: Steps<L> = Steps::new(blank);
    let made = DiscreteRows::of(alloc, &[], &mut steps);
    let set = made.ok().ok_or("memory")?;
    assert!(rt; set.size(&mut steps) == 0);
    assert!(rt; !set.contains(0, &mut steps));
    assert!(rt; set.first(&mut steps) == None);
    assert!(rt; set.last(&mut steps) == None);
    assert!(rt; set.item(0, &mut steps) == None);
    assert!(rt; set.run_at(0, &mut steps) == None);
    Ok(())
}

#[test]
fn ranges_that_meet_at_no_number_are_one_run(rt: HostRuntime) -> Result<(), Fail> {
    let alloc = rt.alloc();
    few::<Brand, HostRuntime>(&rt, alloc, Blank::new(1))
}

#[test]
fn the_least_and_the_greatest_number_are_members(rt: HostRuntime) -> Result<(), Fail> {
    let alloc = rt.alloc();
    many::<Brand, HostRuntime>(&rt, alloc, Blank::new(1))
}

#[test]
fn a_set_without_members_has_no_ends(rt: HostRuntime) -> Result<(), Fail> {
    let alloc = rt.alloc();
    none::<Brand, HostRuntime>(&rt, alloc, Blank::new(1))
}
