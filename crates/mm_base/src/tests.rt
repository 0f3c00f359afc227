//! Each public call once.
ghost use Rattle.std.specs.Prelude.{◌≡◌, ◌<◌};

use crate::{FlatPairs, GroupedLists, LinkedPairs};
use elem::{Elem, NoMemory, Steps};
use std::alloc::Global;
use std::marker::Brand;
use std::sync::ledger::{Blank, Ledger};
use std::test::Fail;

/// 1 to 10, 2 to 20 and 1 to 11, then 1 to 12 and 13 in place: the number of pairs, the first and the last key, and
/// whether 1 has 11 still.
fn flat<L: Ledger>(
    alloc: Global,
    blank: Blank,
) -> Result<(usize, Option<Elem>, Option<Elem>, bool), NoMemory>
    requires name { blank.name ≡ L.name }
    requires parts { blank.parts ≡ L.parts }
    requires some { 0 < blank.parts }
{
    let mut steps = Steps::<L>::new(blank);
    let mut m = FlatPairs::new(alloc)?;
    m.put(Elem::Int(1), Elem::Int(10), &mut steps)?;
    m.put(Elem::Int(2), Elem::Int(20), &mut steps)?;
    m.put(Elem::Int(1), Elem::Int(11), &mut steps)?;
    let values = [Elem::Int(12), Elem::Int(13), Elem::Int(14)];
    m.replace_values(Elem::Int(1), &values, &mut steps)?;
    let first = m.first_key(&mut steps);
    let last = m.last_key(&mut steps);
    let kept = m.has(Elem::Int(1), Elem::Int(11), &mut steps);
    Ok((m.len(), first, last, kept))
}

/// The numbers of pairs after 1 to 14 goes, after 2 goes, and after all goes.
fn fewer<L: Ledger>(alloc: Global, blank: Blank) -> Result<(bool, usize, usize, usize), NoMemory>
    requires name { blank.name ≡ L.name }
    requires parts { blank.parts ≡ L.parts }
    requires some { 0 < blank.parts }
{
    let mut steps = Steps::<L>::new(blank);
    let mut m = FlatPairs::new(alloc)?;
    m.put(Elem::Int(1), Elem::Int(14), &mut steps)?;
    m.put(Elem::Int(2), Elem::Int(20), &mut steps)?;
    m.put_at(Elem::Int(1), 0, Elem::Int(13), &mut steps)?;
    let removed = m.remove_pair(Elem::Int(1), Elem::Int(14), &mut steps);
    let gone = m.remove_key(Elem::Int(2), &mut steps);
    let len = m.len();
    m.clear();
    Ok((removed, gone, len, m.len()))
}

/// Whether the second put of a pair grew, the first and the last key after 1 went and came back, and the pairs of 2.
fn linked<L: Ledger>(
    alloc: Global,
    blank: Blank,
) -> Result<(bool, Option<Elem>, Option<Elem>, usize), NoMemory>
    requires name { blank.name ≡ L.name }
    requires parts { blank.parts ≡ L.parts }
    requires some { 0 < blank.parts }
{
    let mut steps = Steps::<L>::new(blank);
    let mut m = LinkedPairs::new(alloc)?;
    m.put(Elem::Int(1), Elem::Int(10), &mut steps)?;
    m.put(Elem::Int(2), Elem::Int(20), &mut steps)?;
    let grew = m.put(Elem::Int(1), Elem::Int(10), &mut steps)?;
    m.remove_pair(Elem::Int(1), Elem::Int(10), &mut steps);
    m.put(Elem::Int(1), Elem::Int(11), &mut steps)?;
    let first = m.first_key(&mut steps);
    let last = m.last_key(&mut steps);
    Ok((grew, first, last, m.count_of(Elem::Int(2), &mut steps)))
}

/// 1 to 10 and 11 around 2 to 20, then 1 to 12, 13 and 12 in their stead, and 1 goes last, and the first pair: the first
/// and the last key, the number of pairs, and whether 1 has two.
fn moved<L: Ledger>(
    alloc: Global,
    blank: Blank,
) -> Result<(Option<Elem>, Option<Elem>, usize, bool), NoMemory>
    requires name { blank.name ≡ L.name }
    requires parts { blank.parts ≡ L.parts }
    requires some { 0 < blank.parts }
{
    let mut steps = Steps::<L>::new(blank);
    let mut m = LinkedPairs::new(alloc)?;
    m.put(Elem::Int(1), Elem::Int(10), &mut steps)?;
    m.put(Elem::Int(2), Elem::Int(20), &mut steps)?;
    m.put(Elem::Int(1), Elem::Int(11), &mut steps)?;
    let values = [Elem::Int(12), Elem::Int(13), Elem::Int(12)];
    m.replace_values(Elem::Int(1), &values, &mut steps)?;
    if m.count_of(Elem::Int(1), &mut steps) > 0 {
        m.key_to_end(Elem::Int(1), &mut steps);
    }
    if let Some(first) = m.first_pair(&mut steps) {
        m.to_end(first, &mut steps);
    }
    let first = m.first_key(&mut steps);
    let last = m.last_key(&mut steps);
    let two = m.count_of(Elem::Int(1), &mut steps) == 2;
    Ok((first, last, m.len(), two))
}

/// 1 to 10, 2 to 20, 1 to 11 and 12 before it, 2 gets 21 and 22, and 1 goes last: the number of pairs, the first
/// and the last key, and whether 1 has 12.
fn grouped<L: Ledger>(
    alloc: Global,
    blank: Blank,
) -> Result<(usize, Option<Elem>, Option<Elem>, bool), NoMemory>
    requires name { blank.name ≡ L.name }
    requires parts { blank.parts ≡ L.parts }
    requires some { 0 < blank.parts }
{
    let mut steps = Steps::<L>::new(blank);
    let mut m = GroupedLists::new(alloc)?;
    m.put(Elem::Int(1), Elem::Int(10), &mut steps)?;
    m.put(Elem::Int(2), Elem::Int(20), &mut steps)?;
    m.put(Elem::Int(1), Elem::Int(11), &mut steps)?;
    m.put_at(Elem::Int(1), 0, Elem::Int(12), &mut steps)?;
    let values = [Elem::Int(21), Elem::Int(22)];
    m.replace_values(Elem::Int(2), &values, &mut steps)?;
    if m.count_of(Elem::Int(1), &mut steps) > 0 {
        m.key_to_end(Elem::Int(1), &mut steps);
    }
    m.remove_pair(Elem::Int(1), Elem::Int(10), &mut steps);
    let first = m.first_key(&mut steps);
    let last = m.last_key(&mut steps);
    let there = m.has(Elem::Int(1), Elem::Int(12), &mut steps);
    Ok((m.len(), first, last, there))
}

#[test]
fn a_key_goes_last(rt: HostRuntime) -> Result<(), Fail> {
    let (first, last, len, two) = moved::<Brand>(rt.alloc(), Blank::new(1))
        .ok()
        .ok_or("memory")?;
    assert_eq!(rt; first, Some(Elem::Int(2)));
    assert_eq!(rt; last, Some(Elem::Int(1)));
    assert_eq!(rt; len, 3);
    assert_eq!(rt; two, true);
    Ok(())
}

#[test]
fn groups_stand_together(rt: HostRuntime) -> Result<(), Fail> {
    let (len, first, last, there) = grouped::<Brand>(rt.alloc(), Blank::new(1))
        .ok()
        .ok_or("memory")?;
    assert_eq!(rt; len, 4);
    assert_eq!(rt; first, Some(Elem::Int(2)));
    assert_eq!(rt; last, Some(Elem::Int(1)));
    assert_eq!(rt; there, true);
    Ok(())
}

#[test]
fn values_are_replaced_in_place(rt: HostRuntime) -> Result<(), Fail> {
    let (len, first, last, kept) = flat::<Brand>(rt.alloc(), Blank::new(1))
        .ok()
        .ok_or("memory")?;
    assert_eq!(rt; len, 4);
    assert_eq!(rt; first, Some(Elem::Int(1)));
    assert_eq!(rt; last, Some(Elem::Int(2)));
    assert_eq!(rt; kept, false);
    Ok(())
}

#[test]
fn pairs_and_keys_go(rt: HostRuntime) -> Result<(), Fail> {
    let (removed, gone, len, cleared) = fewer::<Brand>(rt.alloc(), Blank::new(1))
        .ok()
        .ok_or("memory")?;
    assert_eq!(rt; removed, true);
    assert_eq!(rt; gone, 1);
    assert_eq!(rt; len, 1);
    assert_eq!(rt; cleared, 0);
    Ok(())
}

#[test]
fn a_key_that_comes_back_goes_last(rt: HostRuntime) -> Result<(), Fail> {
    let (grew, first, last, count) = linked::<Brand>(rt.alloc(), Blank::new(1))
        .ok()
        .ok_or("memory")?;
    assert_eq!(rt; grew, false);
    assert_eq!(rt; first, Some(Elem::Int(2)));
    assert_eq!(rt; last, Some(Elem::Int(1)));
    assert_eq!(rt; count, 1);
    Ok(())
}
