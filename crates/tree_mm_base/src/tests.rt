//! Each public call once.
ghost use Rattle.std.specs.Prelude.{◌≡◌, ◌<◌};

use crate::{TreePairId, TreePairs};
use elem::{Cut, Elem, NoMemory, Steps};
use std::alloc::Global;
use std::marker::Brand;
use std::sync::ledger::{Blank, Ledger};
use std::test::Fail;

/// What a small multimap tells.
#[derive(Drop)]
struct Summary {
    again: bool,
    first_key: Option<Elem>,
    last_key: Option<Elem>,
    above: Option<Elem>,
    below: Option<Elem>,
    value_above: Option<(Elem, Elem)>,
    value_below: Option<(Elem, Elem)>,
    second: Option<(Elem, Elem)>,
    replaced: usize,
    kept: bool,
    gone: usize,
    len: usize,
}

/// The pair of an id.
fn pair_of(id: Option<TreePairId>) -> Option<(Elem, Elem)> {
    match id {
        Some(id) => Some(id.pair()),
        None => None,
    }
}

/// 2 has 20, 1 has 11 and 10, then 1 has 12 in their place.
fn told<L: Ledger>(alloc: Global, blank: Blank) -> Result<Summary, NoMemory>
    requires name { blank.name ≡ L.name }
    requires parts { blank.parts ≡ L.parts }
    requires some { 0 < blank.parts }
{
    let mut steps = Steps::<L>::new(blank);
    let mut m = TreePairs::new(alloc)?;
    m.put(Elem::Int(2), Elem::Int(20), &mut steps)?;
    m.put(Elem::Int(1), Elem::Int(11), &mut steps)?;
    m.put(Elem::Int(1), Elem::Int(10), &mut steps)?;
    let again = m.put(Elem::Int(1), Elem::Int(11), &mut steps)?;
    let cut = Cut::Above(Elem::Int(1));
    let first_key = m.first_key(&mut steps);
    let last_key = m.last_key(&mut steps);
    let above = m.first_key_from(&cut, &mut steps);
    let below = m.last_key_to(&cut, &mut steps);
    let middle = Cut::Below(Elem::Int(11));
    let value_above = pair_of(m.first_pair_from(Elem::Int(1), &middle, &mut steps));
    let value_below = pair_of(m.last_pair_to(Elem::Int(1), &middle, &mut steps));
    let second = pair_of(m.at(Elem::Int(1), 1, &mut steps));
    let values = [Elem::Int(12), Elem::Int(12)];
    m.replace_values(Elem::Int(1), &values, &mut steps)?;
    let replaced = m.count_of(Elem::Int(1), &mut steps);
    let kept = m.has(Elem::Int(1), Elem::Int(11), &mut steps);
    let gone = m.remove_key(Elem::Int(2), &mut steps);
    Ok(Summary {
        again,
        first_key,
        last_key,
        above,
        below,
        value_above,
        value_below,
        second,
        replaced,
        kept,
        gone,
        len: m.len(),
    })
}

/// The pairs of a walk through 2 and 20, 1 and 11, and 1 and 10, the keys beside 1, and the size after 1 and 10, and 1
/// and 11 go, and after all goes.
fn walked<L: Ledger>(
    alloc: Global,
    blank: Blank,
) -> Result<
    (
        Option<(Elem, Elem)>,
        Option<Elem>,
        Option<Elem>,
        usize,
        usize,
    ),
    NoMemory,
>
    requires name { blank.name ≡ L.name }
    requires parts { blank.parts ≡ L.parts }
    requires some { 0 < blank.parts }
{
    let mut steps = Steps::<L>::new(blank);
    let mut m = TreePairs::new(alloc)?;
    m.put(Elem::Int(2), Elem::Int(20), &mut steps)?;
    m.put(Elem::Int(1), Elem::Int(11), &mut steps)?;
    m.put(Elem::Int(1), Elem::Int(10), &mut steps)?;
    let first = pair_of(m.first_pair(&mut steps));
    let after = m.after_key(Elem::Int(1), &mut steps);
    let before = m.before_key(Elem::Int(1), &mut steps);
    m.remove_pair(Elem::Int(1), Elem::Int(10), &mut steps);
    let len = m.len();
    m.clear();
    Ok((first, after, before, len, m.len()))
}

#[test]
fn pairs_go_by_key_and_value(rt: HostRuntime) -> Result<(), Fail> {
    let told = told::<Brand>(rt.alloc(), Blank::new(1))
        .ok()
        .ok_or("memory")?;
    assert_eq!(rt; told.again, false);
    assert_eq!(rt; told.first_key, Some(Elem::Int(1)));
    assert_eq!(rt; told.last_key, Some(Elem::Int(2)));
    assert_eq!(rt; told.above, Some(Elem::Int(2)));
    assert_eq!(rt; told.below, Some(Elem::Int(1)));
    assert_eq!(rt; told.value_above, Some((Elem::Int(1), Elem::Int(11))));
    assert_eq!(rt; told.value_below, Some((Elem::Int(1), Elem::Int(10))));
    assert_eq!(rt; told.second, Some((Elem::Int(1), Elem::Int(11))));
    assert_eq!(rt; told.replaced, 1);
    assert_eq!(rt; told.kept, false);
    assert_eq!(rt; told.gone, 1);
    assert_eq!(rt; told.len, 1);
    Ok(())
}

#[test]
fn pairs_and_keys_are_walked(rt: HostRuntime) -> Result<(), Fail> {
    let (first, after, before, len, cleared) = walked::<Brand>(rt.alloc(), Blank::new(1))
        .ok()
        .ok_or("memory")?;
    assert_eq!(rt; first, Some((Elem::Int(1), Elem::Int(10))));
    assert_eq!(rt; after, Some(Elem::Int(2)));
    assert_eq!(rt; before, None);
    assert_eq!(rt; len, 2);
    assert_eq!(rt; cleared, 0);
    Ok(())
}
