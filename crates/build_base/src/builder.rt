ghost use Rattle.std.specs.Prelude.{◌≡◌, ◌≢◌, ◌↔◌, ◌+◌, ◌||◌, [], length, map, true, false, Err, IfOk, OnOk, OnErr};
ghost use Rattle.elem.specs.declared.build_kinds.BuildKind.TheVariants as Kind;
ghost use Rattle.build_base.specs.declared.part.Part.TheVariants.{First, Second};
ghost use Rattle.build_base.specs.Rows.{Fits, alike};
ghost use Rattle.build_base.specs.Kept.{firsts, has_twice};
ghost use Rattle.build_base.specs.Built.{AllFit, AreWhole, HasWord, IsBuilt, all_of, built, refuses, refuses_item, with_item};

use crate::counted::{count_at, count_item, counted};
use crate::firsts::{copied, firsts, lasts, once};
use crate::grouped::{grouped, grouped_once};
use crate::part::Part;
use crate::ranges::{range_map, range_set};
use crate::{BuildFault, Finish, Row};
use elem::{BuildKind, Elem, Steps, same_cut};
use std::alloc::Global;
use std::collections::HashMap;
use std::marker::Model;
use std::sync::ledger::Ledger;

/// The greatest count of one element.
const MOST: u64 = 2147483647;

/// What was added to a collection that is to be built: Guava's `ImmutableCollection.Builder`, `ImmutableMap.Builder`,
/// `ImmutableMultimap.Builder`, `ImmutableTable.Builder`, `ImmutableRangeSet.Builder` and `ImmutableRangeMap.Builder`.
///
/// Each call that takes `steps` counts one. A builder may be asked for its collection more than once.
#[derive(Drop)]
pub struct Builder {
    kind: BuildKind,
    items: Vec<Row>,
    counts: HashMap<Elem, u32>,
}

impl Model for Builder {
    ghost use Rattle.std.specs.Prelude.{◌≡◌};
    ghost use Rattle.std.specs.Map.{count_at};
    ghost use Rattle.std.specs.HashMap as hash;
    ghost use Rattle.elem.specs.declared.elements.Elem.{Elem as Element};
    ghost use Rattle.elem.specs.Elements.{same};
    ghost use Rattle.std.specs.List.{All};
    ghost use Rattle.build_base.specs.Units.{IsFilledRow};
    ghost use Rattle.build_base.specs.Built.{Build, AllFit, count_of};

    ghost Value = { Build };

    ghost view = { λ b. record { kind = b.kind; items = b.items.items } };

    ghost invariant = { λ b. AllFit b.kind b.items.items × All IsFilledRow b.items.items × ((x : Element) → count_at (hash.get same b.counts) x ≡ count_of b.items.items x) };
}

impl Builder {
    /// A builder with no items.
    pub fn new(alloc: Global, kind: BuildKind) -> Builder
        ensures { result ≡ record { kind = kind; items = [] } }
    {
        Builder {
            kind,
            items: Vec::new(alloc),
            counts: HashMap::new(alloc),
        }
    }

    /// The number of items that were added.
    pub fn len(&self) -> usize
        ensures len { result ≡ length self.now.items }
        ensures fit { AllFit self.now.kind self.now.items }
    {
        self.items.len()
    }

    /// Adds an item, last. A row of no occurrences adds none.
    pub fn add<L: Ledger>(&mut self, r: Row, steps: &mut Steps<L>) -> Result<(), BuildFault>
        requires { Fits self.old.kind r }
        ensures ok { OnOk result (self.new ≡ record { kind = self.old.kind; items = with_item self.old.items r }) }
        ensures refused { (result ≡ Err BuildFault.Refused) ↔ (refuses_item self.old.items r ≡ true) }
        ensures err { OnErr result (self.new ≡ self.old) }
        ensures step { steps.new ≡ steps.old + 1 }
    {
        steps.tick();
        if self.refuses(&r) {
            return Err(BuildFault::Refused);
        }
        if let Row::Counted(_, 0) = &r {
            return Ok(());
        }
        if self.items.reserve(1).is_err() {
            return Err(BuildFault::NoMemory);
        }
        count_item(&mut self.counts, &r)?;
        self.items.push_reserved(r);
        Ok(())
    }

    /// Whether an item is refused at once.
    fn refuses(&self, r: &Row) -> bool
        ensures { result ≡ refuses_item self.now.items r.now }
    {
        match r {
            Row::Counted(x, n) => u64::from(count_at(&self.counts, x)) + u64::from(*n) > MOST,
            Row::Range(span) => same_cut(&span.lo, &span.hi),
            Row::RangeValue(span, _) => same_cut(&span.lo, &span.hi),
            _ => false,
        }
    }

    /// The rows of the collection.
    ///
    /// A set has the first of equal elements, a multiset each element once with its count, in the order of their first
    /// adding. A multimap has the pairs of each key together, in the order of their first pairs. Ranges go in order, and
    /// those of a range set are joined where they are connected. All else stands as it was added. The fault is
    /// `Refused` where a key, a bimap's value or a cell was added twice and only one is allowed, or two ranges overlap.
    pub fn finish<L: Ledger>(
        &self,
        alloc: Global,
        how: Finish,
        steps: &mut Steps<L>,
    ) -> Result<Vec<Row>, BuildFault>
        requires { HasWord self.now.kind how }
        ensures rows { IfOk result (λ rows. IsBuilt self.now.kind how self.now.items rows.items) }
        ensures whole { IfOk result (λ rows. AreWhole self.now.kind rows.items) }
        ensures allowed { OnOk result (refuses self.now.kind how self.now.items ≡ false) }
        ensures refused { result ≡ Err BuildFault.Refused → refuses self.now.kind how self.now.items ≡ true }
        ensures step { steps.new ≡ steps.old + 1 }
    {
        steps.tick();
        let items = self.items.as_slice();
        match self.kind {
            BuildKind::List => copied(alloc, items),
            BuildKind::Set => firsts(alloc, items, &Part::First),
            BuildKind::Multiset => self.counted(alloc),
            BuildKind::Map => keyed(alloc, items, how),
            BuildKind::BiMap => paired(alloc, items),
            BuildKind::ListMultimap => grouped(alloc, items),
            BuildKind::SetMultimap => grouped_once(alloc, items),
            BuildKind::Table => once(alloc, items, &Part::Both),
            BuildKind::RangeSet => range_set(alloc, items),
            BuildKind::RangeMap => range_map(alloc, items),
        }
    }

    /// Each element once with its count.
    fn counted(&self, alloc: Global) -> Result<Vec<Row>, BuildFault>
        ensures rows { IfOk result (λ rows. rows.items ≡ map (all_of self.now.items) (firsts (alike First) self.now.items)) }
        ensures never { result ≢ Err BuildFault.Refused }
    {
        let heads = firsts(alloc, self.items.as_slice(), &Part::First)?;
        counted(alloc, &heads, &self.counts)
    }
}

/// The pairs of a map.
fn keyed(alloc: Global, items: &[Row], how: Finish) -> Result<Vec<Row>, BuildFault>
    requires { HasWord Kind.Map how }
    ensures rows { IfOk result (λ rows. rows.items ≡ built Kind.Map how items.now) }
    ensures allowed { OnOk result (refuses Kind.Map how items.now ≡ false) }
    ensures refused { result ≡ Err BuildFault.Refused → refuses Kind.Map how items.now ≡ true }
{
    match how {
        Finish::KeepingLast => lasts(alloc, items, &Part::First),
        _ => once(alloc, items, &Part::First),
    }
}

/// The pairs of a bimap.
fn paired(alloc: Global, items: &[Row]) -> Result<Vec<Row>, BuildFault>
    ensures rows { IfOk result (λ rows. rows.items ≡ items.now) }
    ensures allowed { OnOk result ((has_twice (alike First) items.now || has_twice (alike Second) items.now) ≡ false) }
    ensures refused { result ≡ Err BuildFault.Refused → (has_twice (alike First) items.now || has_twice (alike Second) items.now) ≡ true }
{
    let _keys = once(alloc, items, &Part::First)?;
    once(alloc, items, &Part::Second)
}
