//! Steps as nodes keep them: small, with the parts of a predicate or a function in a table.
ghost use Rattle.std.specs.Prelude.{◌≡◌, ◌+◌, ◌++◌, ◌<◌, ◌≤◌, ◌^◌, length, true};
ghost use Rattle.view_steps.specs.KnownViews.{is_known};
ghost use Rattle.base_store.specs.KeptSteps.{StandsIn, parts_of, run_in, step_in};

use super::facts::Facts;
use arrayvec::ArrayVec;
use elem::Window;
use fn_lang::{FuncRef, PairPredRef, Part, PredRef};
use vocabulary::{ChangeStep, FilterStep, Kind, Order, PlainStep, Step};

/// Parts that stand one behind another in a table: the number of the first, and how many they are.
#[derive(Clone, Copy)]
pub struct Run {
    pub start: usize,
    pub len: usize,
}

/// A step, as a node keeps it.
#[derive(Clone, Copy)]
pub enum KeptStep {
    Plain(PlainStep),
    Filter(FilterStep, Run),
    FilterPairs(Run),
    Change(ChangeStep, Run),
    Within(Order, Window),
}

/// How a node was made: it is the base of a number, or a step over the node of a number.
#[derive(Clone, Copy)]
pub enum KeptMade {
    Base(usize),
    Over(KeptStep, usize),
}

/// A node: how it was made, and its facts.
#[derive(Clone, Copy)]
pub struct Kept {
    pub made: KeptMade,
    pub facts: Facts,
}

impl Default for Kept {
    fn default() -> Kept {
        Kept {
            made: KeptMade::Base(0),
            facts: Facts::of_base(0, Kind::LinkedHashMap, false),
        }
    }
}

impl Run {
    /// The parts, in a table whose first part has the number `from`.
    fn lent<'a>(&self, parts: &'a [Part], from: usize) -> &'a [Part]
        requires behind { from ≤ self.now.start }
        requires within { self.now.start + self.now.len ≤ from + length parts.now }
        ensures parts { result.now ≡ run_in from parts.now self.now }
        ensures len { length result.now ≡ self.now.len }
    {
        let start = self.start - from;
        &parts[start..start + self.len]
    }
}

/// The step that a node keeps, by a table whose first part has the number `from`.
pub(super) fn lent_step<'a>(step: &KeptStep, parts: &'a [Part], from: usize) -> Step<'a>
    requires { StandsIn from parts.now step.now }
    ensures { result ≡ step_in from parts.now step.now }
{
    match step {
        KeptStep::Plain(word) => Step::Plain(*word),
        KeptStep::Filter(word, run) => {
            Step::Filter(*word, PredRef::of_parts(run.lent(parts, from)))
        }
        KeptStep::FilterPairs(run) => {
            Step::FilterPairs(PairPredRef::of_parts(run.lent(parts, from)))
        }
        KeptStep::Change(word, run) => {
            Step::Change(*word, FuncRef::of_parts(run.lent(parts, from)))
        }
        KeptStep::Within(order, window) => Step::Within(*order, *window),
    }
}

/// The known step as a node keeps it, whose parts are added to a table. The first part of the table has the number
/// `from`.
pub(super) fn kept_step(step: &Step, parts: &mut ArrayVec<Part, 2048>, from: usize) -> KeptStep
    requires room { length parts.old.items + 64 ≤ 2048 }
    requires low { from < 2 ^ 63 }
    requires known { is_known step.now ≡ true }
    ensures parts { parts.new.items ≡ parts.old.items ++ parts_of step.now }
    ensures few { length (parts_of step.now) ≤ 64 }
    ensures stands { StandsIn from parts.new.items result }
    ensures step { step_in from parts.new.items result ≡ step.now }
{
    match step {
        Step::Plain(word) => KeptStep::Plain(*word),
        Step::Filter(word, p) => KeptStep::Filter(*word, add_parts(parts, from, p.parts())),
        Step::FilterPairs(q) => KeptStep::FilterPairs(add_parts(parts, from, q.parts())),
        Step::Change(word, f) => KeptStep::Change(*word, add_parts(parts, from, f.parts())),
        Step::Within(order, window) => KeptStep::Within(*order, *window),
        _ => unreachable!(),
    }
}

/// Adds parts to a table.
fn add_parts(parts: &mut ArrayVec<Part, 2048>, from: usize, more: &[Part]) -> Run
    requires room { length parts.old.items + length more.now ≤ 2048 }
    requires low { from < 2 ^ 63 }
    ensures parts { parts.new.items ≡ parts.old.items ++ more.now }
    ensures start { result.start ≡ from + length parts.old.items }
    ensures len { result.len ≡ length more.now }
    ensures run { run_in from parts.new.items result ≡ more.now }
{
    let start = from + parts.len();
    let _fits = parts.try_extend_from_slice(more);
    Run {
        start,
        len: more.len(),
    }
}
