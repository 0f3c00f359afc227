//! The nodes of a store: how each was made, and what is constant of its view.
ghost use Rattle.std.specs.Prelude.{◌≡◌, ◌+◌, ◌<◌, [], Some, length, map, slice_get, true, OnOk, OnErr};
ghost use Rattle.view_steps.specs.KnownViews.{is_known};
ghost use Rattle.base_store.specs.KeptSteps.{AllStand, made_in};
ghost use Rattle.base_store.specs.NodeLists.{all_kept, front, with_lasting, with_temporary};
ghost use Rattle.base_store.specs.declared.store.Made.TheVariants.{Base as base_node, Over as step_node};

use super::Made;
use super::facts::Facts;
use super::kept::{Kept, KeptMade, kept_step, lent_step};
use arrayvec::ArrayVec;
use elem::NoMemory;
use fn_lang::Part;
use std::alloc::Global;
use std::marker::Model;
use vocabulary::Step;

/// Nodes by their numbers: those that last, and behind them the temporary ones. The parts of their predicates and
/// functions stand in two tables in the same way.
#[derive(Drop)]
pub struct Nodes {
    lasting: Vec<Kept>,
    temporary: ArrayVec<Kept, 32>,
    parts: Vec<Part>,
    temporary_parts: ArrayVec<Part, 2048>,
}

impl Model for Nodes {
    ghost use Rattle.base_store.specs.NodeLists.{NodeList};

    ghost Value = { NodeList };

    ghost use Rattle.base_store.specs.Codes.{made_code};
    ghost use Rattle.base_store.specs.contracts.store.facts.Facts as facts;
    ghost use Rattle.std.specs.Coded.{codes};

    ghost coded = { Prim.hlevel (codes, made_code, facts.the_row.coded) };

    ghost use Rattle.base_store.specs.KeptSteps.{AreTabled, listed};

    ghost view = { λ s. listed s.parts.items s.temporary_parts.items s.lasting.items s.temporary.items };

    ghost invariant = { λ s. AreTabled s.parts.items s.temporary_parts.items s.lasting.items s.temporary.items };
}

impl Nodes {
    /// No nodes.
    pub(super) fn new(alloc: Global) -> Nodes
        ensures { result ≡ record { made = []; facts = []; lasting = 0 } }
    {
        Nodes {
            lasting: Vec::new(alloc),
            temporary: ArrayVec::new(),
            parts: Vec::new(alloc),
            temporary_parts: ArrayVec::new(),
        }
    }

    /// How many nodes there are.
    pub(super) fn count(&self) -> usize
        ensures count { result ≡ length self.now.made }
    {
        self.lasting.len() + self.temporary.len()
    }

    /// How many nodes last.
    pub(super) fn lasting(&self) -> usize
        ensures lasting { result ≡ self.now.lasting }
    {
        self.lasting.len()
    }

    /// How a node was made.
    pub(super) fn made(&self, n: usize) -> Made<'_>
        requires { n < length self.now.made }
        ensures { slice_get self.now.made n ≡ Some result }
    {
        let lasting = self.lasting.as_slice();
        let parts = self.parts.as_slice();
        if n < lasting.len() {
            made_of(lasting, parts, 0, n)
        } else {
            let temporary = self.temporary.as_slice();
            let from = parts.len();
            made_of(
                temporary,
                self.temporary_parts.as_slice(),
                from,
                n - lasting.len(),
            )
        }
    }

    /// The facts of a node.
    pub(super) fn facts(&self, n: usize) -> &Facts
        requires { n < length self.now.made }
        ensures { slice_get self.now.facts n ≡ Some result.now }
    {
        let lasting = self.lasting.len();
        if n < lasting {
            let node = &self.lasting.as_slice()[n];
            &node.facts
        } else {
            let node = &self.temporary.as_slice()[n - lasting];
            &node.facts
        }
    }

    /// Adds a temporary node: a step over the node of a number. It takes no memory.
    pub(super) fn push_step(&mut self, step: &Step, parent: usize, facts: Facts)
        requires room { length self.old.made < self.old.lasting + 32 }
        requires known { is_known step.now ≡ true }
        ensures { self.new ≡ with_temporary self.old (step_node step.now parent) facts }
    {
        let from = self.parts.as_slice().len();
        let kept = kept_step(step, &mut self.temporary_parts, from);
        self.temporary.push(Kept {
            made: KeptMade::Over(kept, parent),
            facts,
        });
    }

    /// Adds a lasting node: the base of a number. The temporary nodes end.
    pub(super) fn push_base(&mut self, b: usize, facts: Facts) -> Result<(), NoMemory>
        ensures ok { OnOk result (self.new ≡ with_lasting self.old (base_node b) facts) }
        ensures err { OnErr result (self.new ≡ self.old) }
    {
        let node = Kept {
            made: KeptMade::Base(b),
            facts,
        };
        let Ok(()) = self.lasting.extend_from_slice(&[node]) else {
            return Err(NoMemory);
        };
        self.temporary.clear();
        self.temporary_parts.clear();
        Ok(())
    }

    /// Ends all temporary nodes.
    pub(super) fn drop_temporary(&mut self)
        ensures { self.new ≡ front self.old }
    {
        self.temporary.clear();
        self.temporary_parts.clear();
    }

    /// Makes the temporary nodes lasting.
    pub(super) fn keep(&mut self) -> Result<(), NoMemory>
        ensures ok { OnOk result (self.new ≡ all_kept self.old) }
        ensures err { OnErr result (self.new ≡ self.old) }
    {
        let before = self.parts.len();
        let Ok(()) = self
            .parts
            .extend_from_slice(self.temporary_parts.as_slice())
        else {
            return Err(NoMemory);
        };
        let Ok(()) = self.lasting.extend_from_slice(self.temporary.as_slice()) else {
            self.parts.truncate(before);
            return Err(NoMemory);
        };
        self.temporary.clear();
        self.temporary_parts.clear();
        Ok(())
    }
}

/// How the node of a number was made, by a table whose first part has the number `from`.
fn made_of<'a>(nodes: &'a [Kept], parts: &'a [Part], from: usize, n: usize) -> Made<'a>
    requires within { n < length nodes.now }
    requires stand { AllStand from parts.now nodes.now }
    ensures { slice_get (map (made_in from parts.now) nodes.now) n ≡ Some result }
{
    let node = &nodes[n];
    match &node.made {
        KeptMade::Base(b) => Made::Base(*b),
        KeptMade::Over(step, parent) => Made::Over(lent_step(step, parts, from), *parent),
    }
}
