//! The bases of a session, and the names of views of them and of iterators.
ghost use Rattle.std.specs.Prelude.{max, false, ◌+◌, ◌≡◌, ◌≤◌, ◌^◌, ◌-◌, true, length, IfErr, IfSome, OnErr, OnOk};
ghost use Rattle.script_text.specs.Names.{kind_text};
ghost use Rattle.session.specs.Binding.{IsFull, IsSeatOver, KeepsNodes, view_bound};
ghost use Rattle.session.specs.Bounds.{AsksAtMost, most_for_words};
ghost use Rattle.session.specs.Executing.{Executed};
ghost use Rattle.session.specs.Following.{IsEnd, parts_in};
ghost use Rattle.machine.specs.Languages.{known, only_if};
ghost use Rattle.machine.specs.Lines.{eval_of};
ghost use Rattle.machine.specs.Naming.{it_of, let_of, new_of};
ghost use Rattle.machine.specs.State.{empty, named as bound_to};
ghost use Rattle.vocabulary.specs.Known as language;
ghost use Rattle.vocabulary.specs.Kinds as kinds;
ghost use Rattle.machine.specs.RowCounts.{ChangesUpTo};
ghost use Rattle.base_store.specs.Stored.{with_kept};
ghost use Rattle.vocabulary.specs.Limits.{most_handles};

use crate::bound::Bound;
use crate::evaluating::{evaluate, say_fault};
use crate::faults::ExecFault;
use crate::following::{End, follow};
use crate::iterating::{asked_of, turn};
use crate::names::IndexMap;
use crate::printing::known_shape;
use crate::replies::{Reply, refuse, say};
use crate::typing::{iterator_fault, type_words};
use base_store::Store;
use cursor_seat::Seat;
use elem::{Sink, Steps, Word};
use hash_seed::Seed;
use script_text::{KindName, Part};
use std::alloc::Global;
use std::marker::Model;
use std::sync::ledger::Ledger;
use vocabulary::{Kind, Purpose, Refusal, is_known_kind, kind_named};

/// Bases, and names that stand for views of them and iterators over these.
#[derive(Drop)]
pub struct Environment {
    store: Store,
    names: IndexMap<Word, Bound>,
}

impl Model for Environment {
    ghost use Rattle.machine.specs.State.{State};
    ghost use Rattle.std.specs.Coded.{codes};
    ghost use Rattle.session.specs.Codes.{bound_code};

    ghost Value = { State };

    ghost coded = { Prim.hlevel (codes, bound_code) };

    ghost use Rattle.session.specs.Coming.{seen_as};
    ghost use Rattle.session.specs.Environment.{IsSettled, named};

    ghost view = { λ e. seen_as e.store (named e.store.nodes e.names.entries) };

    ghost invariant = { λ e. IsSettled e.store e.names.entries };
}

impl Environment {
    /// An environment in which nothing is there, and what comes is hashed by a seed. It takes no memory.
    pub fn with_hasher(alloc: Global, seed: Seed) -> Environment
        ensures { result ≡ empty }
    {
        Environment {
            store: Store::with_hasher(alloc, seed),
            names: IndexMap::with_hasher(alloc, seed),
        }
    }

    /// Makes a base, and gives it a name. What can fail comes first: room for the name, then the base.
    pub fn make<S: Sink>(
        &mut self,
        name: Word,
        kind: &KindName,
        reply: &mut Reply,
        out: &mut S,
    ) -> Result<(), ExecFault>
        ensures { Executed result self.old self.new (new_of self.old name (only_if language.is_known_kind (kinds.kind_named (kind_text kind.now)))) (S.taken out.old) (S.taken out.new) (S.faults out.old) (S.faults out.new) }
    {
        let Some(kind) = known_kind(kind) else {
            return say(reply, out, b"?call");
        };
        if self.names.reserve(1).is_err() {
            return Err(ExecFault::NoMemory);
        }
        match self.store.new_base(kind) {
            Ok(node) => {
                self.store.is_lawful(node);
                let _ = self.names.insert(name, Bound::View(node));
                say(reply, out, b"ok")
            }
            Err(refusal) => refuse(reply, out, refusal),
        }
    }

    /// Gives a name to the view that the words behind a name lead to.
    pub fn bind<S: Sink>(
        &mut self,
        name: Word,
        head: Word,
        line: &[u8],
        parts: &[Part],
        reply: &mut Reply,
        out: &mut S,
    ) -> Result<(), ExecFault>
        requires { length line.now ≤ 1024 }
        ensures { Executed result self.old self.new (let_of known self.old name (bound_to self.old.names head) (parts_in line.now parts.now)) (S.taken out.old) (S.taken out.new) (S.faults out.old) (S.faults out.new) }
    {
        let Some(bound) = self.names.get(&head) else {
            return say(reply, out, b"?name");
        };
        let Bound::View(head) = *bound else {
            return say(reply, out, b"?call");
        };
        let shape = known_shape(&self.store, head);
        let typed = type_words(&self.store, &self.names, Purpose::Name, shape, line, parts);
        if let Err(fault) = typed {
            return say_fault(reply, out, fault);
        }
        let end = follow(
            &mut self.store,
            &self.names,
            head,
            Purpose::Name,
            line,
            parts,
        );
        let bound = view_of(&end);
        let handles = handles_of(parts.len());
        let is_full = self.names.reserve(1).is_err();
        match keep_bound(&mut self.store, &bound, is_full, handles) {
            Ok(bound) => {
                self.store.is_lawful(head);
                let _ = self.names.insert(name, bound);
                say(reply, out, b"ok")
            }
            Err(refusal) => refuse(reply, out, refusal),
        }
    }

    /// Gives a name to an iterator over the view that the words behind a name lead to.
    pub fn iterate<S: Sink>(
        &mut self,
        name: Word,
        head: Word,
        line: &[u8],
        parts: &[Part],
        reply: &mut Reply,
        out: &mut S,
    ) -> Result<(), ExecFault>
        requires { length line.now ≤ 1024 }
        ensures { Executed result self.old self.new (it_of known self.old name (bound_to self.old.names head) (parts_in line.now parts.now)) (S.taken out.old) (S.taken out.new) (S.faults out.old) (S.faults out.new) }
    {
        let Some(bound) = self.names.get(&head) else {
            return say(reply, out, b"?name");
        };
        let Bound::View(head) = *bound else {
            return say(reply, out, b"?call");
        };
        let shape = known_shape(&self.store, head);
        let typed = type_words(
            &self.store,
            &self.names,
            Purpose::Iterator,
            shape,
            line,
            parts,
        );
        if let Some(fault) = iterator_fault(&typed) {
            return say_fault(reply, out, fault);
        }
        let end = follow(
            &mut self.store,
            &self.names,
            head,
            Purpose::Iterator,
            line,
            parts,
        );
        let bound = seat_over(&self.store, &end);
        let handles = parts.len() + 1;
        let is_full = self.names.reserve(1).is_err();
        match keep_bound(&mut self.store, &bound, is_full, handles) {
            Ok(bound) => {
                self.store.is_lawful(head);
                let _ = self.names.insert(name, bound);
                say(reply, out, b"ok")
            }
            Err(refusal) => refuse(reply, out, refusal),
        }
    }

    /// Evaluates the words behind a name.
    pub fn eval<S: Sink, L: Ledger>(
        &mut self,
        head: Word,
        line: &[u8],
        parts: &[Part],
        reply: &mut Reply,
        out: &mut S,
        steps: &mut Steps<L>,
    ) -> Result<(), ExecFault>
        requires short { length line.now ≤ 1024 }
        requires change { ChangesUpTo (2 ^ 63 - 1) self.old.bases }
        ensures executed { Executed result self.old self.new (eval_of known self.old head (bound_to self.old.names head) (parts_in line.now parts.now)) (S.taken out.old) (S.taken out.new) (S.faults out.old) (S.faults out.new) }
        ensures asked { AsksAtMost (most_for_words self.old (bound_to self.old.names head) (parts_in line.now parts.now)) steps.old steps.new }
    {
        let Some(bound) = self.names.get(&head) else {
            return say(reply, out, b"?name");
        };
        match *bound {
            Bound::View(node) => {
                let store = &mut self.store;
                let result = evaluate(store, &self.names, node, line, parts, reply, out, steps);
                self.store.is_lawful(node);
                result
            }
            Bound::Iterator(seat) => {
                let mut seat = seat;
                let word = asked_of(parts);
                let result = turn(&mut self.store, &mut seat, word, reply, out, steps);
                let _ = self.names.insert(head, Bound::Iterator(seat));
                result
            }
        }
    }
}

/// The kind that a word names, where it is known.
fn known_kind(name: &KindName) -> Option<Kind>
    ensures kind { result ≡ only_if language.is_known_kind (kinds.kind_named (kind_text name.now)) }
    ensures known { IfSome result (λ kind. language.is_known_kind kind ≡ true) }
{
    let kind = kind_named(name.bytes())?;
    if is_known_kind(kind) {
        Some(kind)
    } else {
        None
    }
}

/// How many handles a view takes to which so many steps lead.
fn handles_of(steps: usize) -> usize
    ensures { result ≡ max 1 steps }
{
    steps.max(1)
}

/// The view at an end, to be bound to a name.
fn view_of(end: &Result<End, Refusal>) -> Result<Bound, Refusal>
    ensures { result ≡ view_bound end.now }
{
    match end {
        Ok(end) => Ok(Bound::View(end.node())),
        Err(refusal) => Err(*refusal),
    }
}

/// An iterator over the view at an end, to be bound to a name.
fn seat_over(store: &Store, end: &Result<End, Refusal>) -> Result<Bound, Refusal>
    requires { IsEnd store.now end.now }
    ensures { IsSeatOver store.now end.now result }
{
    match end {
        Ok(end) => Ok(Bound::Iterator(Seat::over(store, end.node()))),
        Err(refusal) => Err(*refusal),
    }
}

/// Makes the temporary nodes last, for so many handles, where there is room for a name, and gives what stands at an end.
/// Where this is refused, the nodes on the way there end.
fn keep_bound(
    store: &mut Store,
    bound: &Result<Bound, Refusal>,
    is_full: bool,
    handles: usize,
) -> Result<Bound, Refusal>
    ensures { KeepsNodes result bound.now is_full store.old store.new handles }
{
    let kept = match bound {
        Ok(_) => keep(store, is_full, handles),
        Err(refusal) => Err(*refusal),
    };
    match kept {
        Ok(()) => *bound,
        Err(refusal) => {
            store.drop_temporary();
            Err(refusal)
        }
    }
}

/// Makes the temporary nodes last, for so many handles, where there is room for a name.
fn keep(store: &mut Store, is_full: bool, handles: usize) -> Result<(), Refusal>
    ensures ok { OnOk result ((store.new ≡ with_kept store.old handles) × (store.old.handles + handles ≤ most_handles) × (is_full ≡ false)) }
    ensures err { OnErr result (store.new ≡ store.old) }
    ensures cause { IfErr result (λ why. IsFull store.old handles why) }
{
    if is_full {
        return Err(Refusal::NoMemory);
    }
    store.keep(handles)
}
