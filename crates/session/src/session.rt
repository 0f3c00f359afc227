//! A session: the lines that are executed, one after another.
ghost use Rattle.std.specs.Prelude.{◌≡◌, ℕ, ◌+◌, ◌^◌, ◌-◌, ◌≤◌, true, Err, OnOk};
ghost use Rattle.elem.specs.Outside.{Rose};
ghost use Rattle.session.specs.Bounds.{AsksAtMost, most_asked};
ghost use Rattle.session.specs.Executing.{Executed};
ghost use Rattle.session.specs.Replying.{Wrote};
ghost use Rattle.machine.specs.Languages.{known};
ghost use Rattle.machine.specs.Lines.{step};
ghost use Rattle.machine.specs.Outcomes.{written};
ghost use Rattle.machine.specs.State.{empty};
ghost use Rattle.machine.specs.RowCounts.{ChangesUpTo};

use crate::environment::Environment;
use crate::faults::ExecFault;
use crate::replies::{Reply, say};
use arrayvec::ArrayVec;
use elem::{Sink, Steps};
use hash_seed::Seed;
use script_text::{Line, Part, read_line};
use std::alloc::Global;
use std::marker::Model;
use std::sync::ledger::Ledger;

/// Collections by their names, and the lines that make, show and change them.
///
/// A session keeps two buffers for the line at hand, its words and its reply, so that a line takes no memory but for what
/// it adds to a collection.
#[derive(Drop)]
pub struct Session {
    environment: Environment,
    parts: ArrayVec<Part, 512>,
    reply: Reply,
}

impl Model for Session {
    ghost use Rattle.machine.specs.State.{State};
    ghost use Rattle.std.specs.Coded.{codes};
    ghost use Rattle.session.specs.Codes.{bound_code};

    ghost Value = { State };

    ghost coded = { Prim.hlevel (codes, bound_code) };

    ghost view = { λ session. session.environment };
}

impl Session {
    /// A session in which nothing is there, under the fixed seed. It takes no memory.
    pub fn empty(alloc: Global) -> Session
        ensures { result ≡ empty }
    {
        Session::with_hasher(alloc, Seed::fixed())
    }

    /// A session in which nothing is there. Names and rows are to be hashed by the seed. It takes no memory.
    pub fn with_hasher(alloc: Global, seed: Seed) -> Session
        ensures { result ≡ empty }
    {
        Session {
            environment: Environment::with_hasher(alloc, seed),
            parts: ArrayVec::new(),
            reply: Reply::new(),
        }
    }

    /// Executes a line, given without its newline: writes its reply and a newline, or nothing where there is no reply.
    ///
    /// # Errors
    ///
    /// `WriteFault` where the sink failed: a front of the reply may have gone there, and the line was executed or not.
    /// `NoMemory` where memory ran out: nothing was written and nothing has changed. No line wants memory but those that
    /// make a base, give a name to a view or an iterator, leave more rows, or add or remove what another view shows.
    pub fn exec<S: Sink, L: Ledger>(
        &mut self,
        line: &[u8],
        out: &mut S,
        steps: &mut Steps<L>,
    ) -> Result<(), ExecFault>
        requires { ChangesUpTo (2 ^ 63 - 1) self.old.bases }
        ensures ok { OnOk result (self.new ≡ (step known self.old line.now).after) }
        ensures reply { Wrote result (S.taken out.old) (S.taken out.new) (written (step known self.old line.now).reply) }
        ensures unchanged { result ≡ Err ExecFault.NoMemory → self.new ≡ self.old }
        ensures memory { result ≡ Err ExecFault.NoMemory → (step known self.old line.now).memory ≡ true }
        ensures changes { (n : ℕ) → ChangesUpTo n self.old.bases → ChangesUpTo (n + 1) self.new.bases }
        ensures asked { AsksAtMost (most_asked self.old line.now) steps.old steps.new }
        ensures later { S.faults out.old ≤ S.faults out.new }
        ensures cause { result ≡ Err ExecFault.WriteFault → Rose (S.faults out.old) (S.faults out.new) }
    {
        self.execute(line, out, steps)
    }

    fn execute<S: Sink, L: Ledger>(
        &mut self,
        line: &[u8],
        out: &mut S,
        steps: &mut Steps<L>,
    ) -> Result<(), ExecFault>
        requires { ChangesUpTo (2 ^ 63 - 1) self.old.bases }
        ensures executed { Executed result self.old self.new (step known self.old line.now) (S.taken out.old) (S.taken out.new) (S.faults out.old) (S.faults out.new) }
        ensures asked { AsksAtMost (most_asked self.old line.now) steps.old steps.new }
    {
        match read_line(line, &mut self.parts) {
            Line::Blank => Ok(()),
            Line::Long => say(&mut self.reply, out, b"?long"),
            Line::Syntax => say(&mut self.reply, out, b"?syntax"),
            Line::New { name, kind } => self.environment.make(name, &kind, &mut self.reply, out),
            Line::Let { name, head } => {
                let parts = self.parts.as_slice();
                self.environment
                    .bind(name, head, line, parts, &mut self.reply, out)
            }
            Line::It { name, head } => {
                let parts = self.parts.as_slice();
                self.environment
                    .iterate(name, head, line, parts, &mut self.reply, out)
            }
            Line::Eval { head } => {
                let parts = self.parts.as_slice();
                self.environment
                    .eval(head, line, parts, &mut self.reply, out, steps)
            }
        }
    }
}
