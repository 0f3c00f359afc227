//! A script that comes in pieces: each line is executed as its newline comes.
ghost use Rattle.std.specs.Prelude.{◌≡◌, ℕ, ◌+◌, ◌^◌, ◌-◌, ◌≤◌, ◌++◌, ◌∷◌, [], length, IfNone, IfSome, OnOk, OnErr, Err};
ghost use Rattle.elem.specs.Outside.{Rose};
ghost use Rattle.machine.specs.RowCounts.{ChangesUpTo};
ghost use Rattle.session.specs.Replying.{Wrote};
ghost use Rattle.shelf.specs.Feed.{Fed, FedFront, FedWhole, IsOneLine, replies_on};

use crate::line_buffer::LineBuffer;
use elem::{Sink, Steps};
use memchr::memchr;
use session::{ExecFault, Session};
use std::sync::ledger::Ledger;

/// Executes the line that a text ends. A line that lies whole in its piece is executed from there.
fn take_line<S: Sink, L: Ledger>(
    session: &mut Session,
    line: &mut LineBuffer,
    text: &[u8],
    sink: &mut S,
    steps: &mut Steps<L>,
) -> Result<(), ExecFault>
    requires changes { ChangesUpTo (2 ^ 63 - 1) session.old.bases }
    requires one { IsOneLine text.now }
    ensures ok { OnOk result (Fed session.old session.new line.old line.new (text.now ++ 10 ∷ []) (S.taken sink.old) (S.taken sink.new)) }
    ensures err { OnErr result (FedFront session.old line.old (text.now ++ 10 ∷ []) (S.taken sink.old) (S.taken sink.new)) }
    ensures memory { result ≡ Err ExecFault.NoMemory → FedWhole session.old line.old (text.now ++ 10 ∷ []) (S.taken sink.old) (S.taken sink.new) }
    ensures changes { (n : ℕ) → ChangesUpTo n session.old.bases → ChangesUpTo (n + 1) session.new.bases }
    ensures later { S.faults sink.old ≤ S.faults sink.new }
    ensures cause { result ≡ Err ExecFault.WriteFault → Rose (S.faults sink.old) (S.faults sink.new) }
{
    if line.is_empty() {
        return session.exec(text, sink, steps);
    }
    line.extend(text);
    let done = session.exec(line.bytes(), sink, steps);
    line.clear();
    done
}

/// Takes a piece of a script.
pub fn feed<S: Sink, L: Ledger>(
    session: &mut Session,
    line: &mut LineBuffer,
    piece: &[u8],
    sink: &mut S,
    steps: &mut Steps<L>,
) -> Result<(), ExecFault>
    requires changes { ChangesUpTo (2 ^ 61) session.old.bases }
    requires piece { length piece.now ≤ 2 ^ 61 }
    ensures ok { OnOk result (Fed session.old session.new line.old line.new piece.now (S.taken sink.old) (S.taken sink.new)) }
    ensures err { OnErr result (FedFront session.old line.old piece.now (S.taken sink.old) (S.taken sink.new)) }
    ensures memory { result ≡ Err ExecFault.NoMemory → FedWhole session.old line.old piece.now (S.taken sink.old) (S.taken sink.new) }
    ensures changes { OnOk result ((n : ℕ) → ChangesUpTo n session.old.bases → ChangesUpTo (n + length piece.now) session.new.bases) }
    ensures later { S.faults sink.old ≤ S.faults sink.new }
    ensures cause { result ≡ Err ExecFault.WriteFault → Rose (S.faults sink.old) (S.faults sink.new) }
{
    let mut rest = piece;
    while let Some((text, more)) = next_line(rest) {
        let done = take_line(session, line, text, sink, steps);
        if done.is_err() {
            return done;
        }
        rest = more;
    }
    line.extend(rest);
    Ok(())
}

/// The text up to its first newline, and what stands behind that.
fn next_line(text: &[u8]) -> Option<(&[u8], &[u8])>
    ensures found { IfSome result (λ p. (text.now ≡ (p.0.now ++ 10 ∷ []) ++ p.1.now) × IsOneLine p.0.now) }
    ensures last { IfNone result (IsOneLine text.now) }
{
    match memchr(b'\n', text) {
        Some(at) => Some((&text[..at], &text[at + 1..])),
        None => None,
    }
}

/// Executes what came of a last line, at the end of a script.
pub fn finish<S: Sink, L: Ledger>(
    session: &mut Session,
    line: &LineBuffer,
    sink: &mut S,
    steps: &mut Steps<L>,
) -> Result<(), ExecFault>
    requires { ChangesUpTo (2 ^ 63 - 1) session.old.bases }
    ensures reply { Wrote result (S.taken sink.old) (S.taken sink.new) (replies_on session.old line.now []) }
    ensures later { S.faults sink.old ≤ S.faults sink.new }
    ensures cause { result ≡ Err ExecFault.WriteFault → Rose (S.faults sink.old) (S.faults sink.new) }
{
    if line.is_empty() {
        return Ok(());
    }
    session.exec(line.bytes(), sink, steps)
}
