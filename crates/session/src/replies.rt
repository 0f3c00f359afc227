//! What is written to the sink.
ghost use Rattle.std.specs.Prelude.{◌≡◌, ◌++◌, ◌∷◌, [], true, decimal};
ghost use Rattle.std.specs.Bool.{OnFalse, OnTrue};
ghost use Rattle.session.specs.KnownShapes.{is_known_answer};
ghost use Rattle.session.specs.Replying.{Goes, Refuses, Said, nothing_pending, with_piece, flushed, sent_result};
ghost use Rattle.machine.specs.Texts.{answer_text, index_text, optional_text, truth_text};

use crate::faults::ExecFault;
use arrayvec::ArrayVec;
use elem::{Elem, Sink, write_elem};
use itoa::Buffer;
use std::marker::Model;
use vocabulary::{Answer, Refusal};

/// A reply on its way to the sink: it goes there in one piece where it is short, in pieces of at most 4 KiB where it is
/// not. After a failure of the sink nothing more goes there, until the next reply is begun.
#[derive(Drop)]
pub struct Reply {
    bytes: ArrayVec<u8, 4096>,
    failed: bool,
}

impl Model for Reply {
    ghost use Rattle.session.specs.Replying.{Pending};

    ghost Value = { Pending };

    ghost view = { λ r. record { bytes = r.bytes.items; failed = r.failed } };
}

impl Reply {
    pub fn new() -> Reply
        ensures { result ≡ nothing_pending }
    {
        Reply {
            bytes: ArrayVec::new(),
            failed: false,
        }
    }

    /// Begins a reply.
    pub fn begin(&mut self)
        ensures { self.new ≡ nothing_pending }
    {
        self.bytes.clear();
        self.failed = false;
    }

    /// Keeps a piece until it is sent, where it fits.
    fn keep(&mut self, piece: &[u8]) -> bool
        ensures kept { OnTrue result (self.new ≡ with_piece self.old piece.now) }
        ensures full { OnFalse result (self.new ≡ self.old) }
    {
        self.bytes.try_extend_from_slice(piece).is_ok()
    }

    /// Sends what is kept.
    fn flush<S: Sink>(&mut self, out: &mut S)
        ensures goes { Goes (S.taken out.old) (S.taken out.new) (S.faults out.old) (S.faults out.new) self.old self.new [] }
        ensures flushed { self.new.bytes ≡ [] }
    {
        self.failed = send(self.failed, out, self.bytes.as_slice());
        self.bytes.clear();
    }

    /// Writes a piece of the reply.
    pub fn write<S: Sink>(&mut self, out: &mut S, piece: &[u8])
        ensures { Goes (S.taken out.old) (S.taken out.new) (S.faults out.old) (S.faults out.new) self.old self.new piece.now }
    {
        if self.keep(piece) {
            return;
        }
        self.flush(out);
        if !self.keep(piece) {
            self.failed = send(self.failed, out, piece);
        }
    }

    /// Ends the reply with a newline, and sends what is kept of it.
    pub fn end<S: Sink>(&mut self, out: &mut S) -> Result<(), ExecFault>
        ensures goes { Goes (S.taken out.old) (S.taken out.new) (S.faults out.old) (S.faults out.new) self.old self.new (10 ∷ []) }
        ensures flushed { self.new.bytes ≡ [] }
        ensures result { result ≡ sent_result self.new.failed }
    {
        self.write(out, b"\n");
        self.flush(out);
        if self.failed {
            Err(ExecFault::WriteFault)
        } else {
            Ok(())
        }
    }
}

/// Sends a piece, unless the sink has failed before, and tells whether the sink has failed.
fn send<S: Sink>(failed: bool, out: &mut S, piece: &[u8]) -> bool
    ensures { Goes (S.taken out.old) (S.taken out.new) (S.faults out.old) (S.faults out.new) (flushed failed) (flushed result) piece.now }
{
    failed || out.put(piece).is_err()
}

/// Says a whole reply, and a newline.
pub fn say<S: Sink>(reply: &mut Reply, out: &mut S, text: &[u8]) -> Result<(), ExecFault>
    ensures { Said result (S.taken out.old) (S.taken out.new) (S.faults out.old) (S.faults out.new) (text.now ++ 10 ∷ []) }
{
    reply.begin();
    reply.write(out, text);
    reply.end(out)
}

/// Says the answer of a call, in which no row stands.
pub fn say_answer<S: Sink>(reply: &mut Reply, out: &mut S, answer: &Answer) -> Result<(), ExecFault>
    requires { is_known_answer answer.now ≡ true }
    ensures { Said result (S.taken out.old) (S.taken out.new) (S.faults out.old) (S.faults out.new) (answer_text answer.now ++ 10 ∷ []) }
{
    match answer {
        Answer::Truth(truth) => say_truth(reply, out, *truth),
        Answer::Number(number) => say_number(reply, out, *number),
        Answer::Index(index) => say_index(reply, out, *index),
        Answer::Element(x) => say(reply, out, write_elem(*x).as_slice()),
        Answer::Optional(value) => say_optional(reply, out, *value),
        _ => say(reply, out, b"ok"),
    }
}

/// Says an element, or `null`.
fn say_optional<S: Sink>(
    reply: &mut Reply,
    out: &mut S,
    value: Option<Elem>,
) -> Result<(), ExecFault>
    ensures { Said result (S.taken out.old) (S.taken out.new) (S.faults out.old) (S.faults out.new) (optional_text value ++ 10 ∷ []) }
{
    match value {
        Some(x) => say(reply, out, write_elem(x).as_slice()),
        None => say(reply, out, b"null"),
    }
}

/// Says `true` or `false`.
pub fn say_truth<S: Sink>(reply: &mut Reply, out: &mut S, truth: bool) -> Result<(), ExecFault>
    ensures { Said result (S.taken out.old) (S.taken out.new) (S.faults out.old) (S.faults out.new) (truth_text truth ++ 10 ∷ []) }
{
    if truth {
        say(reply, out, b"true")
    } else {
        say(reply, out, b"false")
    }
}

/// Says a number.
fn say_number<S: Sink>(reply: &mut Reply, out: &mut S, number: usize) -> Result<(), ExecFault>
    ensures { Said result (S.taken out.old) (S.taken out.new) (S.faults out.old) (S.faults out.new) (decimal number ++ 10 ∷ []) }
{
    let mut digits = Buffer::new();
    say(reply, out, digits.format(number).as_bytes())
}

/// Says an index, or -1.
fn say_index<S: Sink>(reply: &mut Reply, out: &mut S, index: Option<usize>) -> Result<(), ExecFault>
    ensures { Said result (S.taken out.old) (S.taken out.new) (S.faults out.old) (S.faults out.new) (index_text index ++ 10 ∷ []) }
{
    match index {
        Some(i) => say_number(reply, out, i),
        None => say(reply, out, b"-1"),
    }
}

/// Says why a line is refused. Want of memory is not said.
pub fn refuse<S: Sink>(reply: &mut Reply, out: &mut S, refusal: Refusal) -> Result<(), ExecFault>
    ensures { Refuses refusal result (S.taken out.old) (S.taken out.new) (S.faults out.old) (S.faults out.new) }
{
    match refusal {
        Refusal::NoMemory => Err(ExecFault::NoMemory),
        refusal => say(reply, out, refusal.name().as_bytes()),
    }
}
