//! The top call.
ghost use Rattle.std.specs.Prelude.{◌≡◌, ◌≢◌, ℕ, ◌+◌, ◌-◌, ◌^◌, ◌<◌, ◌≤◌, ◌↔◌, min, List, [], ◌∷◌, length, Option, None, Some, Ok, Err, OnOk, OnErr};
ghost use Rattle.elem.specs.Outside.{Rose, Stays, Gives};
ghost use Rattle.machine.specs.State.{empty};
ghost use Rattle.shelf.specs.Headline.{Ran, status_of};
ghost use Rattle.shelf.specs.Scripts.{Script, file, IsPath, Names, bytes_of, script_of};

use crate::feeding::{feed, finish};
use crate::line_buffer::LineBuffer;
use crate::words::Source;
use crate::{Status, Words};
use elem::{Failed, Inputs, Sink, Steps};
use hash_seed::Seed;
use session::{ExecFault, Session};
use std::alloc::Global;
use std::sync::ledger::Ledger;

/// The greatest number of bytes of a script.
const MOST_BYTES: u64 = 1 << 40;

/// The greatest number of bytes that are read at once.
const PIECE: usize = 65536;

impl From<ExecFault> for Status {
    ghost use Rattle.std.specs.Prelude.{◌≡◌};
    ghost use Rattle.shelf.specs.Headline.{fault_status};

    ghost from_gives = { λ fault status. status ≡ fault_status fault };

    fn from(fault: ExecFault) -> Status {
        match fault {
            ExecFault::WriteFault => Status::WriteFault,
            ExecFault::NoMemory => Status::NoMemory,
        }
    }
}

/// Runs the script that the words name under the fixed seed: `run` names standard input, and `run PATH` a file.
pub fn run<I: Inputs, S: Sink, L: Ledger>(
    alloc: Global,
    words: &Words,
    inputs: &mut I,
    sink: &mut S,
    steps: &mut Steps<L>,
) -> Status
    ensures usage { (result ≡ Status.Usage) ↔ ((script : Script) → Names words.now script → ⊥) }
    ensures usage_writes_nothing { result ≡ Status.Usage → Stays (S.taken sink.old) (S.taken sink.new) }
    ensures open_fault { result ≡ Status.OpenFault →
        (path : List ℕ) × Names words.now (file path) × (I.failed_path inputs.new ≡ Some path) × Rose (I.open_faults inputs.old) (I.open_faults inputs.new) }
    ensures open_fault_writes_nothing { result ≡ Status.OpenFault → Stays (S.taken sink.old) (S.taken sink.new) }
    ensures ran { (script : Script) (bytes : List ℕ) → Names words.now script →
        bytes_of script (I.standard_bytes inputs.old) (I.file_bytes inputs.old) ≡ Some bytes → result ≢ Status.OpenFault →
        (came left : List ℕ) × (I.left inputs.new ≡ Some left) × Ran bytes came left (S.taken sink.old) (S.taken sink.new) result }
    ensures read_fault { result ≡ Status.ReadFault → Rose (I.read_faults inputs.old) (I.read_faults inputs.new) }
    ensures write_fault { result ≡ Status.WriteFault → Rose (S.faults sink.old) (S.faults sink.new) }
    ensures too_long { result ≡ Status.TooLong → min (I.given inputs.old + 2 ^ 40 + 1) (2 ^ 64 - 1) ≤ I.given inputs.new }
{
    run_seeded(alloc, Seed::fixed(), words, inputs, sink, steps)
}

/// Runs the script that the words name: `run` names standard input, and `run PATH` a file. What is hashed is hashed by the
/// seed.
pub fn run_seeded<I: Inputs, S: Sink, L: Ledger>(
    alloc: Global,
    seed: Seed,
    words: &Words,
    inputs: &mut I,
    sink: &mut S,
    steps: &mut Steps<L>,
) -> Status
    ensures usage { (result ≡ Status.Usage) ↔ ((script : Script) → Names words.now script → ⊥) }
    ensures usage_writes_nothing { result ≡ Status.Usage → Stays (S.taken sink.old) (S.taken sink.new) }
    ensures open_fault { result ≡ Status.OpenFault →
        (path : List ℕ) × Names words.now (file path) × (I.failed_path inputs.new ≡ Some path) × Rose (I.open_faults inputs.old) (I.open_faults inputs.new) }
    ensures open_fault_writes_nothing { result ≡ Status.OpenFault → Stays (S.taken sink.old) (S.taken sink.new) }
    ensures ran { (script : Script) (bytes : List ℕ) → Names words.now script →
        bytes_of script (I.standard_bytes inputs.old) (I.file_bytes inputs.old) ≡ Some bytes → result ≢ Status.OpenFault →
        (came left : List ℕ) × (I.left inputs.new ≡ Some left) × Ran bytes came left (S.taken sink.old) (S.taken sink.new) result }
    ensures read_fault { result ≡ Status.ReadFault → Rose (I.read_faults inputs.old) (I.read_faults inputs.new) }
    ensures write_fault { result ≡ Status.WriteFault → Rose (S.faults sink.old) (S.faults sink.new) }
    ensures too_long { result ≡ Status.TooLong → min (I.given inputs.old + 2 ^ 40 + 1) (2 ^ 64 - 1) ≤ I.given inputs.new }
{
    let Some(source) = words.source() else {
        return Status::Usage;
    };
    if open(inputs, source).is_err() {
        return Status::OpenFault;
    }
    let mut session = Session::with_hasher(alloc, seed);
    match run_script(&mut session, inputs, sink, steps) {
        Ok(()) => Status::Done,
        Err(status) => status,
    }
}

/// Has the inputs give the bytes of a script.
fn open<I: Inputs>(inputs: &mut I, source: Source) -> Result<(), Failed>
    requires { (path : List ℕ) → script_of source ≡ file path → IsPath path }
    ensures left { OnOk result (Gives (bytes_of (script_of source.entry) (I.standard_bytes inputs.old) (I.file_bytes inputs.old)) (I.left inputs.new) []) }
    ensures fault { OnErr result ((path : List ℕ) × (script_of source.entry ≡ file path) × (I.failed_path inputs.new ≡ Some path) × Rose (I.open_faults inputs.old) (I.open_faults inputs.new)) }
    ensures reads { I.read_faults inputs.new ≡ I.read_faults inputs.old }
    ensures given { I.given inputs.new ≡ I.given inputs.old }
{
    match source {
        Source::Standard => {
            inputs.standard();
            Ok(())
        }
        Source::File(path) => inputs.by_name(path),
    }
}

/// Executes the script that the inputs have left.
fn run_script<I: Inputs, S: Sink, L: Ledger>(
    session: &mut Session,
    inputs: &mut I,
    sink: &mut S,
    steps: &mut Steps<L>,
) -> Result<(), Status>
    requires { session.old ≡ empty }
    ensures ran { (bytes : List ℕ) → I.left inputs.old ≡ Some bytes →
        (came left : List ℕ) × (I.left inputs.new ≡ Some left) × Ran bytes came left (S.taken sink.old) (S.taken sink.new) (status_of result) }
    ensures usage { result ≢ Err Status.Usage }
    ensures open_fault { result ≢ Err Status.OpenFault }
    ensures read_fault { result ≡ Err Status.ReadFault → Rose (I.read_faults inputs.old) (I.read_faults inputs.new) }
    ensures write_fault { result ≡ Err Status.WriteFault → Rose (S.faults sink.old) (S.faults sink.new) }
    ensures too_long { result ≡ Err Status.TooLong → min (I.given inputs.old + 2 ^ 40 + 1) (2 ^ 64 - 1) ≤ I.given inputs.new }
{
    let mut line = LineBuffer::new();
    let mut room = [0u8; PIECE];
    let mut taken = 0u64;
    loop {
        let most = piece_size(taken);
        let Ok(count) = inputs.read(&mut room[..most]) else {
            return Err(Status::ReadFault);
        };
        if count == 0 {
            return Ok(finish(session, &line, sink, steps)?);
        }
        taken += count as u64;
        if taken > MOST_BYTES {
            return Err(Status::TooLong);
        }
        feed(session, &mut line, &room[..count], sink, steps)?;
    }
}

/// How many bytes to ask for after so many: no more than the script may have, and one, to see whether another comes.
fn piece_size(taken: u64) -> usize
    requires { taken ≤ 2 ^ 40 }
    ensures some { 0 < result }
    ensures fits { result ≤ 65536 }
    ensures within { taken < 2 ^ 40 → taken + result ≤ 2 ^ 40 }
{
    let left = MOST_BYTES - taken;
    left.clamp(1, PIECE as u64) as usize
}
