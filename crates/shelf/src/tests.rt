//! Worked scripts, and what they write.
ghost use Rattle.std.specs.Prelude.{◌≡◌, ◌<◌};

mod faults;
mod worked;

use crate::{Status, Words, run};
use elem::{MemInputs, MemSink, NoMemory, Steps};
use std::alloc::Global;
use std::marker::Brand;
use std::sync::ledger::{Blank, Ledger};
use std::test::Fail;
use worked::WORKED;

/// What stands on standard input where a file holds the script.
const OTHER_SCRIPT: &[u8] = b"new other ArrayList\nother\n";

/// The words of a command line, and the path of the file that holds the script. Standard input holds it where there
/// is none.
#[derive(Clone, Copy)]
struct Given<'a> {
    words: &'a [&'a str],
    file: Option<&'a str>,
}

/// Each source of a script.
const SOURCES: [Given; 2] = [
    Given {
        words: &["run"],
        file: None,
    },
    Given {
        words: &["run", "script"],
        file: Some("script"),
    },
];

/// How a script comes, and where its replies go.
#[derive(Clone, Copy)]
struct Outside<'a> {
    source: &'a Given<'a>,
    /// The most bytes of a read.
    most: usize,
    /// The number of a read that fails, from 1.
    failing_read: Option<u64>,
    /// How many bytes the sink holds.
    room: usize,
}

/// Inputs with a script in the file of a path, or on standard input.
fn inputs_with(alloc: Global, script: &[u8], file: Option<&str>) -> Result<MemInputs, NoMemory> {
    let Some(path) = file else {
        return MemInputs::new(alloc, script);
    };
    let mut inputs = MemInputs::new(alloc, OTHER_SCRIPT)?;
    inputs.file(path, script)?;
    Ok(inputs)
}

/// Runs a script, and counts its steps.
fn run_counted<L: Ledger>(
    alloc: Global,
    blank: Blank,
    script: &[u8],
    outside: &Outside,
) -> Result<(Status, MemSink), NoMemory>
    requires name { blank.name ≡ L.name }
    requires parts { blank.parts ≡ L.parts }
    requires some { 0 < blank.parts }
    requires most { 0 < outside.now.most }
{
    let mut words = Words::new(alloc);
    for word in outside.source.words {
        words.push(word)?;
    }
    let mut inputs = inputs_with(alloc, script, outside.source.file)?;
    inputs.most(outside.most);
    if let Some(n) = outside.failing_read {
        inputs.fail_read(n)?;
    }
    let mut sink = MemSink::new(alloc, outside.room)?;
    let mut steps = Steps::<L>::new(blank);
    let status = run(alloc, &words, &mut inputs, &mut sink, &mut steps);
    Ok((status, sink))
}

/// Runs a script.
fn run_script(alloc: Global, script: &[u8], outside: &Outside) -> Result<(Status, MemSink), Fail>
    requires { 0 < outside.now.most }
{
    let ended = run_counted::<Brand>(alloc, Blank::new(1), script, outside);
    Ok(ended.ok().ok_or("memory")?)
}

#[test]
fn worked_scripts_write_their_transcripts(rt: HostRuntime) -> Result<(), Fail> {
    for source in SOURCES.iter() {
        let outside = Outside {
            source,
            most: 3,
            failing_read: None,
            room: 65536,
        };
        for (script, transcript) in WORKED.iter() {
            let (status, sink) = run_script(rt.alloc(), script, &outside)?;
            assert_eq!(rt; status, Status::Done);
            assert_eq!(rt; sink.bytes(), *transcript);
        }
    }
    Ok(())
}
