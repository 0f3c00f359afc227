//! One script from each source under reads that fail and sinks of each size, other words, and lines at their greatest
//! length.
use super::{Given, Outside, SOURCES, run_script};
use crate::Status;
use elem::{Inputs, MemInputs, MemSink};
use std::alloc::Global;
use std::test::Fail;

/// A script, which has 43 bytes.
const SCRIPT: &[u8] = b"new m LinkedHashMap\nm.put(a, 1)\nm\nm.get(a)\n";

/// What it writes.
const TRANSCRIPT: &[u8] = b"ok\nnull\n{a=1}\n1\n";

/// The reads of one byte each from a number to another, and what is written where one of these fails: the replies to
/// the lines that are whole by then. The last is the read that would tell the end.
const FAILING_READS: [(u64, u64, &[u8]); 5] = [
    (1, 20, b""),
    (21, 32, b"ok\n"),
    (33, 34, b"ok\nnull\n"),
    (35, 43, b"ok\nnull\n{a=1}\n"),
    (44, 44, b"ok\nnull\n{a=1}\n1\n"),
];

/// Runs the script from a source, byte by byte.
fn run_bytes(
    alloc: Global,
    source: &Given,
    failing_read: Option<u64>,
    room: usize,
) -> Result<(Status, MemSink), Fail> {
    let outside = Outside {
        source,
        most: 1,
        failing_read,
        room,
    };
    run_script(alloc, SCRIPT, &outside)
}

#[test]
fn a_read_that_fails_leaves_the_replies_to_whole_lines(rt: HostRuntime) -> Result<(), Fail> {
    for source in SOURCES.iter() {
        for (first, last, transcript) in FAILING_READS.iter() {
            for n in *first..=*last {
                let (status, sink) = run_bytes(rt.alloc(), source, Some(n), 16)?;
                assert_eq!(rt; status, Status::ReadFault);
                assert_eq!(rt; sink.bytes(), *transcript);
            }
        }
    }
    Ok(())
}

#[test]
fn a_sink_that_is_full_holds_a_front_of_the_transcript(rt: HostRuntime) -> Result<(), Fail> {
    for source in SOURCES.iter() {
        for room in 0..TRANSCRIPT.len() {
            let (status, sink) = run_bytes(rt.alloc(), source, None, room)?;
            assert_eq!(rt; status, Status::WriteFault);
            assert_eq!(rt; sink.bytes(), &TRANSCRIPT[..room]);
        }
    }
    Ok(())
}

/// The greatest numbers of bytes of a read: of one byte, of whole lines and one more or less, and of all.
const PIECES: [usize; 10] = [1, 2, 3, 7, 19, 20, 21, 42, 43, 44];

#[test]
fn reads_of_any_size_give_one_transcript(rt: HostRuntime) -> Result<(), Fail> {
    for most in PIECES.iter() {
        let outside = Outside {
            source: &SOURCES[1],
            most: (*most).max(1),
            failing_read: None,
            room: 16,
        };
        let (status, sink) = run_script(rt.alloc(), SCRIPT, &outside)?;
        assert_eq!(rt; status, Status::Done);
        assert_eq!(rt; sink.bytes(), TRANSCRIPT);
    }
    Ok(())
}

/// A path of 255 bytes.
const LONGEST: &str =
    "ppppppppppppppppppppppppppppppppppppppppppppppppppppppppppppppppppppppppppppppppppppppppppppppppppppppppppppppppppppppppppppppppppppppppppppppppppppppppppppppppppppppppppppppppppppppppppppppppppppppppppppppppppppppppppppppppppppppppppppppppppppppppppppppp";

/// A path of 256 bytes.
const TOO_LONG: &str =
    "pppppppppppppppppppppppppppppppppppppppppppppppppppppppppppppppppppppppppppppppppppppppppppppppppppppppppppppppppppppppppppppppppppppppppppppppppppppppppppppppppppppppppppppppppppppppppppppppppppppppppppppppppppppppppppppppppppppppppppppppppppppppppppppppp";

/// The first byte of a line, how many bytes it has, and the reply.
const LONG_LINES: [(u8, usize, &[u8]); 4] = [
    (b'a', 1025, b"?long\n"),
    (b'a', 1024, b"?syntax\n"),
    (b'#', 1025, b"?long\n"),
    (b'#', 1024, b""),
];

#[test]
fn long_lines_in_small_pieces(rt: HostRuntime) -> Result<(), Fail> {
    let outside = Outside {
        source: &SOURCES[0],
        most: 7,
        failing_read: None,
        room: 16,
    };
    for (first, size, reply) in LONG_LINES.iter() {
        let mut script = Vec::new(rt.alloc());
        script.push(*first)?;
        script.resize(*size, b'a')?;
        for end in [b"\n".as_slice(), b"".as_slice()].iter() {
            script.extend_from_slice(end)?;
            let (status, sink) = run_script(rt.alloc(), script.as_slice(), &outside)?;
            assert_eq!(rt; status, Status::Done);
            assert_eq!(rt; sink.bytes(), *reply);
            script.truncate(*size);
        }
    }
    Ok(())
}

/// Words that are no command.
const OTHER_WORDS: [&[&str]; 7] = [
    &[],
    &["script"],
    &["run", ""],
    &["run", TOO_LONG],
    &["run", "script", "script"],
    &["load", "5", "7"],
    &["RUN"],
];

#[test]
fn other_words_are_no_command(rt: HostRuntime) -> Result<(), Fail> {
    for words in OTHER_WORDS.iter() {
        let source = Given {
            words: *words,
            file: Some("script"),
        };
        let (status, sink) = run_bytes(rt.alloc(), &source, None, 16)?;
        assert_eq!(rt; status, Status::Usage);
        assert_eq!(rt; sink.bytes(), b"".as_slice());
    }
    Ok(())
}

#[test]
fn a_path_of_255_bytes_names_a_file(rt: HostRuntime) -> Result<(), Fail> {
    let source = Given {
        words: &["run", LONGEST],
        file: Some(LONGEST),
    };
    let (status, sink) = run_bytes(rt.alloc(), &source, None, 16)?;
    assert_eq!(rt; status, Status::Done);
    assert_eq!(rt; sink.bytes(), TRANSCRIPT);
    Ok(())
}

#[test]
fn a_path_that_names_no_file_writes_nothing(rt: HostRuntime) -> Result<(), Fail> {
    for file in [None, Some("script"), Some("nofile/")].iter() {
        let source = Given {
            words: &["run", "nofile"],
            file: *file,
        };
        let (status, sink) = run_bytes(rt.alloc(), &source, None, 16)?;
        assert_eq!(rt; status, Status::OpenFault);
        assert_eq!(rt; sink.bytes(), b"".as_slice());
    }
    Ok(())
}

#[test]
fn files_in_memory_are_opened_by_their_names(rt: HostRuntime) -> Result<(), Fail> {
    let mut inputs = MemInputs::new(rt.alloc(), b"standard")
        .ok()
        .ok_or("memory")?;
    inputs.file("a", b"first").ok().ok_or("memory")?;
    inputs.file("a", b"second").ok().ok_or("memory")?;
    inputs.fail_open(3).ok().ok_or("memory")?;
    let mut room = [0u8; 8];
    assert!(rt; inputs.by_name("a").is_ok());
    assert_eq!(rt; inputs.read(&mut room).ok(), Some(5));
    assert_eq!(rt; room[0], b'f');
    assert!(rt; inputs.by_name("b").is_err());
    assert!(rt; inputs.by_name("a").is_err());
    assert!(rt; inputs.by_name("a").is_ok());
    inputs.standard();
    assert_eq!(rt; inputs.read(&mut room).ok(), Some(8));
    assert_eq!(rt; room[0], b's');
    Ok(())
}
