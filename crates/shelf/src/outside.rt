//! The real outside: standard input, files and standard output.
ghost use Rattle.std.specs.Prelude.{◌≤◌, length, IfOk};

use arrayvec::ArrayVec;
use elem::{Failed, Inputs, Sink, path_of};
use std::fs::File;
use std::io;
use std::io::{Read, Stdout, Write};
use std::rt::Files;

/// Standard input, and files by their paths.
///
/// What is read is not told: contracts know only how much was given, and how often an open or a read failed.
#[derive(Drop)]
pub struct RealInputs<'r> {
    rt: &'r HostRuntime,
    file: Option<File>,
    open_faults: u64,
    read_faults: u64,
    given: u64,
    failed_path: Option<ArrayVec<u8, 255>>,
}

impl<'r> RealInputs<'r> {
    /// Inputs from which nothing was read.
    pub fn new(rt: &'r HostRuntime) -> RealInputs<'r> {
        RealInputs {
            rt,
            file: None,
            open_faults: 0,
            read_faults: 0,
            given: 0,
            failed_path: None,
        }
    }
}

impl<'r> Inputs for RealInputs<'r> {
    ghost use Rattle.std.specs.Prelude.{None};
    ghost use Rattle.std.specs.Option.{option_map};

    ghost standard_bytes = { λ r. None };

    ghost file_bytes = { λ r path. None };

    ghost left = { λ r. None };

    ghost open_faults = { λ r. r.open_faults };

    ghost read_faults = { λ r. r.read_faults };

    ghost given = { λ r. r.given };

    ghost failed_path = { λ r. option_map (λ path. path.items) r.failed_path };

    fn by_name(&mut self, path: &str) -> Result<(), Failed> {
        match File::open(self.rt, path) {
            Ok(file) => {
                self.file = Some(file);
                Ok(())
            }
            Err(_) => {
                self.open_faults = self.open_faults.saturating_add(1);
                self.failed_path = Some(path_of(path.as_bytes()));
                Err(Failed)
            }
        }
    }

    fn standard(&mut self) {
        self.file = None;
    }

    fn read(&mut self, room: &mut [u8]) -> Result<usize, Failed> {
        match read_from(self.rt, &mut self.file, room) {
            Ok(count) => {
                self.given = self.given.saturating_add(count as u64);
                Ok(count)
            }
            Err(_) => {
                self.read_faults = self.read_faults.saturating_add(1);
                Err(Failed)
            }
        }
    }
}

/// The next bytes of the file, or of standard input where there is none.
fn read_from(rt: &HostRuntime, file: &mut Option<File>, room: &mut [u8]) -> io::Result<usize>
    ensures { IfOk result (λ n. n ≤ length room.new) }
{
    match file {
        Some(file) => file.read(room),
        None => rt.stdin().read(room),
    }
}

/// Standard output.
///
/// What is taken is not told: contracts know only how often a write failed.
#[derive(Drop)]
pub struct RealSink {
    out: Stdout,
    faults: u64,
}

impl RealSink {
    /// A sink to which nothing was written.
    pub fn new(rt: &HostRuntime) -> RealSink {
        RealSink {
            out: rt.stdout(),
            faults: 0,
        }
    }
}

impl Sink for RealSink {
    ghost use Rattle.std.specs.Prelude.{None};

    ghost taken = { λ s. None };

    ghost faults = { λ s. s.faults };

    fn put(&mut self, piece: &[u8]) -> Result<(), Failed> {
        match write_to(&mut self.out, piece) {
            Ok(()) => Ok(()),
            Err(_) => {
                self.faults = self.faults.saturating_add(1);
                Err(Failed)
            }
        }
    }
}

/// Writes the whole piece, and flushes.
fn write_to(out: &mut Stdout, piece: &[u8]) -> io::Result<()> {
    out.write_all(piece)?;
    out.flush()
}
