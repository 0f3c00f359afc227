//! The outside in memory: inputs and a sink for tests, which fail when they are told to.
ghost use Rattle.std.specs.Prelude.{◌≡◌, ◌+◌, ◌-◌, ◌++◌, ◌∷◌, ◌<◌, ◌≤◌, ◌^◌, min, [], length, take, drop, map, nat_eq, position, None, Some, MatchResult, OnOk, OnErr, IfOk, if◌then◌else◌};
ghost use Rattle.std.specs.Result.{is_ok, is_err};
ghost use Rattle.std.specs.Cmp.Lexicographic.{pointwise};
ghost use Rattle.elem.specs.Outside.{TakesFront, Writes, Gives, Stays, IsToldEmpty, HasCause};
ghost use Rattle.elem.specs.Memory.{bytes_named, is_listed, open_fails, opened, unopened, read_fails, next_count, after_read, unread, fits, filled, overfilled, unused};
ghost use Rattle.elem.specs.MemoryFiles.{IsSource, source_bytes, named};

use crate::{Failed, Inputs, NoMemory, Sink};
use arrayvec::ArrayVec;
use std::alloc::Global;
use std::marker::Model;

/// A file in memory.
#[derive(Drop)]
pub struct MemFile {
    name: Vec<u8>,
    bytes: Vec<u8>,
}

/// What is being read.
#[derive(Clone, Copy, Debug)]
pub enum Source {
    Nothing,
    Standard,
    File(usize),
}

/// A standard input and named files in memory.
///
/// No read fails but those that `fail_read` lists, and an open fails where its path names no file or `fail_open`
/// lists it.
#[derive(Drop)]
pub struct MemInputs {
    alloc: Global,
    standard: Vec<u8>,
    files: Vec<MemFile>,
    source: Source,
    at: usize,
    most: usize,
    opens: u64,
    reads: u64,
    failing_opens: Vec<u64>,
    failing_reads: Vec<u64>,
    given: u64,
    open_faults: u64,
    read_faults: u64,
    failed_path: Option<ArrayVec<u8, 255>>,
}

impl Model for MemInputs {
    ghost use Rattle.elem.specs.Memory.{Supply};

    ghost Value = { Supply };

    ghost use Rattle.elem.specs.MemoryInside.{supply, IsReady};

    ghost view = { supply };

    ghost invariant = { IsReady };
}

impl MemInputs {
    /// Inputs with these bytes on standard input, and no files.
    pub fn new(alloc: Global, standard: &[u8]) -> Result<MemInputs, NoMemory>
        ensures { IfOk result (λ inputs. inputs ≡ unused standard.now) }
    {
        let Ok(standard) = Vec::from_slice(alloc, standard) else {
            return Err(NoMemory);
        };
        Ok(MemInputs {
            alloc,
            standard,
            files: Vec::new(alloc),
            source: Source::Nothing,
            at: 0,
            most: usize::MAX,
            opens: 0,
            reads: 0,
            failing_opens: Vec::new(alloc),
            failing_reads: Vec::new(alloc),
            given: 0,
            open_faults: 0,
            read_faults: 0,
            failed_path: None,
        })
    }

    /// Adds a file. Of two files with one name the first is read.
    pub fn file(&mut self, path: &str, bytes: &[u8]) -> Result<(), NoMemory>
        ensures ok { OnOk result (self.new ≡ record self.old { files = self.old.files ++ (path.now, bytes.now) ∷ [] }) }
        ensures err { OnErr result (self.new ≡ self.old) }
    {
        let (Ok(name), Ok(bytes)) = (
            Vec::from_slice(self.alloc, path.as_bytes()),
            Vec::from_slice(self.alloc, bytes),
        ) else {
            return Err(NoMemory);
        };
        match self.files.push(MemFile { name, bytes }) {
            Ok(()) => Ok(()),
            Err(_) => Err(NoMemory),
        }
    }

    /// Has the n-th open fail, counted from 1.
    pub fn fail_open(&mut self, n: u64) -> Result<(), NoMemory>
        ensures ok { OnOk result (self.new ≡ record self.old { failing_opens = self.old.failing_opens ++ n ∷ [] }) }
        ensures err { OnErr result (self.new ≡ self.old) }
    {
        match self.failing_opens.push(n) {
            Ok(()) => Ok(()),
            Err(_) => Err(NoMemory),
        }
    }

    /// Has the n-th read fail, counted from 1.
    pub fn fail_read(&mut self, n: u64) -> Result<(), NoMemory>
        ensures ok { OnOk result (self.new ≡ record self.old { failing_reads = self.old.failing_reads ++ n ∷ [] }) }
        ensures err { OnErr result (self.new ≡ self.old) }
    {
        match self.failing_reads.push(n) {
            Ok(()) => Ok(()),
            Err(_) => Err(NoMemory),
        }
    }

    /// Has no read give more than n bytes.
    pub fn most(&mut self, n: usize)
        requires { 0 < n }
        ensures { self.new ≡ record self.old { most = n } }
    {
        self.most = n;
    }
}

/// The first file of a name.
fn find_file(files: &[MemFile], path: &[u8]) -> Option<usize>
    ensures { result ≡ position (λ file. pointwise nat_eq file.name.items path.now) files.now }
{
    files.iter().position(|file| file.name.as_slice() == path)
}

/// The first file of a name, where the open of this number is not to fail.
fn find_open(files: &[MemFile], path: &[u8], failing: &[u64], number: u64) -> Option<usize>
    ensures { result ≡ (if is_listed failing.now number then None else position (λ file. pointwise nat_eq file.name.items path.now) files.now) }
{
    if failing.contains(&number) {
        return None;
    }
    find_file(files, path)
}

impl Inputs for MemInputs {
    ghost standard_bytes = { λ m. Some m.standard };

    ghost file_bytes = { λ m path. bytes_named m.files path };

    ghost left = { λ m. Some m.left };

    ghost open_faults = { λ m. m.open_faults };

    ghost read_faults = { λ m. m.read_faults };

    ghost given = { λ m. m.given };

    ghost failed_path = { λ m. m.failed_path };

    fn by_name(&mut self, path: &str) -> Result<(), Failed>
        requires some { 0 < length path.now }
        requires short { length path.now ≤ 255 }
        ensures fails { is_err result ≡ open_fails self.old path.now }
        ensures ok { OnOk result (self.new ≡ opened self.old path.now) }
        ensures err { OnErr result (self.new ≡ unopened self.old path.now) }
        ensures left { OnOk result (Gives (bytes_named self.old.files path.now) (Some self.new.left) []) }
        ensures path { MatchResult result (λ _. self.new.failed_path ≡ self.old.failed_path) (λ _. self.new.failed_path ≡ Some path.now) }
        ensures cause { HasCause self.old.open_faults self.new.open_faults result }
        ensures reads { self.new.read_faults ≡ self.old.read_faults }
        ensures given { self.new.given ≡ self.old.given }
    {
        self.opens = self.opens.saturating_add(1);
        let Some(file) = find_open(
            &self.files,
            path.as_bytes(),
            &self.failing_opens,
            self.opens,
        ) else {
            self.open_faults = self.open_faults.saturating_add(1);
            self.failed_path = Some(path_of(path.as_bytes()));
            return Err(Failed);
        };
        self.source = Source::File(file);
        self.at = 0;
        Ok(())
    }

    fn standard(&mut self)
        ensures after { self.new ≡ record self.old { left = self.old.standard } }
        ensures left { Gives (Some self.old.standard) (Some self.new.left) [] }
        ensures path { self.new.failed_path ≡ self.old.failed_path }
        ensures opens { self.new.open_faults ≡ self.old.open_faults }
        ensures reads { self.new.read_faults ≡ self.old.read_faults }
        ensures given { self.new.given ≡ self.old.given }
    {
        self.source = Source::Standard;
        self.at = 0;
    }

    fn read(&mut self, room: &mut [u8]) -> Result<usize, Failed>
        requires { 0 < length room.old }
        ensures fails { is_err result ≡ read_fails self.old }
        ensures count { IfOk result (λ n. n ≡ next_count self.old (length room.old)) }
        ensures ok { IfOk result (λ n. self.new ≡ after_read self.old n) }
        ensures err { OnErr result (self.new ≡ unread self.old) }
        ensures bound { IfOk result (λ n. n ≤ length room.new) }
        ensures bytes { IfOk result (λ n. Gives (Some self.old.left) (Some self.new.left) (take n room.new)) }
        ensures end { IfOk result (λ n. n ≡ 0 → IsToldEmpty (Some self.old.left)) }
        ensures stays { OnErr result (Stays (Some self.old.left) (Some self.new.left)) }
        ensures given { IfOk result (λ n. self.new.given ≡ min (self.old.given + n) (2 ^ 64 - 1)) }
        ensures withheld { OnErr result (self.new.given ≡ self.old.given) }
        ensures cause { HasCause self.old.read_faults self.new.read_faults result }
        ensures opens { self.new.open_faults ≡ self.old.open_faults }
        ensures path { self.new.failed_path ≡ self.old.failed_path }
    {
        self.reads = self.reads.saturating_add(1);
        if self.failing_reads.contains(&self.reads) {
            self.read_faults = self.read_faults.saturating_add(1);
            return Err(Failed);
        }
        let rest = rest_of(&self.standard, &self.files, self.source, self.at);
        let count = room.len().min(rest.len()).min(self.most);
        room[..count].copy_from_slice(&rest[..count]);
        self.at += count;
        self.given = self.given.saturating_add(count as u64);
        Ok(count)
    }
}

/// What is left of the bytes that are being read.
fn rest_of<'a>(standard: &'a [u8], files: &'a [MemFile], source: Source, at: usize) -> &'a [u8]
    requires source { IsSource (length files.now) source }
    requires within { at ≤ length (source_bytes standard.now (map named files.now) source) }
    ensures rest { result.now ≡ drop at (source_bytes standard.now (map named files.now) source) }
    ensures fits { at + length result.now < 2 ^ 64 }
{
    match source {
        Source::Nothing => &[],
        Source::Standard => &standard[at..],
        Source::File(i) => &files[i].bytes[at..],
    }
}

/// A path, kept in itself.
pub fn path_of(path: &[u8]) -> ArrayVec<u8, 255>
    requires { length path.now ≤ 255 }
    ensures { result.items ≡ path.now }
{
    let mut kept = ArrayVec::new();
    let _ = kept.try_extend_from_slice(path);
    kept
}

/// A sink in memory with so much room. It takes its room when it is made, and fails exactly where a piece does not
/// fit, after the part that fits.
#[derive(Drop)]
pub struct MemSink {
    bytes: Vec<u8>,
    room: usize,
    faults: u64,
}

impl Model for MemSink {
    ghost use Rattle.std.specs.Prelude.{length, ◌≤◌, vec_capacity};
    ghost use Rattle.elem.specs.Memory.{Filled};

    ghost Value = { Filled };

    ghost view = { λ s. record { taken = s.bytes.items; room = s.room; faults = s.faults } };

    ghost invariant = { λ s. (length s.bytes.items ≤ s.room) × (s.room ≤ vec_capacity s.bytes) };
}

impl MemSink {
    /// An empty sink with room for so many bytes.
    pub fn new(alloc: Global, room: usize) -> Result<MemSink, NoMemory>
        ensures { IfOk result (λ sink. sink ≡ record { taken = []; room = room; faults = 0 }) }
    {
        match Vec::with_capacity(alloc, room) {
            Ok(bytes) => Ok(MemSink {
                bytes,
                room,
                faults: 0,
            }),
            Err(_) => Err(NoMemory),
        }
    }

    /// What was taken.
    pub fn bytes(&self) -> &[u8]
        ensures { result.now ≡ self.now.taken }
    {
        self.bytes.as_slice()
    }
}

impl Sink for MemSink {
    ghost taken = { λ s. Some s.taken };

    ghost faults = { λ s. s.faults };

    fn put(&mut self, piece: &[u8]) -> Result<(), Failed>
        ensures whole { is_ok result ≡ fits self.old piece.now }
        ensures ok { OnOk result (self.new ≡ filled self.old piece.now) }
        ensures err { OnErr result (self.new ≡ overfilled self.old piece.now) }
        ensures text { Writes (Some self.old.taken) (Some self.new.taken) piece.now result }
        ensures cause { HasCause self.old.faults self.new.faults result }
    {
        let count = piece.len().min(self.room - self.bytes.len());
        let kept = self.bytes.extend_from_slice(&piece[..count]);
        if kept.is_ok() && count == piece.len() {
            return Ok(());
        }
        self.faults = self.faults.saturating_add(1);
        Err(Failed)
    }
}
