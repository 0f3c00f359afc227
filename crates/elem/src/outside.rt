ghost use Rattle.std.specs.Prelude.{◌≡◌, ℕ, ◌+◌, ◌-◌, ◌^◌, ◌<◌, ◌≤◌, min, List, [], length, take, Option, None, Some, MatchResult, OnOk, OnErr, IfOk, if◌then◌else◌};
ghost use Rattle.elem.specs.Outside.{Takes, TakesFront, Writes, Gives, Stays, IsToldEmpty, HasCause};

/// Want of memory.
#[derive(Clone, Copy, Debug, PartialEq, Eq, Drop)]
pub struct NoMemory;

/// An input or a sink failed.
#[derive(Clone, Copy, Debug, PartialEq, Eq, Drop)]
pub struct Failed;

/// The inputs of a script: standard input, and files by their names.
pub trait Inputs {
    /// What standard input and each file has, where it is told.
    ghost standard_bytes: { Self → Option (List ℕ) };

    ghost file_bytes: { Self → List ℕ → Option (List ℕ) };

    /// What `read` has still to give, where it is told.
    ghost left: { Self → Option (List ℕ) };

    /// Failed opens, failed reads and bytes given, so far.
    ghost open_faults: { Self → ℕ };

    ghost read_faults: { Self → ℕ };

    ghost given: { Self → ℕ };

    /// The path of the last open that failed.
    ghost failed_path: { Self → Option (List ℕ) };

    /// Opens a file, to be read from now on.
    fn by_name(&mut self, path: &str) -> Result<(), Failed>
        requires some { 0 < length path.now }
        requires short { length path.now ≤ 255 }
        ensures left { OnOk result (Gives (file_bytes self.old path.now) (left self.new) []) }
        ensures path { MatchResult result (λ _. failed_path self.new ≡ failed_path self.old) (λ _. failed_path self.new ≡ Some path.now) }
        ensures cause { HasCause (open_faults self.old) (open_faults self.new) result }
        ensures reads { read_faults self.new ≡ read_faults self.old }
        ensures given { given self.new ≡ given self.old };

    /// Turns to standard input.
    fn standard(&mut self)
        ensures left { Gives (standard_bytes self.old) (left self.new) [] }
        ensures path { failed_path self.new ≡ failed_path self.old }
        ensures opens { open_faults self.new ≡ open_faults self.old }
        ensures reads { read_faults self.new ≡ read_faults self.old }
        ensures given { given self.new ≡ given self.old };

    /// Puts the next bytes into the front of the room. It gives none only at the end.
    fn read(&mut self, room: &mut [u8]) -> Result<usize, Failed>
        requires { 0 < length room.old }
        ensures bound { IfOk result (λ n. n ≤ length room.new) }
        ensures bytes { IfOk result (λ n. Gives (left self.old) (left self.new) (take n room.new)) }
        ensures end { IfOk result (λ n. n ≡ 0 → IsToldEmpty (left self.old)) }
        ensures stays { OnErr result (Stays (left self.old) (left self.new)) }
        ensures given { IfOk result (λ n. given self.new ≡ min (given self.old + n) (2 ^ 64 - 1)) }
        ensures withheld { OnErr result (given self.new ≡ given self.old) }
        ensures cause { HasCause (read_faults self.old) (read_faults self.new) result }
        ensures opens { open_faults self.new ≡ open_faults self.old }
        ensures path { failed_path self.new ≡ failed_path self.old };
}

/// Where replies go.
pub trait Sink {
    /// What was taken, where it is told, and the failed writes so far.
    ghost taken: { Self → Option (List ℕ) };

    ghost faults: { Self → ℕ };

    /// Takes the whole piece, or a front of it where it fails.
    fn put(&mut self, piece: &[u8]) -> Result<(), Failed>
        ensures text { Writes (taken self.old) (taken self.new) piece.now result }
        ensures cause { HasCause (faults self.old) (faults self.new) result };
}
