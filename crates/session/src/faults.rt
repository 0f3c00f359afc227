/// Why a line was not executed whole.
#[derive(Clone, Copy, Debug, PartialEq, Eq)]
pub enum ExecFault {
    /// The sink failed. A front of the reply was taken, and the session is not used again.
    WriteFault,
    /// Want of memory. Nothing of the reply was written, and the session is as before.
    NoMemory,
}
