//! How far a message has come.
ghost use Rattle.std.specs.Prelude.{◌≡◌, ◌≢◌, ◌↔◌};
ghost use Rattle.std.specs.declared.io.ErrorKind.{ErrorKind};

use std::io::ErrorKind;

/// How far the reading of a message has come.
#[derive(Clone, Copy, Debug, PartialEq, Eq)]
pub enum ReadStatus {
    /// Enough of it has come, or its stream ended: it is read no further.
    Complete,
    /// More must come, and hasn't come yet.
    Waiting,
    /// A read failed.
    Failed,
}

impl ReadStatus {
    /// The status after a read that failed so. A read that would wait is no failure of its stream.
    pub fn after(kind: ErrorKind) -> Self
        ensures incomplete { result ≢ ReadStatus.Complete }
        ensures waits { result ≡ ReadStatus.Waiting ↔ kind ≡ ErrorKind.WouldBlock }
    {
        match kind {
            ErrorKind::WouldBlock => ReadStatus::Waiting,
            _ => ReadStatus::Failed,
        }
    }
}
