//! How far the writing of a text has come.
ghost use Rattle.std.specs.Prelude.{◌≡◌, ◌≢◌, ◌↔◌};
ghost use Rattle.std.specs.declared.io.ErrorKind.{ErrorKind};

use std::io::ErrorKind;

/// How far the writing of a text has come.
#[derive(Clone, Copy, Debug, PartialEq, Eq)]
pub enum WriteStatus {
    /// All of it was written.
    Written,
    /// Its reader takes no more for now.
    Waiting,
    /// A write failed, or took no byte.
    Failed,
}

impl WriteStatus {
    /// The status after a write that failed so. A write that would wait is no failure of its stream.
    pub fn after(kind: ErrorKind) -> Self
        ensures unwritten { result ≢ WriteStatus.Written }
        ensures waits { result ≡ WriteStatus.Waiting ↔ kind ≡ ErrorKind.WouldBlock }
    {
        match kind {
            ErrorKind::WouldBlock => WriteStatus::Waiting,
            _ => WriteStatus::Failed,
        }
    }
}
