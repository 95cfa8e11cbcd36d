//! Lines for the operator on standard error.
ghost use Rattle.std.specs.Prelude.{◌≡◌, ◌⊎◌, ◌+◌, ◌-◌, ◌^◌, min};

use mio::unix::SourceFd;
use mio::{Events, Interest, Poll, Token};
use std::fmt::Display;
use std::io;
use std::time::Duration;

/// The descriptor of standard error.
const STANDARD_ERROR: i32 = 2;

/// Writes lines for the operator on standard error. A line is dropped if writing it would have to wait
/// because standard error is full and isn't read. The next line that is written is preceded by the number of
/// dropped lines.
#[derive(Clone, Copy, Debug, PartialEq, Eq)]
pub struct Notes {
    /// How many lines were dropped since the last one that was written.
    pub dropped: u64,
}

impl Notes {
    /// No line was dropped yet.
    pub fn new() -> Self
        ensures { result.dropped ≡ 0 }
    {
        Notes { dropped: 0 }
    }

    /// Writes the line, or drops and counts it. Once a line is written, no dropped one is left to report.
    pub fn write(&mut self, rt: &HostRuntime, line: impl Display + Drop)
        ensures { (self.new.dropped ≡ 0) ⊎ (self.new.dropped ≡ min (self.old.dropped + 1) (2 ^ 64 - 1)) }
    {
        if !takes_lines(rt) {
            self.dropped = self.dropped.saturating_add(1);
            return;
        }
        if self.dropped > 0 {
            let dropped = self.dropped;
            let _ = rt.eprintln(format_args!("dropped {dropped} lines"));
            self.dropped = 0;
        }
        let _ = rt.eprintln(line);
    }
}

// Whether standard error takes a line without waiting. A file always does; the system reports no readiness
// for it.
fn takes_lines(rt: &HostRuntime) -> bool {
    let (Ok(mut poll), Ok(mut events)) = (Poll::new(rt), Events::with_capacity(rt.alloc(), 1))
    else {
        return false;
    };
    let mut error = SourceFd(&STANDARD_ERROR);
    match poll
        .registry()
        .register(&mut error, Token(0), Interest::WRITABLE)
    {
        Ok(()) => is_ready(&mut poll, &mut events).unwrap_or(false),
        Err(fault) => fault.kind() == io::ErrorKind::PermissionDenied,
    }
}

// Whether the descriptor that the poll has registered is ready, without waiting. An `Err` if the system can't say it.
fn is_ready(poll: &mut Poll, events: &mut Events) -> io::Result<bool> {
    poll.poll(events, Some(Duration::ZERO))?;
    Ok(!events.is_empty())
}
