//! The writers of bytes.
ghost use Rattle.std.specs.Prelude.{ℕ, Bool, List, Option, None};
ghost use Rattle.std.specs.Io.{WritesAtMost};
ghost use Rattle.std.specs.Io.KnownBytes.{WriteAppends};
ghost use Rattle.toll_protocol.specs.Streams.{CountsBlocked, RecordsFailure, takes_nothing};

use std::io;
use std::io::Write;

/// A writer that may report its bytes and its failures. Every writer is one, though it reports no failures.
pub trait Sink {
    // The bytes that it holds, if they are known.
    ghost held: { Self → Option (List ℕ) } = { λ _. None };

    // Whether a write has failed or taken no byte, if that is known.
    ghost has_failed: { Self → Option Bool } = { λ _. None };

    // How many writes have failed with `WouldBlock`, if that is known.
    ghost blocked: { Self → Option ℕ } = { λ _. None };

    /// Writes some bytes of the front of these, and returns how many.
    fn write_some(&mut self, bytes: &[u8]) -> io::Result<usize>
        ensures bound { WritesAtMost result bytes.now }
        ensures bytes { WriteAppends (held self.old) (held self.new) result bytes.now }
        ensures failures { RecordsFailure (has_failed self.old) (has_failed self.new) (takes_nothing result) }
        ensures blocked { CountsBlocked (blocked self.old) (blocked self.new) result };
}

impl<W: Write> Sink for W {
    ghost held = { W.contents };

    fn write_some(&mut self, bytes: &[u8]) -> io::Result<usize> {
        self.write(bytes)
    }
}
