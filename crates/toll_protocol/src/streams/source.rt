//! The readers of bytes.
ghost use Rattle.std.specs.Prelude.{◌≡◌, ◌+◌, ◌<◌, ◌≤◌, ℕ, Bool, List, Option, None, length, take, drop, is_err, IfOk, OnErr};
ghost use Rattle.std.specs.Io.{ReadsAtMost};
ghost use Rattle.std.specs.Io.KnownBytes.{Consumes, IsAtEnd, Keeps, ReadConsumes};
ghost use Rattle.toll_protocol.specs.Streams.{CountsBlocked, OneMoreRead, RecordsFailure, WriteSide, bytes_read};

use std::io;
use std::io::Read;

/// A reader that may report its bytes, its failures and its reads, and what no read changes. Every reader is
/// one, though it reports its bytes alone.
pub trait Source {
    // The bytes that reads will give from here on, if they are known.
    ghost unread: { Self → Option (List ℕ) } = { λ _. None };

    // Whether a read has failed, if that is known.
    ghost has_failed: { Self → Option Bool } = { λ _. None };

    // How many reads have failed with `WouldBlock`, if that is known.
    ghost blocked: { Self → Option ℕ } = { λ _. None };

    // What each read gave, in order, if that is known.
    ghost reads: { Self → Option (List (List ℕ)) } = { λ _. None };

    // What no read changes, if it takes bytes too: the bytes that it holds, and whether a write has failed.
    ghost write_side: { Self → WriteSide } = { λ _. (None, None) };

    /// Reads some bytes into the front of the buffer, and returns how many. If there is room, that is 0 only
    /// at the end.
    fn read_some(&mut self, buffer: &mut [u8]) -> io::Result<usize>
        ensures bound { ReadsAtMost result buffer.new }
        ensures bytes { ReadConsumes (unread self.old) (unread self.new) result buffer.new }
        ensures failures { RecordsFailure (has_failed self.old) (has_failed self.new) (is_err result) }
        ensures blocked { CountsBlocked (blocked self.old) (blocked self.new) result }
        ensures one_read { OneMoreRead (reads self.old) (reads self.new) (bytes_read result buffer.new) }
        ensures write_side { write_side self.new ≡ write_side self.old };
}

impl<R: Read> Source for R {
    ghost unread = { R.remaining };

    fn read_some(&mut self, buffer: &mut [u8]) -> io::Result<usize> {
        self.read(buffer)
    }
}

/// One read, after the bytes that were filled before.
pub fn read_behind<R: Source>(reader: &mut R, buffer: &mut [u8], filled: usize) -> io::Result<usize>
    requires { filled ≤ length buffer.old }
    ensures front { take filled buffer.new ≡ take filled buffer.old }
    ensures fits { IfOk result (λ n. filled + n ≤ length buffer.new) }
    ensures given { IfOk result (λ n. Consumes (R.unread reader.old) (R.unread reader.new) (take n (drop filled buffer.new))) }
    ensures end { IfOk result (λ n. n ≡ 0 → filled < length buffer.old → IsAtEnd (R.unread reader.new)) }
    ensures kept { OnErr result (Keeps (R.unread reader.old) (R.unread reader.new)) }
    ensures failures { RecordsFailure (R.has_failed reader.old) (R.has_failed reader.new) (is_err result) }
    ensures blocked { CountsBlocked (R.blocked reader.old) (R.blocked reader.new) result }
    ensures one_read { OneMoreRead (R.reads reader.old) (R.reads reader.new) (bytes_read result (drop filled buffer.new)) }
    ensures write_side { R.write_side reader.new ≡ R.write_side reader.old }
{
    reader.read_some(&mut buffer[filled..])
}
