//! Writing a text bit by bit, as its reader takes it.
ghost use Rattle.std.specs.Prelude.{◌≡◌, ◌≢◌, ◌≤◌, ◌<◌, length};
ghost use Rattle.std.specs.Io.KnownBytes.{Appends};
ghost use Rattle.toll_protocol.specs.Streams.{HasFailed, NoneBlocked, OneBlocked, bytes_between};

use crate::streams::sink::Sink;
use crate::streams::write_status::WriteStatus;

/// A text whose first bytes were written.
#[derive(Drop)]
pub struct ResponseWriter {
    pub bytes: Vec<u8>,
    pub written: usize,
    ghost within: { written ≤ length bytes.items },
}

impl ResponseWriter {
    /// Nothing was written yet.
    pub fn new(bytes: Vec<u8>) -> Self
        ensures bytes { result.bytes ≡ bytes }
        ensures none { result.written ≡ 0 }
    {
        ResponseWriter { bytes, written: 0 }
    }

    /// Writes on after the bytes that were written, until all of the text is written, or a write fails, as
    /// one does that would wait. It takes no memory.
    pub fn write_on<W: Sink>(&mut self, writer: &mut W) -> WriteStatus
        ensures same { self.new.bytes ≡ self.old.bytes }
        ensures more { self.old.written ≤ self.new.written }
        ensures written { Appends (W.held writer.old) (W.held writer.new) (bytes_between self.old.written self.new.written self.old.bytes.items) }
        ensures all { result ≡ WriteStatus.Written → self.new.written ≡ length self.new.bytes.items }
        ensures part { result ≢ WriteStatus.Written → self.new.written < length self.new.bytes.items }
        ensures failed { result ≢ WriteStatus.Written → HasFailed (W.has_failed writer.old) (W.has_failed writer.new) }
        ensures waits { result ≡ WriteStatus.Waiting → OneBlocked (W.blocked writer.old) (W.blocked writer.new) }
        ensures goes_on { result ≢ WriteStatus.Waiting → NoneBlocked (W.blocked writer.old) (W.blocked writer.new) }
    {
        let sent = send_on(writer, &self.bytes, self.written);
        self.written = sent.written;
        sent.status
    }
}

/// How many bytes of a text were written.
#[derive(Clone, Copy)]
pub struct Sent {
    pub status: WriteStatus,
    pub written: usize,
}

/// Writes on after the first bytes, which were written before.
pub fn send_on<W: Sink>(writer: &mut W, bytes: &[u8], begun: usize) -> Sent
    requires { begun ≤ length bytes.now }
    ensures within { result.written ≤ length bytes.now }
    ensures more { begun ≤ result.written }
    ensures written { Appends (W.held writer.old) (W.held writer.new) (bytes_between begun result.written bytes.now) }
    ensures all { result.status ≡ WriteStatus.Written → result.written ≡ length bytes.now }
    ensures part { result.status ≢ WriteStatus.Written → result.written < length bytes.now }
    ensures failed { result.status ≢ WriteStatus.Written → HasFailed (W.has_failed writer.old) (W.has_failed writer.new) }
    ensures waits { result.status ≡ WriteStatus.Waiting → OneBlocked (W.blocked writer.old) (W.blocked writer.new) }
    ensures goes_on { result.status ≢ WriteStatus.Waiting → NoneBlocked (W.blocked writer.old) (W.blocked writer.new) }
{
    let mut written = begun;
    while written < bytes.len() {
        match writer.write_some(&bytes[written..]) {
            Ok(n) if n > 0 => written += n,
            Ok(_) => {
                return Sent {
                    status: WriteStatus::Failed,
                    written,
                };
            }
            Err(fault) => {
                return Sent {
                    status: WriteStatus::after(fault.kind()),
                    written,
                };
            }
        }
    }
    Sent {
        status: WriteStatus::Written,
        written,
    }
}
