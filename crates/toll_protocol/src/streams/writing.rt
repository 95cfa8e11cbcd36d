//! Writing a text to a stream.
ghost use Rattle.std.specs.Prelude.{◌<◌, length, take, IfErr, OnErr, OnOk};
ghost use Rattle.std.specs.Io.KnownBytes.{Appends};
ghost use Rattle.toll_protocol.specs.Streams.{HasFailed};

use crate::streams::response_writer::send_on;
use crate::streams::sink::Sink;
use crate::streams::write_status::WriteStatus;
use std::fmt;
use thiserror::Error;

/// A write failed or took no byte. This number of bytes of the text, its first ones, were written before.
#[derive(Clone, Copy, Debug, PartialEq, Eq, Drop, Error)]
pub struct WriteFault {
    pub written: u64,
}

/// Its word.
impl fmt::Display for WriteFault {
    ghost use Rattle.std.specs.Prelude.{Some};
    ghost use Rattle.toll_protocol.specs.WriteFaults.{word_of_write_fault};

    ghost output = { λ _. Some word_of_write_fault };

    fn fmt<W: fmt::Write>(&self, f: &mut fmt::Formatter<W>) -> fmt::Result {
        f.write_str("Write")
    }
}

/// Writes all of a text, in order, with as many writes as that takes. It takes no memory.
pub fn write_whole<W: Sink>(writer: &mut W, bytes: &[u8]) -> Result<(), WriteFault>
    ensures all { OnOk result (Appends (W.held writer.old) (W.held writer.new) bytes.now) }
    ensures some { IfErr result (λ fault. fault.written < length bytes.now) }
    ensures part { IfErr result (λ fault. Appends (W.held writer.old) (W.held writer.new) (take fault.written bytes.now)) }
    ensures failed { OnErr result (HasFailed (W.has_failed writer.old) (W.has_failed writer.new)) }
{
    let sent = send_on(writer, bytes, 0);
    match sent.status {
        WriteStatus::Written => Ok(()),
        _ => Err(WriteFault {
            written: sent.written as u64,
        }),
    }
}
