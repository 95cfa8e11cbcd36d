//! Reading a request from a stream.
ghost use Rattle.std.specs.Prelude.{◌≡◌, ◌≤◌, ◌↔◌, [], length, IfOk, IfSome, OnOk, Err};
ghost use Rattle.std.specs.Io.KnownBytes.{Consumes};
ghost use Rattle.toll_protocol.specs.Parsing.{IsParsedAs, ParseResult, ReadsUnsettled, ReadsUntilSettled};
ghost use Rattle.toll_protocol.specs.Streams.{HasFailed, NoneFailed};

use crate::http_messages::request_reader::RequestReader;
use crate::http_messages::settled::REQUEST_TEXT_LIMIT;
use crate::streams::{ReadStatus, Source};
use std::alloc::Global;
use std::fmt;
use thiserror::Error;

/// Why no request was read.
#[derive(Clone, Copy, Debug, PartialEq, Eq, Drop, Error)]
pub enum ReadFault {
    /// A read failed before enough of the request had come.
    Io,
    /// There was no memory. Nothing was read.
    Memory,
}

/// Its word.
impl fmt::Display for ReadFault {
    ghost use Rattle.std.specs.Prelude.{Some};
    ghost use Rattle.toll_protocol.specs.ReadFaults.{word_of_read_fault};

    ghost output = { λ fault. Some (word_of_read_fault fault) };

    fn fmt<W: fmt::Write>(&self, f: &mut fmt::Formatter<W>) -> fmt::Result {
        match self {
            ReadFault::Io => f.write_str("Read"),
            ReadFault::Memory => f.write_str("Memory"),
        }
    }
}

/// The request at the front of a stream: all bytes that were read of it, at most 12,288. They give the same
/// request as the whole stream. Reading goes on until the head and all of the body that the head claims have
/// come, or 8,192 bytes without the end of a head, or the stream ends, and no further. So a client that waits
/// for the reply need send nothing more, and a later failure doesn't matter.
pub fn read_request<R: Source>(alloc: Global, reader: &mut R) -> Result<Vec<u8>, ReadFault>
    ensures given { IfOk result (λ text. Consumes (R.unread reader.old) (R.unread reader.new) text.items) }
    ensures bound { IfOk result (λ text. length text.items ≤ REQUEST_TEXT_LIMIT) }
    ensures same { IfOk result (λ text. IfSome (R.unread reader.old) (λ stream.
        (outcome : ParseResult) → IsParsedAs text.items outcome ↔ IsParsedAs stream outcome)) }
    ensures no_further { ReadsUntilSettled [] (R.reads reader.old) (R.reads reader.new) }
    ensures early { result ≡ Err ReadFault.Io → ReadsUnsettled (R.unread reader.old) (R.unread reader.new) }
    ensures failed { result ≡ Err ReadFault.Io → HasFailed (R.has_failed reader.old) (R.has_failed reader.new) }
    ensures sound { OnOk result (NoneFailed (R.has_failed reader.old) (R.has_failed reader.new)) }
    ensures memory { result ≡ Err ReadFault.Memory → reader.new ≡ reader.old }
{
    let Ok(mut request) = RequestReader::new(alloc) else {
        return Err(ReadFault::Memory);
    };
    match request.read_on(reader) {
        ReadStatus::Complete => Ok(request.into_bytes()),
        _ => Err(ReadFault::Io),
    }
}
