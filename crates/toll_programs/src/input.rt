//! Reading a script whole.
ghost use Rattle.std.specs.Prelude.{◌≡◌, ◌≢◌, ◌+◌, ◌^◌, ◌<◌, ◌≤◌, length, take, IfOk, OnErr, OnOk, Err};
ghost use Rattle.std.specs.Io.KnownBytes.{Consumes, IsAtEnd};
ghost use Rattle.toll_protocol.specs.Streams.{HasFailed, NoneFailed};
ghost use Rattle.toll_programs.specs.Inputs.{IsTooLong, IsWholeInput};

use std::alloc::Global;
use std::io;
use thiserror::Error;
use toll_protocol::{Source, read_behind};

/// How many bytes a script may have.
const SCRIPT_LIMIT: usize = 1_048_576;

/// Why a script was not read.
#[derive(Clone, Copy)]
pub enum InputFault {
    /// There was no memory. Nothing was read.
    Memory,
    /// The input has more bytes than a script may have. One byte more than that was read.
    TooLong,
    /// A read failed. What came before it is lost.
    Read,
}

/// Why the front of a stream was not read.
#[derive(Clone, Copy, Debug, PartialEq, Eq, Drop, Error)]
pub enum FrontFault {
    /// There was no memory. Nothing was read.
    #[error("Memory")]
    Memory,
    /// A read failed. What came before it is lost.
    #[error("Read")]
    Read,
}

/// The script that a reader gives: all bytes up to its end. Fails if there is no memory for a script of
/// [`SCRIPT_LIMIT`] bytes, if the reader gives more than that, or if a read fails.
pub fn read_input<R: Source>(alloc: Global, reader: &mut R) -> Result<Vec<u8>, InputFault>
    ensures whole { IfOk result (λ text. IsWholeInput (R.unread reader.old) (R.unread reader.new) text.items) }
    ensures unread { result ≡ Err InputFault.Memory → reader.new ≡ reader.old }
    ensures too_long { result ≡ Err InputFault.TooLong → IsTooLong (R.unread reader.old) (R.unread reader.new) }
    ensures failed { result ≡ Err InputFault.Read → HasFailed (R.has_failed reader.old) (R.has_failed reader.new) }
    ensures sound { result ≢ Err InputFault.Read → NoneFailed (R.has_failed reader.old) (R.has_failed reader.new) }
{
    match read_front(alloc, reader, SCRIPT_LIMIT) {
        Ok(text) if text.len() > SCRIPT_LIMIT => Err(InputFault::TooLong),
        Ok(text) => Ok(text),
        Err(FrontFault::Memory) => Err(InputFault::Memory),
        Err(FrontFault::Read) => Err(InputFault::Read),
    }
}

/// The bytes that the reader gives up to its end, or `most + 1` bytes if it gives more than `most`. Fails if there is
/// no memory for `most + 1` bytes, or if a read fails.
pub fn read_front<R: Source>(
    alloc: Global,
    reader: &mut R,
    most: usize,
) -> Result<Vec<u8>, FrontFault>
    requires { most + 1 < 2 ^ 64 }
    ensures given { IfOk result (λ text. Consumes (R.unread reader.old) (R.unread reader.new) text.items) }
    ensures unread { result ≡ Err FrontFault.Memory → reader.new ≡ reader.old }
    ensures bound { IfOk result (λ text. length text.items ≤ most + 1) }
    ensures whole { IfOk result (λ text. length text.items ≤ most → IsAtEnd (R.unread reader.new)) }
    ensures failed { result ≡ Err FrontFault.Read → HasFailed (R.has_failed reader.old) (R.has_failed reader.new) }
    ensures sound { result ≢ Err FrontFault.Read → NoneFailed (R.has_failed reader.old) (R.has_failed reader.new) }
{
    let Ok(mut text) = vec![in alloc; 0u8; most + 1] else {
        return Err(FrontFault::Memory);
    };
    match fill(reader, text.as_mut_slice()) {
        Ok(filled) => {
            text.truncate(filled);
            Ok(text)
        }
        Err(_) => Err(FrontFault::Read),
    }
}

// Reads until the buffer is full or the reader ends, and returns how many bytes were filled.
fn fill<R: Source>(reader: &mut R, buffer: &mut [u8]) -> io::Result<usize>
    ensures bound { IfOk result (λ n. n ≤ length buffer.new) }
    ensures given { IfOk result (λ n. Consumes (R.unread reader.old) (R.unread reader.new) (take n buffer.new)) }
    ensures whole { IfOk result (λ n. n < length buffer.new → IsAtEnd (R.unread reader.new)) }
    ensures sound { OnOk result (NoneFailed (R.has_failed reader.old) (R.has_failed reader.new)) }
    ensures failed { OnErr result (HasFailed (R.has_failed reader.old) (R.has_failed reader.new)) }
{
    let mut filled = 0;
    while filled < buffer.len() {
        match read_behind(reader, buffer, filled) {
            Ok(0) => return Ok(filled),
            Ok(n) => filled += n,
            Err(e) => return Err(e),
        }
    }
    Ok(filled)
}
