//! What the program writes, and its exit status.
ghost use Rattle.std.specs.Prelude.{◌≡◌, ◌≤◌, ◌++◌, [], OnErr, OnOk, codes, decimal, length};
ghost use Rattle.toll_programs.specs.Outputs.{printout_in};
ghost use Rattle.toll_programs.specs.Statuses.{exit_code};
ghost use Rattle.toll_programs.specs.StreamOutput.{IsCut, IsPrinted, IsNothingWritten, IsWritten, IsWrittenOrFailed, IsWarned, stream_of, streams_of};

use crate::status::Status;
use arrayvec::ArrayString;
use itoa::Buffer;
use toll_protocol::{Response, Sink, WriteFault, write_whole};

/// How many bytes a line with a number may have.
const LINE_BYTES: usize = 32;

/// Writes a text, and gives the exit status: that of `status`, or of a failure if a write fails.
pub fn report<W: Sink>(writer: &mut W, text: &[u8], status: Status) -> u64
    ensures { IsWrittenOrFailed (stream_of W.Sink writer.old writer.new) text.now (exit_code status) result }
{
    match write_whole(writer, text) {
        Ok(()) => u64::from(status.code()),
        Err(_) => u64::from(Status::Failed.code()),
    }
}

/// Writes why the program ends, and gives the exit status. A write that fails changes nothing.
pub fn warn<W: Sink>(writer: &mut W, text: &[u8], status: Status) -> u64
    ensures { IsWarned (stream_of W.Sink writer.old writer.new) text.now status result }
{
    let _ = write_whole(writer, text);
    u64::from(status.code())
}

/// Writes the output and then the error, and gives the exit status: that of the response, or 3 if its output
/// can't be written. An error that can't be written changes nothing. If there is no text for a stream, it
/// isn't used.
pub fn print<W: Sink, E: Sink>(response: &Response<'_>, output: &mut W, error: &mut E) -> u64
    ensures { IsPrinted (streams_of W.Sink E.Sink output.old output.new error.old error.new) (printout_in response.now) result }
{
    let written = write_text(output, response.output);
    let _ = write_text(error, response.error);
    match written {
        Ok(()) => u64::from(response.status),
        Err(_) => u64::from(Status::Failed.code()),
    }
}

// Writes a text. If it has no bytes, the writer isn't used.
fn write_text<W: Sink>(writer: &mut W, text: &[u8]) -> Result<(), WriteFault>
    ensures written { OnOk result (IsWritten (stream_of W.Sink writer.old writer.new) text.now) }
    ensures cut { OnErr result (IsCut (stream_of W.Sink writer.old writer.new) text.now) }
    ensures silent { text.now ≡ [] → IsNothingWritten (stream_of W.Sink writer.old writer.new) }
{
    if text.is_empty() {
        return Ok(());
    }
    write_whole(writer, text)
}

/// The line of these words and a number. It takes no memory.
pub fn numbered(words: &str, number: u64) -> ArrayString<LINE_BYTES>
    requires { length words.now ≤ 11 }
    ensures { result.bytes ≡ words.now ++ decimal number ++ codes "\n" }
{
    let mut digits = Buffer::new();
    let mut line = ArrayString::new();
    line.push_str(words);
    line.push_str(digits.format(number));
    line.push_str("\n");
    line
}
