//! Running a script.
ghost use Rattle.toll_programs.specs.Running.{IsScriptRun};

use crate::events::{ScriptFault, events_of};
use crate::input::{InputFault, read_input};
use crate::printing::printed;
use std::alloc::Global;
use toll_keep::Keep;
use toll_protocol::{Sink, Source, write_whole};
use toll_wire::run_events;

/// How a script ended.
#[derive(Clone, Copy, Debug, PartialEq, Eq)]
pub enum ScriptEnd {
    /// All events ran, and their answers were written.
    Done,
    /// The line of this number, counted from 1, is the first that is not an event, a comment or empty.
    /// Nothing ran, and nothing was written.
    BadLine(u64),
    /// The input has more than 1,048,576 bytes. Nothing ran, and nothing was written.
    TooLong,
    /// There was no memory, and no read failed. Nothing was written. Either nothing was read; or nothing ran,
    /// and no line is bad before the one that had no memory; or all events ran.
    Memory,
    /// A read failed. Nothing ran, and nothing was written.
    ReadFault,
    /// A write failed or took no byte. All events ran, and a front of their answers was written.
    WriteFault,
}

/// Runs a script: reads it whole, checks all its lines, runs their events over the keep, and writes the
/// answers.
///
/// Lines end in LF, which may be missing after the last. Empty lines and lines that begin with `#` ask for
/// nothing. `> OWNER KEY METHOD TARGET` is an owner's request, with its body after one more space; `-` for
/// OWNER or KEY leaves that field out. Any other line is the words of a command of the plant, with spaces
/// between them.
pub fn script<R: Source, W: Sink, K: Keep>(
    alloc: Global,
    reader: &mut R,
    writer: &mut W,
    keep: &mut K,
) -> ScriptEnd
    ensures { IsScriptRun R.Source W.Sink K.meaning reader.old reader.new writer.old writer.new keep.old keep.new result }
{
    let text = match read_input(alloc, reader) {
        Ok(text) => text,
        Err(InputFault::Memory) => return ScriptEnd::Memory,
        Err(InputFault::TooLong) => return ScriptEnd::TooLong,
        Err(InputFault::Read) => return ScriptEnd::ReadFault,
    };
    let events = match events_of(alloc, &text) {
        Ok(events) => events,
        Err(ScriptFault::Memory) => return ScriptEnd::Memory,
        Err(ScriptFault::BadLine(number)) => return ScriptEnd::BadLine(number),
    };
    let Ok(answers) = run_events(alloc, keep, &events) else {
        return ScriptEnd::Memory;
    };
    let Ok(output) = printed(alloc, &answers) else {
        return ScriptEnd::Memory;
    };
    match write_whole(writer, &output) {
        Ok(()) => ScriptEnd::Done,
        Err(_) => ScriptEnd::WriteFault,
    }
}
