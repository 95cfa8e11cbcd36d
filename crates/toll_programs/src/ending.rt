//! How the program ends after a script.
ghost use Rattle.toll_programs.specs.StreamOutput.{IsEndReported, stream_of};

use crate::reporting::{numbered, warn};
use crate::scripts::ScriptEnd;
use crate::status::Status;
use toll_protocol::Sink;

/// Writes why a script ended, unless it is done, and gives the exit status: 0 for a script that is done, 2
/// for one with a bad line or that is too long, 3 for a fault. A write that fails changes nothing.
pub fn report_end<E: Sink>(end: ScriptEnd, error: &mut E) -> u64
    ensures { IsEndReported (stream_of E.Sink error.old error.new) end result }
{
    match end {
        ScriptEnd::Done => u64::from(Status::Done.code()),
        ScriptEnd::BadLine(number) => {
            let line = numbered("bad line ", number);
            warn(error, line.as_str().as_bytes(), Status::Usage)
        }
        ScriptEnd::TooLong => warn(error, b"too long\n", Status::Usage),
        ScriptEnd::Memory => warn(error, b"fault Memory\n", Status::Failed),
        ScriptEnd::ReadFault => warn(error, b"fault Read\n", Status::Failed),
        ScriptEnd::WriteFault => warn(error, b"fault Write\n", Status::Failed),
    }
}
