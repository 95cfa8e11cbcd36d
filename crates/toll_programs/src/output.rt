//! What an operation prints, and its exit status.
ghost use Rattle.std.specs.Prelude.{◌≡◌, ◌==◌, is_none, not};
ghost use Rattle.toll_programs.specs.Statuses.{exit_code};
ghost use Rattle.toll_programs.specs.declared.status.Status.TheVariants.{Failed};

use crate::printing::fault_line;
use crate::reporting::print;
use crate::status::Status;
use std::borrow::CowSlice;
use toll_keep::KeepFault;
use toll_protocol::{Response, Sink};

/// How a command, a question or an import ends, and its output. A text that is part of the program takes no
/// memory, so it can always be printed after a change.
#[derive(Drop)]
pub struct Output {
    pub status: Status,
    pub stdout: CowSlice<'static, u8>,
    pub stderr: CowSlice<'static, u8>,
    /// The fault because of which the status is that of a failure.
    pub fault: Option<KeepFault>,
    ghost failed: { is_none fault ≡ not (exit_code status == exit_code Failed) },
}

impl Output {
    ghost use Rattle.std.specs.Prelude.{None, Some};
    ghost use Rattle.std.specs.Cow.{cow_slice_items};
    ghost use Rattle.toll_programs.specs.Outputs.{on_error, on_output, printout_in, printout_of};
    ghost use Rattle.toll_programs.specs.Printing.{fault_line};
    ghost use Rattle.toll_programs.specs.StreamOutput.{IsPrinted, streams_of};

    /// A text on standard output, after all was done.
    pub fn done(text: CowSlice<'static, u8>) -> Self
        ensures printed { printout_of result ≡ on_output Status.Done (cow_slice_items text.entry) }
        ensures fault { result.fault ≡ None }
    {
        Output {
            status: Status::Done,
            stdout: text,
            stderr: CowSlice::Borrowed(b""),
            fault: None,
        }
    }

    /// The line of a refusal on standard output.
    pub fn refused(line: CowSlice<'static, u8>) -> Self
        ensures printed { printout_of result ≡ on_output Status.Refused (cow_slice_items line.entry) }
        ensures fault { result.fault ≡ None }
    {
        Output {
            status: Status::Refused,
            stdout: line,
            stderr: CowSlice::Borrowed(b""),
            fault: None,
        }
    }

    /// A text on standard error, since the program takes no such words or file.
    pub fn usage(text: CowSlice<'static, u8>) -> Self
        ensures printed { printout_of result ≡ on_error Status.Usage (cow_slice_items text.entry) }
        ensures fault { result.fault ≡ None }
    {
        Output {
            status: Status::Usage,
            stdout: CowSlice::Borrowed(b""),
            stderr: text,
            fault: None,
        }
    }

    /// The line of a fault on standard error, which takes no memory. The program has failed.
    pub fn fault(fault: KeepFault) -> Self
        ensures printed { printout_of result ≡ on_error Status.Failed (fault_line fault) }
        ensures fault { result.fault ≡ Some fault }
    {
        Output {
            status: Status::Failed,
            stdout: CowSlice::Borrowed(b""),
            stderr: CowSlice::Borrowed(fault_line(fault)),
            fault: Some(fault),
        }
    }

    /// The same as a server's response.
    pub fn as_response(&self) -> Response<'_>
        ensures { printout_in result ≡ printout_of self.now }
    {
        Response {
            status: self.status.code(),
            output: &self.stdout,
            error: &self.stderr,
        }
    }

    /// Prints it as [`print`](crate::print) does, and gives the exit status.
    pub fn print<W: Sink, E: Sink>(&self, output: &mut W, error: &mut E) -> u64
        ensures { IsPrinted (streams_of W.Sink E.Sink output.old output.new error.old error.new) (printout_of self.now) result }
    {
        print(&self.as_response(), output, error)
    }
}
