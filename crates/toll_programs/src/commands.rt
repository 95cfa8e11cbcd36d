//! One command or question of the plant, as the program answers it.
ghost use Rattle.std.specs.Prelude.{◌≡◌, IfSome};
ghost use Rattle.toll_programs.specs.Done.{IsCommandDone};
ghost use Rattle.toll_programs.specs.Outputs.{IsReplyPrintout, IsShownIfRoom, on_error, printout_of};
ghost use Rattle.toll_programs.specs.Printing.{fault_line, refusal_line};
ghost use Rattle.toll_programs.specs.declared.status.Status.TheVariants.{Failed, Refused};
ghost use Rattle.toll_programs.specs.StreamOutput.{IsSomePrinted, streams_of};

use crate::output::Output;
use crate::printing::refusal_text;
use std::alloc::{AllocError, Global};
use std::borrow::CowSlice;
use toll_base::Refusal;
use toll_desk::{PlantCmd, PlantReply, plant_do};
use toll_keep::{Keep, KeepFault};
use toll_protocol::Sink;

/// Does a command of the plant or answers a question, writes the answer to `output`, or a fault to `error`,
/// and gives the exit status: 0 if it is accepted, repeated or shown, 1 if it is refused, 3 for a fault or if
/// a write fails. If there is no memory for a refusal's line, that is a fault.
pub fn plant_line<K: Keep, W: Sink, E: Sink>(
    alloc: Global,
    keep: &mut K,
    command: &PlantCmd,
    output: &mut W,
    error: &mut E,
) -> u64
    ensures { IsSomePrinted (IsCommandDone K.meaning keep.old keep.new command.now) (streams_of W.Sink E.Sink output.old output.new error.old error.new) result }
{
    execute(alloc, keep, command).print(output, error)
}

/// Does a command of the plant or answers a question, and gives what [`plant_line`] prints for it.
pub fn execute<K: Keep>(alloc: Global, keep: &mut K, command: &PlantCmd) -> Output
    ensures done { IsCommandDone K.meaning keep.old keep.new command.now (printout_of result) }
    ensures fault { IfSome result.fault (λ fault. printout_of result ≡ on_error Failed (fault_line fault)) }
{
    output_of(alloc, plant_do(alloc, keep, command))
}

// The output for an answer: a fault on standard error, and any other answer on standard output.
fn output_of(alloc: Global, reply: PlantReply) -> Output
    ensures printed { IsReplyPrintout reply (printout_of result) }
    ensures fault { IfSome result.fault (λ fault. printout_of result ≡ on_error Failed (fault_line fault)) }
{
    match reply {
        PlantReply::Accepted => Output::done(CowSlice::Borrowed(b"accepted\n")),
        PlantReply::Repeated => Output::done(CowSlice::Borrowed(b"repeated\n")),
        PlantReply::Refused(why) => output_of_refusal(alloc, &why),
        PlantReply::Text(lines) => Output::done(CowSlice::Owned(lines)),
        PlantReply::Fault(fault) => Output::fault(fault),
    }
}

// The line of a refusal, or that there was no memory for it.
fn output_of_refusal(alloc: Global, why: &Refusal) -> Output
    ensures printed { IsShownIfRoom Refused (refusal_line why.now) (printout_of result) }
    ensures fault { IfSome result.fault (λ fault. printout_of result ≡ on_error Failed (fault_line fault)) }
{
    match refusal_text(alloc, why) {
        Ok(text) => Output::refused(CowSlice::Owned(text.into_bytes())),
        Err(AllocError) => Output::fault(KeepFault::Memory),
    }
}
