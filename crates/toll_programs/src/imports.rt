//! Importing a file of actuals, as the program does it.
ghost use Rattle.std.specs.Prelude.{◌≡◌, ◌⊎◌, Contains, IfSome};
ghost use Rattle.std.specs.List.{list_any};
ghost use Rattle.toll_plant.specs.ImportTexts.{import_text};
ghost use Rattle.toll_plant.specs.Imports.{outcomes_in};
ghost use Rattle.toll_plant.specs.Outcomes.{is_fault_outcome};
ghost use Rattle.toll_programs.specs.Done.{IsImportDone};
ghost use Rattle.toll_programs.specs.Outputs.{IsImportPrintout, IsMetByImport, IsShownIfRoom, IsStoppedImportPrintout, printout_of, refused_file};
ghost use Rattle.toll_programs.specs.Statuses.{status_after_lines, is_turned_away};
ghost use Rattle.toll_programs.specs.StreamOutput.{IsSomePrinted, streams_of};

use crate::output::Output;
use crate::status::Status;
use std::alloc::{AllocError, Global};
use std::borrow::CowSlice;
use toll_keep::{Keep, KeepFault};
use toll_plant::{ImportFault, ImportLine, ImportReport, Outcome, import_actuals, import_text};
use toll_protocol::Sink;

/// Imports a file of actuals, writes the outcomes of its records to `output`, or why it was not imported to
/// `error`, and gives the exit status: 0 if each record is accepted or repeated, 1 if a record is refused or
/// bad, 2 for a file that is too long or has another header, 3 if a record met a fault or a write failed. If
/// there is no memory for the text for `output`, all records may have acted, and `fault Memory` is written to
/// `error`.
pub fn plant_import<K: Keep, W: Sink, E: Sink>(
    alloc: Global,
    keep: &mut K,
    file: &[u8],
    output: &mut W,
    error: &mut E,
) -> u64
    ensures { IsSomePrinted (IsImportDone K.meaning keep.old keep.new file.now) (streams_of W.Sink E.Sink output.old output.new error.old error.new) result }
{
    import_file(alloc, keep, file).print(output, error)
}

/// Imports a file of actuals, and gives what [`plant_import`] prints for it.
pub fn import_file<K: Keep>(alloc: Global, keep: &mut K, file: &[u8]) -> Output
    ensures { IsImportDone K.meaning keep.old keep.new file.now (printout_of result) }
{
    output_of_import(alloc, import_actuals(alloc, keep, file))
}

/// What [`plant_import`] prints for an import, or for a file that was not imported.
pub fn output_of_import(alloc: Global, imported: Result<ImportReport, ImportFault>) -> Output
    ensures printed { IsImportPrintout imported (printout_of result) }
    ensures fault { IfSome result.fault (IsMetByImport imported) }
{
    match imported {
        Ok(report) => output_of_report(alloc, &report),
        Err(fault) => output_of_fault(fault),
    }
}

/// The output for an import that can't go on: the outcomes of its records so far, unless there is no memory
/// for them, and the line of the fault, which takes no memory. The program has failed.
pub fn output_of_stopped_import(alloc: Global, report: &ImportReport, why: &'static [u8]) -> Output
    ensures { IsStoppedImportPrintout report.now.lines.items why.now (printout_of result) }
{
    let stdout = match import_text(alloc, report) {
        Ok(text) => CowSlice::Owned(text),
        Err(AllocError) => CowSlice::Borrowed(b""),
    };
    Output {
        status: Status::Failed,
        stdout,
        stderr: CowSlice::Borrowed(why),
        fault: Some(KeepFault::Closed),
    }
}

// The text of an import, or that there was no memory for it.
fn output_of_report(alloc: Global, report: &ImportReport) -> Output
    ensures printed { IsShownIfRoom (status_after_lines report.now.lines.items) (import_text report.now.lines.items) (printout_of result) }
    ensures fault { IfSome result.fault (λ fault. (fault ≡ KeepFault.Memory) ⊎ Contains (outcomes_in report.now.lines.items) (Outcome.Fault fault)) }
{
    let Ok(text) = import_text(alloc, report) else {
        return Output::fault(KeepFault::Memory);
    };
    let status = status_of(&report.lines);
    Output {
        status,
        stdout: CowSlice::Owned(text),
        stderr: CowSlice::Borrowed(b""),
        fault: (status == Status::Failed).then_some(last_fault(&report.lines)),
    }
}

// The output for a file that was not imported.
fn output_of_fault(fault: ImportFault) -> Output
    ensures printed { printout_of result ≡ refused_file fault }
    ensures fault { IfSome result.fault (λ fault. fault ≡ KeepFault.Memory) }
{
    match fault {
        ImportFault::Memory => Output::fault(KeepFault::Memory),
        ImportFault::TooLong => Output::usage(CowSlice::Borrowed(b"too long\n")),
        ImportFault::BadHeader => Output::usage(CowSlice::Borrowed(b"bad header\n")),
    }
}

// The exit status after an import with these lines.
fn status_of(lines: &[ImportLine]) -> Status
    ensures { result ≡ status_after_lines lines.now }
{
    if has_fault(lines) {
        Status::Failed
    } else if has_refusal(lines) {
        Status::Refused
    } else {
        Status::Done
    }
}

// The fault that the last record met, or Memory.
fn last_fault(lines: &[ImportLine]) -> KeepFault
    ensures { (result ≡ KeepFault.Memory) ⊎ Contains (outcomes_in lines.now) (Outcome.Fault result) }
{
    match lines.last() {
        Some(
            ImportLine {
                outcome: Outcome::Fault(fault),
                ..
            },
        ) => *fault,
        _ => KeepFault::Memory,
    }
}

fn has_fault(lines: &[ImportLine]) -> bool
    ensures { result ≡ list_any (λ l. is_fault_outcome l.outcome) lines.now }
{
    lines
        .iter()
        .any(|line| matches!(line.outcome, Outcome::Fault(_)))
}

// Whether a record was refused, or is bad.
fn has_refusal(lines: &[ImportLine]) -> bool
    ensures { result ≡ list_any (λ l. is_turned_away l.outcome) lines.now }
{
    lines.iter().any(|line| matches!(line.outcome, Outcome::Refused(_) | Outcome::BadRecord))
}
