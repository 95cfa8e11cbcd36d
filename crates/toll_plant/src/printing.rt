//! Printing an import.
ghost use Rattle.std.specs.Prelude.{◌≡◌, ◌++◌, IfOk, OnOk};
ghost use Rattle.toll_plant.specs.ImportTexts as spec;

use crate::report::{ImportLine, ImportReport};
use crate::sums::Sums;
use std::alloc::{AllocError, Global};

/// An import, a line for each record: its number, and `accepted`, `repeated`, `refused` with the
/// refusal's number and word, `bad-record`, or `fault` with the fault's word. A last line has how many
/// there are of each. An `Err` means that there was no memory.
pub fn import_text(alloc: Global, report: &ImportReport) -> Result<Vec<u8>, AllocError>
    ensures { IfOk result (λ text. text.items ≡ spec.import_text report.now.lines.items) }
{
    let mut text = Vec::new(alloc);
    for line in &report.lines {
        push_record(alloc, &mut text, line)?;
    }
    push_sums(alloc, &mut text, &report.lines)?;
    Ok(text)
}

fn push_record(alloc: Global, text: &mut Vec<u8>, line: &ImportLine) -> Result<(), AllocError>
    ensures { OnOk result (text.new.items ≡ text.old.items ++ spec.record_line line.now) }
{
    let number = line.number;
    let outcome = line.outcome;
    let shown = format!(in alloc; "{number:>6} {outcome}\n")?;
    text.extend_from_slice(shown.as_bytes())
}

fn push_sums(alloc: Global, text: &mut Vec<u8>, lines: &[ImportLine]) -> Result<(), AllocError>
    ensures { OnOk result (text.new.items ≡ text.old.items ++ spec.sums_line lines.now) }
{
    let sums = Sums::of(lines);
    let shown = format!(in alloc; "{sums}\n")?;
    text.extend_from_slice(shown.as_bytes())
}
