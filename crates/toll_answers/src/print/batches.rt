//! Batches.
ghost use Rattle.std.specs.Prelude.{◌≡◌, ◌++◌, IfOk, OnOk};
ghost use Rattle.toll_answers.specs.Texts as spec;

use crate::print::column::{BLANK, LINE_FEED, push_left, push_number, push_whole};
use std::alloc::{AllocError, Global};
use toll_base::BatchRow;
use toll_work::{BatchView, RequirementLine, StateWord};

/// A batch: its order and number, its state, its unit and `open` or `closed`; and a line for each
/// requirement in the order that is given: the segment, `consumed` or `produced`, the source, the
/// material, how much is required and how much the batch did. It fails only if memory runs out.
pub fn batch_text(alloc: Global, view: &BatchView) -> Result<Vec<u8>, AllocError>
    ensures { IfOk result (λ text. text.items ≡ spec.batch_text view.now.row view.now.lines.items) }
{
    let mut text = Vec::new(alloc);
    push_head(alloc, &mut text, &view.row)?;
    for line in &view.lines {
        push_requirement(alloc, &mut text, line)?;
    }
    Ok(text)
}

fn push_head(alloc: Global, text: &mut Vec<u8>, row: &BatchRow) -> Result<(), AllocError>
    ensures { OnOk result (text.new.items ≡ text.old.items ++ spec.batch_head row.now) }
{
    let number = row.number.get();
    let digits = format!(in alloc; "{number}")?;
    push_whole(text, row.order.as_bytes(), b'/')?;
    push_whole(text, digits.as_bytes(), BLANK)?;
    push_whole(text, row.state.word().as_bytes(), BLANK)?;
    push_whole(text, row.unit.as_bytes(), BLANK)?;
    push_whole(text, batch_status(row.closed), LINE_FEED)
}

fn push_requirement(
    alloc: Global,
    text: &mut Vec<u8>,
    line: &RequirementLine,
) -> Result<(), AllocError>
    ensures { OnOk result (text.new.items ≡ text.old.items ++ spec.requirement_line line.now) }
{
    push_number(alloc, text, 2, line.row.segment.get(), BLANK)?;
    push_left(text, 8, line.row.role.word().as_bytes(), BLANK)?;
    push_left(text, 16, line.row.source.as_bytes(), BLANK)?;
    push_left(text, 16, line.row.material.as_bytes(), BLANK)?;
    push_number(alloc, text, 10, line.row.amount.get(), BLANK)?;
    push_number(alloc, text, 14, line.actual, LINE_FEED)
}

fn batch_status(closed: bool) -> &'static [u8]
    ensures { result.now ≡ spec.batch_status closed }
{
    if closed { b"closed" } else { b"open" }
}
