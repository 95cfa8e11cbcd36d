//! Recalls.
ghost use Rattle.std.specs.Prelude.{◌≡◌, ◌++◌, IfOk, OnOk};
ghost use Rattle.toll_answers.specs.Texts as spec;

use crate::genealogy::RecallLine;
use crate::print::column::{BLANK, LINE_FEED, push_left, push_number};
use std::alloc::{AllocError, Global};

/// A recall, a line for each lot in the order that is given, under a line of headings: how many steps
/// away the lot is, its owner, its name, its disposition, and how much of it is on hand and was
/// shipped. It fails only if memory runs out.
pub fn recall_text(alloc: Global, lines: &[RecallLine]) -> Result<Vec<u8>, AllocError>
    ensures { IfOk result (λ text. text.items ≡ spec.recall_text lines.now) }
{
    let mut text = Vec::new(alloc);
    text.extend_from_slice(head())?;
    for line in lines {
        push_line(alloc, &mut text, line)?;
    }
    Ok(text)
}

#[tactic(auto, unfolding(crate::specs::Columns::left_aligned, crate::specs::Columns::right_aligned))]
fn head() -> &'static [u8]
    ensures { result.now ≡ spec.recall_head }
{
    b" steps owner            lot              disposition        on-hand        shipped\n"
}

fn push_line(alloc: Global, text: &mut Vec<u8>, line: &RecallLine) -> Result<(), AllocError>
    ensures { OnOk result (text.new.items ≡ text.old.items ++ spec.recall_line_text line.now) }
{
    let lot = &line.step.lot;
    push_number(alloc, text, 6, line.step.steps, BLANK)?;
    push_left(text, 16, lot.owner.as_bytes(), BLANK)?;
    push_left(text, 16, lot.lot.as_bytes(), BLANK)?;
    push_left(text, 11, line.disposition.word().as_bytes(), BLANK)?;
    push_number(alloc, text, 14, line.totals.on_hand, BLANK)?;
    push_number(alloc, text, 14, line.totals.shipped, LINE_FEED)
}
