//! Traces.
ghost use Rattle.std.specs.Prelude.{◌≡◌, ◌++◌, IfOk, OnOk};
ghost use Rattle.toll_answers.specs.Texts as spec;

use crate::print::column::{BLANK, LINE_FEED, push_left, push_number, push_whole};
use std::alloc::{AllocError, Global};
use toll_trace::Step;

/// A trace, a line for each lot in the order that is given: how many steps away it is, its owner and
/// its name. It fails only if memory runs out.
pub fn trace_text(alloc: Global, steps: &[Step]) -> Result<Vec<u8>, AllocError>
    ensures { IfOk result (λ text. text.items ≡ spec.trace_text steps.now) }
{
    let mut text = Vec::new(alloc);
    for step in steps {
        push_step(alloc, &mut text, step)?;
    }
    Ok(text)
}

fn push_step(alloc: Global, text: &mut Vec<u8>, step: &Step) -> Result<(), AllocError>
    ensures { OnOk result (text.new.items ≡ text.old.items ++ spec.step_line step.now) }
{
    push_number(alloc, text, 6, step.steps, BLANK)?;
    push_left(text, 16, step.lot.owner.as_bytes(), BLANK)?;
    push_whole(text, step.lot.lot.as_bytes(), LINE_FEED)
}
