//! Orders.
ghost use Rattle.std.specs.Prelude.{◌≡◌, ◌++◌, IfOk, OnOk};
ghost use Rattle.toll_answers.specs.Texts as spec;

use crate::print::column::{BLANK, LINE_FEED, push_left, push_number, push_whole};
use std::alloc::{AllocError, Global};
use toll_base::{OrderRow, Slice};

/// The orders of an owner, a line for each in the order of their names: the order, its recipe, how
/// many batches, and `open` or `cancelled`. It is empty if there are none. It fails only if memory runs out.
pub fn orders_text(alloc: Global, slice: &Slice) -> Result<Vec<u8>, AllocError>
    ensures { IfOk result (λ text. text.items ≡ spec.orders_text slice.now.orders) }
{
    let mut text = Vec::new(alloc);
    for row in slice.orders() {
        push_order(alloc, &mut text, row)?;
    }
    Ok(text)
}

fn push_order(alloc: Global, text: &mut Vec<u8>, row: &OrderRow) -> Result<(), AllocError>
    ensures { OnOk result (text.new.items ≡ text.old.items ++ spec.order_line row.now) }
{
    push_left(text, 16, row.order.as_bytes(), BLANK)?;
    push_left(text, 16, row.recipe.as_bytes(), BLANK)?;
    push_number(alloc, text, 2, row.batches.get(), BLANK)?;
    push_whole(text, row.status().as_bytes(), LINE_FEED)
}
