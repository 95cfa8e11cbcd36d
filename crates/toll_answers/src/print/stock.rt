//! Stock.
ghost use Rattle.std.specs.Prelude.{◌≡◌, ◌++◌, IfOk, OnOk, option_to_list};
ghost use Rattle.toll_base.specs.Keys.{pair_cmp};
ghost use Rattle.toll_base.specs.Table.{IsInKeyOrder};
ghost use Rattle.toll_history.specs.History.{History};
ghost use Rattle.toll_history.specs.OwnerFacts.{IsRowsOf};
ghost use Rattle.toll_history.specs.Verdict.{IsLawful};
ghost use Rattle.toll_answers.specs.Texts as spec;

use crate::print::column::{BLANK, LINE_FEED, push_left, push_number, push_whole};
use std::alloc::{AllocError, Global};
use toll_base::{LotRow, Measure, Slice, SublotRow};

/// What an owner has, a line for each sublot in the order of its lot and its name: the lot, the sublot,
/// the lot's material and disposition, and how much is in the sublot, with the material's measure. It
/// is empty if there are none. It fails only if memory runs out.
pub fn stock_text(alloc: Global, slice: &Slice) -> Result<Vec<u8>, AllocError>
    ensures in_slice { IfOk result
        (λ text. text.items ≡ spec.stock_text (spec.sublots_in slice.now)) }
    ensures over_histories { (H : History) → IsLawful H → IsRowsOf H slice.now
        → IfOk result (λ text. spec.IsStockText H slice.now.owner text.items) }
{
    text_in_slice(alloc, slice)
}

fn text_in_slice(alloc: Global, slice: &Slice) -> Result<Vec<u8>, AllocError>
    ensures text { IfOk result (λ text. text.items ≡ spec.stock_text (spec.sublots_in slice.now)) }
    ensures order { IsInKeyOrder pair_cmp (λ row. (row.lot, row.sublot)) slice.now.sublots }
{
    let mut text = Vec::new(alloc);
    for row in slice.sublots() {
        push_shown(alloc, &mut text, slice, row)?;
    }
    Ok(text)
}

// A line, if the lot and its material are there.
fn push_shown(
    alloc: Global,
    text: &mut Vec<u8>,
    slice: &Slice,
    row: &SublotRow,
) -> Result<(), AllocError>
    ensures { OnOk result (text.new.items
        ≡ text.old.items ++ spec.stock_text (option_to_list (spec.shown_in slice.now row.now))) }
{
    let Some(lot) = slice.lot(&row.lot) else {
        return Ok(());
    };
    match slice.material(&lot.material) {
        None => Ok(()),
        Some(material) => push_sublot(alloc, text, row, &lot, &material.measure),
    }
}

fn push_sublot(
    alloc: Global,
    text: &mut Vec<u8>,
    row: &SublotRow,
    lot: &LotRow,
    measure: &Measure,
) -> Result<(), AllocError>
    ensures { OnOk result (text.new.items ≡ text.old.items
        ++ spec.sublot_line (record { row = row.now; lot = lot.now; measure = measure.now })) }
{
    push_left(text, 16, row.lot.as_bytes(), BLANK)?;
    push_left(text, 16, row.sublot.as_bytes(), BLANK)?;
    push_left(text, 16, lot.material.as_bytes(), BLANK)?;
    push_left(text, 11, lot.disposition.word().as_bytes(), BLANK)?;
    push_number(alloc, text, 14, row.amount, BLANK)?;
    push_whole(text, measure.as_bytes(), LINE_FEED)
}
