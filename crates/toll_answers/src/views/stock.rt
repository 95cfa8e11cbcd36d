//! What is in stock.
ghost use Rattle.std.specs.Prelude.{◌≡◌, ◌<◌, ◌^◌, map, IfOk};
ghost use Rattle.std.specs.declared.cmp.Ordering.TheVariants.{Less};
ghost use Rattle.toll_answers.specs.Common.{Bytes, bytes_cmp, pair_cmp, IsInKeyOrder, held_in};
ghost use Rattle.toll_history.specs.OverRows.{OverRows};
ghost use Rattle.toll_answers.specs.InSlice.{line_in};
ghost use Rattle.toll_answers.specs.Views.{AreStockLines};

use crate::views::lot::measure_of;
use std::alloc::{AllocError, Global};
use std::cmp::Ordering;
use toll_base::{LotRow, Measure, Name, Slice, SublotRow};

/// A lot, the measure of its material, and how much of it is on hand: the sum of its sublots.
#[derive(Clone, Copy)]
pub struct StockLine {
    pub row: LotRow,
    pub measure: Measure,
    pub amount: u64,
}

/// All lots of the slice's owner, in the order of their names, each with how much of it is on hand. It fails
/// only if memory runs out.
pub fn stock_lines(alloc: Global, slice: &Slice) -> Result<Vec<StockLine>, AllocError>
    ensures in_slice { IfOk result (λ lines. lines.items ≡ map (line_in slice.now) slice.now.lots) }
    ensures over { OverRows slice.now
        (λ H. IfOk result (λ lines. AreStockLines H slice.now.owner lines.items)) }
{
    lines_in_slice(alloc, slice)
}

fn lines_in_slice(alloc: Global, slice: &Slice) -> Result<Vec<StockLine>, AllocError>
    ensures lines { IfOk result (λ lines. lines.items ≡ map (line_in slice.now) slice.now.lots) }
    ensures lots { IsInKeyOrder bytes_cmp (λ row. row.lot) slice.now.lots }
    ensures sublots { IsInKeyOrder pair_cmp (λ row. (row.lot, row.sublot)) slice.now.sublots }
{
    // For the proof: reading the owner shows the slice's rules.
    let _owner = slice.owner();
    let rows = slice.lots();
    let mut sublots = slice.sublots();
    let mut lines = Vec::with_capacity(alloc, rows.len())?;
    for row in rows {
        let (amount, later) = take_lot(sublots, &row.lot);
        sublots = later;
        lines.push(StockLine {
            row: *row,
            measure: measure_of(slice, row),
            amount,
        })?;
    }
    Ok(lines)
}

// How much of the lot these sublots hold, and the sublots behind its own: those of later lots.
fn take_lot<'a>(sublots: &'a [SublotRow], lot: &Name) -> (u64, &'a [SublotRow])
    requires order { IsInKeyOrder pair_cmp (λ row. (row.lot, row.sublot)) sublots.now }
    requires fits { held_in lot.now sublots.now < 2 ^ 64 }
    ensures amount { result.0 ≡ held_in lot.now sublots.now }
    ensures later { (l : Bytes) → bytes_cmp lot.now l ≡ Less
        → held_in l result.1.now ≡ held_in l sublots.now }
    ensures order { IsInKeyOrder pair_cmp (λ row. (row.lot, row.sublot)) result.1.now }
{
    let mut sum: u64 = 0;
    let mut rest = sublots;
    while let Some((row, behind)) = rest.split_first() {
        match row.lot.cmp(lot) {
            Ordering::Less => {}
            Ordering::Equal => sum += row.amount,
            Ordering::Greater => break,
        }
        rest = behind;
    }
    (sum, rest)
}
