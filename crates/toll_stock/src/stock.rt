//! What is on hand.
ghost use Rattle.std.specs.Prelude.{◌≡◌};
ghost use Rattle.toll_stock.specs.Common.{option_map, pair_cmp, lot_id, sublot_at, IsInKeyOrder, on_hand, History, stock, IsRowsOf, IsLawful};
ghost use Rattle.toll_stock.specs.LotTotals.{stock_given, on_hand_in};

use crate::lot_rows::sublots_of;
use toll_base::{Name, Slice};

/// How much of a lot is on hand, and how much was shipped, in the measure of its material.
#[derive(Clone, Copy, PartialEq, Eq)]
pub struct Totals {
    /// What was received and produced, less what was consumed, shipped and scrapped. A split keeps
    /// it.
    pub on_hand: u64,
    /// What was shipped.
    pub shipped: u64,
}

/// How much is in the sublot, in the measure of the lot's material; `None` if the owner has no such sublot.
/// Only tests call it.
pub fn on_hand(slice: &Slice, lot: &Name, sublot: &Name) -> Option<u64>
    ensures rows { result
        ≡ option_map (λ row. row.amount) (sublot_at slice.now (lot.now, sublot.now)) }
    ensures stock { (H : History) → IsRowsOf H slice.now
        → result ≡ stock_given H (lot_id slice.now.owner lot.now) sublot.now }
{
    amount_at(slice, lot, sublot)
}

fn amount_at(slice: &Slice, lot: &Name, sublot: &Name) -> Option<u64>
    ensures { result ≡ option_map (λ row. row.amount) (sublot_at slice.now (lot.now, sublot.now)) }
{
    match slice.sublot(lot, sublot) {
        None => None,
        Some(row) => Some(row.amount),
    }
}

/// How much of a lot is on hand: the sum of its sublots, in the measure of its material; 0 if the
/// owner has no such lot. It takes no memory, and looks at the lot's sublots alone.
pub fn on_hand_of(slice: &Slice, lot: &Name) -> u64
    ensures rows { result ≡ on_hand_in slice.now lot.now }
    ensures amount { (H : History) → IsLawful H → IsRowsOf H slice.now
        → result ≡ on_hand H (lot_id slice.now.owner lot.now) }
{
    sum_of_sublots(slice, lot)
}

// What is in the lot's sublots.
fn sum_of_sublots(slice: &Slice, lot: &Name) -> u64
    ensures sum { result ≡ on_hand_in slice.now lot.now }
    ensures key_order { IsInKeyOrder pair_cmp (λ row. (row.lot, row.sublot)) slice.now.sublots }
{
    // For the proof: the amounts of rows that keep the rules fit.
    let _owner = slice.owner();
    let rows = sublots_of(slice, lot);
    let mut sum: u64 = 0;
    for row in rows {
        sum += row.amount;
    }
    sum
}
