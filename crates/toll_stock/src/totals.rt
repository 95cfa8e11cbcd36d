//! The totals of one lot.
ghost use Rattle.std.specs.Prelude.{◌≡◌, ◌≤◌};
ghost use Rattle.toll_stock.specs.Common.{bytes_cmp, lot_id, shipped, History, IsInKeyOrder, IsRowsOf, IsLawful};
ghost use Rattle.toll_stock.specs.LotTotals.{shipped_by, shipped_in, totals_in, totals_given};

use crate::stock::{Totals, on_hand_of};
use toll_base::{Move, MoveRow, Name, Slice};

/// How much of a lot is on hand, and how much of it was shipped; `None` if the owner has no such lot. It
/// takes no memory, and walks over the owner's movements. Only tests call it: programs show the totals of
/// many lots, by [`LotTotals`](crate::LotTotals).
pub fn lot_totals(slice: &Slice, lot: &Name) -> Option<Totals>
    ensures rows { result ≡ totals_in slice.now lot.now }
    ensures totals { (H : History) → IsLawful H → IsRowsOf H slice.now
        → result ≡ totals_given H (lot_id slice.now.owner lot.now) }
{
    match slice.lot(lot) {
        None => None,
        Some(_) => Some(Totals {
            on_hand: on_hand_of(slice, lot),
            shipped: shipped_of(slice, lot),
        }),
    }
}

// What the lot's shipments took.
fn shipped_of(slice: &Slice, lot: &Name) -> u64
    ensures rows { result ≡ shipped_in slice.now lot.now }
    ensures amount { (H : History) → IsLawful H → IsRowsOf H slice.now
        → result ≡ shipped H (lot_id slice.now.owner lot.now) }
{
    sum_of_shipments(slice, lot)
}

// The sum of the amounts of the lot's shipments.
fn sum_of_shipments(slice: &Slice, lot: &Name) -> u64
    ensures sum { result ≡ shipped_in slice.now lot.now }
    ensures key_order { IsInKeyOrder bytes_cmp (λ row. row.key) slice.now.moves }
{
    // For the proof: the amounts of rows that keep the rules fit.
    let _owner = slice.owner();
    let mut sum: u64 = 0;
    for row in slice.moves().iter() {
        sum += amount_shipped(row, lot);
    }
    sum
}

// What the movement takes of the lot, if it is a shipment.
fn amount_shipped(row: &MoveRow, lot: &Name) -> u64
    ensures amount { result ≡ shipped_by lot.now row.now }
    ensures bound { result ≤ 1000000000 }
{
    match row.what {
        Move::Ship { lot: shipped, .. } if shipped == *lot => row.amount.get(),
        _ => 0,
    }
}
