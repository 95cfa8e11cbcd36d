//! What was consumed.
ghost use Rattle.std.specs.Prelude.{◌≡◌};
ghost use Rattle.toll_answers.specs.Common.{bytes_cmp, IsInKeyOrder, History, acts, IsRowsOf, IsLawful};
ghost use Rattle.toll_answers.specs.InSlice.{has_consumed_in};
ghost use Rattle.toll_answers.specs.Views as shown;

use toll_base::{LotId, Move, Role, Slice};

/// Whether a batch of the slice's owner consumed from the lot, of the owner or of HOUSE, by an actual
/// that isn't voided.
pub fn has_consumed(slice: &Slice, lot: &LotId) -> bool
    ensures in_slice { result ≡ has_consumed_in slice.now lot.now }
    ensures over { (H : History) → IsLawful H → IsRowsOf H slice.now
        → result ≡ shown.has_consumed (acts slice.now.owner H) lot.now }
{
    has_standing(slice, lot)
}

fn has_standing(slice: &Slice, lot: &LotId) -> bool
    ensures in_slice { result ≡ has_consumed_in slice.now lot.now }
    ensures key_order { IsInKeyOrder bytes_cmp (λ row. row.key) slice.now.moves }
{
    slice.moves().iter().any(|row| consumes(&row.what, lot) && !slice.is_voided(&row.key))
}

// Whether the movement consumes from the lot.
fn consumes(what: &Move, lot: &LotId) -> bool
    ensures { result ≡ shown.consumes_lot lot.now what.now }
{
    match what {
        Move::Actual {
            role: Role::Consumed,
            lot: source,
            ..
        } => *lot == *source,
        _ => false,
    }
}
