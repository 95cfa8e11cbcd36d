//! Sublots after a movement.
ghost use Rattle.std.specs.Prelude.{◌≡◌};
ghost use Rattle.toll_history.specs.Puts.{gained, less_in_sublot};
ghost use Rattle.toll_history.specs.OwnerFacts.{facts_of};

use toll_base::{Amount, Name, Slice, SublotRow};

/// The sublot, new or known, with the amount brought into it.
pub fn sublot_gaining(slice: &Slice, lot: Name, sublot: Name, amount: Amount) -> SublotRow
    ensures { result ≡ gained lot sublot amount (facts_of slice.now) }
{
    SublotRow {
        lot,
        sublot,
        amount: slice.amount_in(&lot, &sublot) + amount.get(),
    }
}

/// The sublot with the amount taken from it.
pub fn sublot_losing(slice: &Slice, lot: Name, sublot: Name, amount: Amount) -> SublotRow
    ensures { result ≡ less_in_sublot lot sublot amount (facts_of slice.now) }
{
    SublotRow {
        lot,
        sublot,
        amount: slice.amount_in(&lot, &sublot).saturating_sub(amount.get()),
    }
}
