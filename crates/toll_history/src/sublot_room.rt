//! Room in a sublot.
ghost use Rattle.std.specs.Prelude.{◌≡◌, if◌then◌else◌};
ghost use Rattle.toll_base.specs.declared.refusal.Refusal.TheVariants.{LimitReached};
ghost use Rattle.toll_history.specs.Bounds.{sublot_bounds};
ghost use Rattle.toll_history.specs.OwnerFacts.{facts_of};
ghost use Rattle.toll_history.specs.Verdict.{verdict_of_checks, Accepted, Refused};

use toll_base::{Amount, MOST_STOCK, MOST_SUBLOTS, Name, Slice};

/// Whether there is room for the amount in the sublot, which may be a new one.
pub fn has_room_in(slice: &Slice, lot: &Name, sublot: &Name, amount: Amount) -> bool
    ensures { (if result then Accepted else Refused LimitReached)
        ≡ verdict_of_checks (sublot_bounds (facts_of slice.now) lot.now sublot.now amount) }
{
    let _owner = slice.owner();
    if slice.sublot(lot, sublot).is_none() && slice.sublots().len() >= MOST_SUBLOTS {
        return false;
    }
    slice.amount_in(lot, sublot) + amount.get() <= MOST_STOCK
}
