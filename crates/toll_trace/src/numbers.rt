//! Lots by their numbers: their places in a list of lots.
ghost use Rattle.std.specs.Prelude.{◌≡◌, true, [], Contains, IfSome, IfOk, OnOk, None};
ghost use Rattle.toll_base.specs.Lots.{lot_cmp};
ghost use Rattle.toll_trace.specs.Common.{IsStrictlySortedBy};
ghost use Rattle.toll_trace.specs.Numbers.{AreAllNumbers, HaveNumbers, IsNumber};

use crate::places::Place;
use std::alloc::{AllocError, Global};
use toll_base::LotId;

/// The number of the lot, if it is in the list.
pub(crate) fn number_of(lots: &[LotId], lot: &LotId) -> Option<usize>
    requires { IsStrictlySortedBy lot_cmp lots.now }
    ensures some { IfSome result (λ number. IsNumber lots.now number lot.now) }
    ensures none { result ≡ None → Contains lots.now lot.now → ⊥ }
{
    match lots.binary_search(lot) {
        Ok(number) => Some(number),
        Err(_) => None,
    }
}

/// The number of a lot of the list.
pub(crate) fn number_in(lots: &[LotId], lot: &LotId) -> usize
    requires sorted { IsStrictlySortedBy lot_cmp lots.now }
    requires listed { Contains lots.now lot.now }
    ensures { IsNumber lots.now result lot.now }
{
    match number_of(lots, lot) {
        Some(number) => number,
        // Never: the lot is in the list.
        None => 0,
    }
}

/// Adds the numbers of those of these lots that are in the list.
pub(crate) fn add_numbers(
    numbers: &mut Vec<usize>,
    lots: &[LotId],
    those: &[LotId],
) -> Result<(), AllocError>
    requires sorted { IsStrictlySortedBy lot_cmp lots.now }
    requires none { numbers.old.items ≡ [] }
    ensures { OnOk result (AreAllNumbers lots.now those.now numbers.new.items) }
{
    let mut gap = 0;
    for lot in those {
        if is_in_gap(lots, gap, lot) {
            continue;
        }
        match lots.binary_search(lot) {
            Ok(number) => numbers.push(number)?,
            Err(place) => gap = place,
        }
    }
    Ok(())
}

/// Whether the lot belongs between the lots before this place and those from there on, and so isn't in
/// the list. Of neighbours that the list doesn't have, the first is searched and the others are in its gap.
fn is_in_gap(lots: &[LotId], place: usize, lot: &LotId) -> bool
    requires { IsStrictlySortedBy lot_cmp lots.now }
    ensures { result ≡ true → Contains lots.now lot.now → ⊥ }
{
    let is_behind = match place.checked_sub(1) {
        Some(last) => last < lots.len() && lots[last].cmp(lot).is_lt(),
        None => true,
    };
    let is_ahead = match lots.get(place) {
        Some(next) => lot.cmp(next).is_lt(),
        None => true,
    };
    is_behind && is_ahead
}

/// The uses of lots of the list, with the lots' numbers.
pub(crate) fn numbered(
    alloc: Global,
    lots: &[LotId],
    uses: &[(Place, LotId)],
) -> Result<Vec<(Place, usize)>, AllocError>
    requires sorted { IsStrictlySortedBy lot_cmp lots.now }
    requires listed { (u : _) → Contains uses.now u → Contains lots.now u.1 }
    ensures { IfOk result (λ all. HaveNumbers lots.now uses.now all.items) }
{
    let mut all = Vec::new(alloc);
    for (place, lot) in uses {
        all.push((*place, number_in(lots, lot)))?;
    }
    Ok(all)
}
