//! Which batch holds a unit.
ghost use Rattle.toll_keep.specs.Holding.{IsHolderIn, IsHolderAmong};

use toll_base::{BatchNo, Name, Slice};

/// The batch that holds a unit: it was opened on the unit and isn't closed. At most one batch, of any
/// owner, holds a unit.
#[derive(Clone, Copy)]
pub struct Holder {
    pub owner: Name,
    pub order: Name,
    pub number: BatchNo,
}

/// The batch of one of these owners that holds the unit.
pub fn holder_among(slices: &[Slice], unit: &Name) -> Option<Holder>
    ensures { IsHolderAmong slices.now unit.now result }
{
    for slice in slices {
        if let Some(holder) = holder_in(slice, unit) {
            return Some(holder);
        }
    }
    None
}

// The owner's batch that holds the unit.
fn holder_in(slice: &Slice, unit: &Name) -> Option<Holder>
    ensures { IsHolderIn slice.now unit.now result }
{
    let batch = slice
        .batches()
        .iter()
        .find(|row| row.unit == *unit && !row.closed)?;
    Some(Holder {
        owner: *slice.owner(),
        order: batch.order,
        number: batch.number,
    })
}
