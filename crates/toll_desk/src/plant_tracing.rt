//! The plant's traces.
ghost use Rattle.std.specs.Prelude.{◌≡◌, ◌∷◌, map, IfOk};
ghost use Rattle.toll_base.specs.Values.{house_name};
ghost use Rattle.toll_trace.specs.declared.way.Way.TheVariants.{Forward};
ghost use Rattle.toll_answers.specs.Agreement.{IsPlantTrace};
ghost use Rattle.toll_keep.specs.CallEffects.{IsReading};
ghost use Rattle.toll_desk.specs.Reads.{Over};

use std::alloc::{AllocError, Global};
use toll_base::{LotId, Name, OwnerRow};
use toll_keep::{Keep, KeepFault};
use toll_trace::{Step, Way};

/// The trace over the batches of all owners. It asks only for batches that can lead on from the lot. Forward
/// from an owner's lot these are the owner's own. Back, they are HOUSE's too. Forward from a lot of HOUSE,
/// they are all batches. It fails if a call of the keep does, or with [`KeepFault::Memory`] if memory runs
/// out.
pub fn trace_plant<K: Keep>(
    alloc: Global,
    keep: &mut K,
    lot: &LotId,
    way: Way,
) -> Result<Vec<Step>, KeepFault>
    ensures reading { IsReading K.meaning keep.old keep.new result }
    ensures over { Over K.meaning keep.old keep.new (λ c H. IfOk result (λ steps. IsPlantTrace H way lot.now steps.items)) }
{
    match way {
        Way::Back => keep.trace(alloc, &[lot.owner, Name::house()], lot, Way::Back),
        Way::Forward => {
            if lot.owner == Name::house() {
                return trace_all(alloc, keep, lot);
            }
            keep.trace(alloc, &[lot.owner], lot, Way::Forward)
        }
    }
}

// The forward trace over the batches of all owners.
fn trace_all<K: Keep>(alloc: Global, keep: &mut K, lot: &LotId) -> Result<Vec<Step>, KeepFault>
    ensures reading { IsReading K.meaning keep.old keep.new result }
    ensures over { Over K.meaning keep.old keep.new (λ c H. IfOk result (λ steps. IsPlantTrace H Forward lot.now steps.items)) }
{
    match keep.owners(alloc) {
        Ok(rows) => match names_of(alloc, &rows) {
            Ok(owners) => keep.trace(alloc, &owners, lot, Way::Forward),
            Err(_) => Err(KeepFault::Memory),
        },
        Err(fault) => Err(fault),
    }
}

// HOUSE, and the names of these owners.
fn names_of(alloc: Global, rows: &[OwnerRow]) -> Result<Vec<Name>, AllocError>
    ensures { IfOk result (λ names. names.items ≡ house_name ∷ map (λ row. row.owner) rows.now) }
{
    let mut names = Vec::new(alloc);
    names.push(Name::house())?;
    for row in rows {
        names.push(row.owner)?;
    }
    Ok(names)
}
