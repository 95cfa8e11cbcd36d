//! Answers from remembered rows, or from rows that are read of a keep and then remembered.
ghost use Rattle.std.specs.Prelude.{◌≡◌, ◌≢◌, [], List, Contains, IfOk, IfSome, IsSome};
ghost use Rattle.toll_keep.specs.Common.{Bytes};
ghost use Rattle.toll_keep.specs.Content.{slice_of};
ghost use Rattle.toll_keep.specs.CallEffects.{IsReading};
ghost use Rattle.toll_keep.specs.Meaning.{OverContent, meaning_for};
ghost use Rattle.toll_keep.specs.HeldFor.{KeepsHeld};
ghost use Rattle.toll_keep.specs.Reads.{HaveRead, IsContentKept};
ghost use Rattle.toll_keep.specs.Remembered.{AreFor, AreOf, AreCachedRows, OverPut, OverPutFor};

use crate::keep::Keep;
use crate::keep_fault::KeepFault;
use crate::plant_row::PlantRow;
use crate::remembered::{remember, remembered};
use std::alloc::Global;
use toll_base::{Change, Name, Slice};

/// All rows of an owner, with these changes put: `None` for an unknown owner. No change adds an owner or a
/// unit. It asks the keep for the rows once, as long as there is memory to remember them. It fails if a call
/// of the keep does, or with [`KeepFault::Memory`] if memory runs out.
pub fn read_slice<K: Keep>(
    alloc: Global,
    keep: &mut K,
    slices: &mut Vec<Slice>,
    changes: &[Change],
    owner: &Name,
) -> Result<Option<Slice>, KeepFault>
    ensures reading { (slices.old.items ≢ [] → HaveRead K.meaning keep.old keep.old) → IsReading K.meaning keep.old keep.new result }
    ensures reads { OverPut K.meaning keep.old keep.new changes.now slices.old.items (λ c. IfOk result (λ slice. slice ≡ slice_of c owner.now)) }
    ensures own { OverPut K.meaning keep.old keep.new changes.now slices.old.items (λ c. AreOf c slices.new.items) }
    ensures kept { IsContentKept K.meaning keep.old keep.new }
    ensures alone { (os : List Bytes) → Contains os owner.now
        → (slices.old.items ≢ [] → HaveRead (meaning_for K.meaning K.part os) keep.old keep.old)
        → IsReading (meaning_for K.meaning K.part os) keep.old keep.new result }
    ensures others { (os : List Bytes) → (slices.old.items ≢ [] → HaveRead (meaning_for K.meaning K.part os) keep.old keep.old)
        → KeepsHeld (meaning_for K.meaning K.part os) keep.old keep.new result }
    ensures found { (os : List Bytes) → Contains os owner.now
        → OverPutFor os (meaning_for K.meaning K.part os) keep.old keep.new changes.now slices.old.items
        (λ c. IfOk result (λ slice. slice ≡ slice_of c owner.now)) }
    ensures apart { (os : List Bytes)
        → OverPutFor os (meaning_for K.meaning K.part os) keep.old keep.new changes.now slices.old.items (λ c. AreFor os c slices.new.items) }
    ensures named { IfOk result (λ slice. IfSome slice (λ s. s.owner ≡ owner.now)) }
{
    if let Some(known) = remembered(slices, owner) {
        return Ok(Some(known.copy(alloc)?));
    }
    match keep.slice(alloc, owner)? {
        Some(read) => Ok(Some(remember(alloc, slices, changes, owner, read)?)),
        None => Ok(None),
    }
}

/// The owners, or the units. It fails if a call of the keep does, or with [`KeepFault::Memory`] if memory
/// runs out.
pub fn read_rows<R: PlantRow, K: Keep>(
    alloc: Global,
    keep: &mut K,
    known: &mut Option<Vec<R>>,
) -> Result<Vec<R>, KeepFault>
    ensures reading { (IsSome known.old → HaveRead K.meaning keep.old keep.old) → IsReading K.meaning keep.old keep.new result }
    ensures reads { OverContent K.meaning keep.old keep.new (λ c. AreCachedRows (R.rows_of c) known.old → IfOk result (λ rows. rows.items ≡ R.rows_of c)) }
    ensures own { OverContent K.meaning keep.old keep.new (λ c. AreCachedRows (R.rows_of c) known.old → AreCachedRows (R.rows_of c) known.new) }
    ensures kept { IsContentKept K.meaning keep.old keep.new }
    ensures alone { (os : List Bytes) → (IsSome known.old → HaveRead (meaning_for K.meaning K.part os) keep.old keep.old)
        → IsReading (meaning_for K.meaning K.part os) keep.old keep.new result }
    ensures found { (os : List Bytes) → OverContent (meaning_for K.meaning K.part os) keep.old keep.new
        (λ c. AreCachedRows (R.rows_of c) known.old → IfOk result (λ rows. rows.items ≡ R.rows_of c)) }
    ensures apart { (os : List Bytes) → OverContent (meaning_for K.meaning K.part os) keep.old keep.new
        (λ c. AreCachedRows (R.rows_of c) known.old → AreCachedRows (R.rows_of c) known.new) }
    ensures stays { (os : List Bytes) → IsContentKept (meaning_for K.meaning K.part os) keep.old keep.new }
{
    if let Some(rows) = &*known {
        return Ok(Vec::from_slice(alloc, rows)?);
    }
    let rows = R::read(alloc, keep)?;
    *known = Vec::from_slice(alloc, &rows).ok();
    Ok(rows)
}
