//! Remembered slices, each with rows that its copies share.
ghost use Rattle.std.specs.Prelude.{◌≡◌, ◌≢◌, [], Some, List, Contains, OnOk, IfOk, IfSome, is_some, map, position};
ghost use Rattle.toll_keep.specs.Common.{Bytes, after_change, after_changes, list_any};
ghost use Rattle.toll_keep.specs.Content.{Content, slice_of};
ghost use Rattle.toll_keep.specs.Remembered.{AreFor, AreOf, is_put_for};
ghost use Rattle.toll_keep.specs.Slices.{is_slice_of};

use crate::slices::{index_of_slice, shared};
use std::alloc::{AllocError, Global};
use toll_base::{Change, Name, Row, Slice, UniqueSlice};

/// The owner's slice, if it is remembered.
pub fn remembered<'a>(slices: &'a [Slice], owner: &Name) -> Option<&'a Slice>
    ensures found { is_some result ≡ is_some (position (is_slice_of owner.now) slices.now) }
    ensures own { IfSome result (λ slice. (c : Content) → AreOf c slices.now → slice_of c owner.now ≡ Some slice.now) }
    ensures alone { IfSome result (λ slice. (os : List Bytes) (c : Content) → Contains os owner.now → AreFor os c slices.now
        → slice_of c owner.now ≡ Some slice.now) }
    ensures named { IfSome result (λ slice. slice.now.owner ≡ owner.now) }
    ensures some { IfSome result (λ _. slices.now ≢ []) }
{
    Some(&slices[index_of_slice(slices, owner)?])
}

/// The slice that was read for the owner, with the changes put. It is remembered if it is the owner's and
/// there is memory. Then the two share their rows, without the spare room in which they were read. It fails
/// if memory runs out, or a row of the changes doesn't fit.
pub fn remember(
    alloc: Global,
    slices: &mut Vec<Slice>,
    changes: &[Change],
    owner: &Name,
    mut read: Slice,
) -> Result<Slice, AllocError>
    ensures put { IfOk result (λ slice. slice ≡ after_changes changes.now read) }
    ensures own { (c : Content) → slice_of c owner.now ≡ Some (after_changes changes.now read) → AreOf c slices.old.items → AreOf c slices.new.items }
    ensures apart { (os : List Bytes) (c : Content) → (Contains os owner.now → slice_of c owner.now ≡ Some (after_changes changes.now read))
        → AreFor os c slices.old.items → AreFor os c slices.new.items }
{
    follow(alloc, &mut read, changes)?;
    if *read.owner() != *owner {
        return Ok(read);
    }
    let mut read = without_spare_room(alloc, read);
    let Ok(copied) = shared(alloc, &mut read) else {
        return Ok(read);
    };
    let _ = slices.push(copied);
    Ok(read)
}

// Moves the rows into lists without spare room, if there is memory for them. Shared rows stay where they are.
fn without_spare_room(alloc: Global, slice: Slice) -> Slice
    ensures { result ≡ slice }
{
    match slice.copy(alloc) {
        Ok(copied) => copied,
        Err(_) => slice,
    }
}

/// Makes the changes in all of these slices, each in place if no other copy shares its rows. If memory
/// runs out, or a row doesn't fit, the slices can't be used any more.
pub fn follow_all(
    alloc: Global,
    slices: &mut Vec<Slice>,
    changes: &[Change],
) -> Result<(), AllocError>
    ensures { OnOk result (slices.new.items ≡ map (after_changes changes.now) slices.old.items) }
{
    for slice in slices.iter_mut() {
        follow(alloc, slice, changes)?;
    }
    Ok(())
}

/// Makes the changes in this slice, in place if no other copy shares its rows. If memory runs out, or a
/// row doesn't fit, the slice can't be used any more.
pub fn follow(alloc: Global, slice: &mut Slice, changes: &[Change]) -> Result<(), AllocError>
    ensures { OnOk result (slice.new ≡ after_changes changes.now slice.old) }
{
    if !has_put_for(slice.owner(), changes) {
        return Ok(());
    }
    let mut rows = slice.take(alloc)?;
    for change in changes {
        make_change(&mut rows, change)?;
    }
    *slice = Slice::of(alloc, rows);
    slice.share(alloc)
}

// Whether a change puts a row of this owner.
fn has_put_for(owner: &Name, changes: &[Change]) -> bool
    ensures { result ≡ list_any (is_put_for owner.now) changes.now }
{
    // This names the type for the proof: a change may have a row.
    let _row: Option<Row> = None;
    changes.iter().any(|change| matches!(change, Change::Put(of, _) if *of == *owner))
}

// Puts the change's row, if it is one of this owner.
fn make_change(rows: &mut UniqueSlice, change: &Change) -> Result<(), AllocError>
    ensures { OnOk result (rows.new ≡ after_change change.now rows.old) }
{
    // This names the type for the proof: a change may have a row.
    let _row: Option<Row> = None;
    match change {
        Change::Put(owner, row) if *owner == *rows.owner() => {
            if !rows.fits(row) {
                return Err(AllocError);
            }
            rows.put(*row)
        }
        _ => Ok(()),
    }
}
