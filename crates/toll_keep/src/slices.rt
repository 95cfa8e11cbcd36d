//! Slices in a list.
ghost use Rattle.std.specs.Prelude.{◌≡◌, IfOk, OnOk, OnErr, position};
ghost use Rattle.toll_keep.specs.Common.{with_row};
ghost use Rattle.toll_keep.specs.Slices.{is_slice_of, rows_in, put_slice};

use std::alloc::{AllocError, Global};
use toll_base::{Name, Row, Slice};

/// The place of the owner's slice.
pub fn index_of_slice(slices: &[Slice], owner: &Name) -> Option<usize>
    ensures { result ≡ position (is_slice_of owner.now) slices.now }
{
    slices.iter().position(|slice| *slice.owner() == *owner)
}

/// A copy that shares the slice's rows. It fails only if memory runs out.
pub fn shared(alloc: Global, slice: &mut Slice) -> Result<Slice, AllocError>
    ensures copied { IfOk result (λ copied. copied ≡ slice.old) }
    ensures same { slice.new ≡ slice.old }
{
    slice.share(alloc)?;
    slice.copy(alloc)
}

/// A copy of the owner's slice that shares its rows. It is empty if there is no such slice. It fails only if
/// memory runs out.
pub fn shared_of(alloc: Global, slices: &mut [Slice], owner: &Name) -> Result<Slice, AllocError>
    ensures copied { IfOk result (λ slice. slice ≡ rows_in slices.old owner.now) }
    ensures same { slices.new ≡ slices.old }
{
    match index_of_slice(slices, owner) {
        Some(at) => shared(alloc, &mut slices[at]),
        None => Ok(Slice::new(alloc, *owner)),
    }
}

/// Copies that share the rows of these slices. It fails only if memory runs out.
pub fn shared_each(alloc: Global, slices: &mut [Slice]) -> Result<Vec<Slice>, AllocError>
    ensures copied { IfOk result (λ copied. copied.items ≡ slices.old) }
    ensures same { slices.new ≡ slices.old }
{
    let mut copied = Vec::new(alloc);
    for slice in slices.iter_mut() {
        copied.push(shared(alloc, slice)?)?;
    }
    Ok(copied)
}

/// Puts the row into the owner's slice, or into a new one if there is none. Rows that a copy shares are
/// copied first. If memory runs out, or the row doesn't fit, nothing changes.
pub fn put_for(
    alloc: Global,
    slices: &mut Vec<Slice>,
    owner: &Name,
    row: &Row,
) -> Result<(), AllocError>
    ensures put { OnOk result (slices.new.items ≡ put_slice slices.old.items (with_row (rows_in slices.old.items owner.now) row.now)) }
    ensures none { OnErr result (slices.new.items ≡ slices.old.items) }
{
    match index_of_slice(slices, owner) {
        Some(at) => put_fitting(&mut slices[at], row),
        None => {
            let mut slice = Slice::new(alloc, *owner);
            put_fitting(&mut slice, row)?;
            slices.push(slice)?;
            Ok(())
        }
    }
}

fn put_fitting(slice: &mut Slice, row: &Row) -> Result<(), AllocError>
    ensures put { OnOk result (slice.new ≡ with_row slice.old row.now) }
    ensures none { OnErr result (slice.new ≡ slice.old) }
{
    if !slice.fits(row) {
        return Err(AllocError);
    }
    slice.put(*row)
}
