//! Reading an office's rows before the first request.
ghost use Rattle.toll_keep.specs.CallEffects.{IsReading};
ghost use Rattle.toll_keep.specs.Reads.{ReadsOneMore};

use std::alloc::Global;
use toll_base::{LotId, Name, OwnerRow};
use toll_keep::{Keep, KeepFault};
use toll_trace::Way;

/// Reads the rows of all owners and of HOUSE, and traces once over each one's batches. A keep that remembers
/// what it read has the rows and the genealogies in memory then. An `Err` is the fault that ended the reading.
pub fn read_ahead<K: Keep>(alloc: Global, keep: &mut K) -> Result<(), KeepFault>
    ensures { IsReading K.meaning keep.old keep.new result }
{
    match keep.owners(alloc) {
        Ok(owners) => read_each(alloc, keep, &owners),
        Err(fault) => Err(fault),
    }
}

// Reads the rows of these owners and of HOUSE, and traces over their batches.
fn read_each<K: Keep>(alloc: Global, keep: &mut K, owners: &[OwnerRow]) -> Result<(), KeepFault>
    ensures { ReadsOneMore K.meaning keep.old keep.new result }
{
    for row in owners {
        read_owner(alloc, keep, &row.owner)?;
    }
    read_owner(alloc, keep, &Name::house())
}

// Reads the rows of an owner, and traces over its batches.
fn read_owner<K: Keep>(alloc: Global, keep: &mut K, owner: &Name) -> Result<(), KeepFault>
    ensures { ReadsOneMore K.meaning keep.old keep.new result }
{
    read_rows(alloc, keep, owner)?;
    trace_once(alloc, keep, owner)
}

// Reads the rows of an owner.
fn read_rows<K: Keep>(alloc: Global, keep: &mut K, owner: &Name) -> Result<(), KeepFault>
    ensures { ReadsOneMore K.meaning keep.old keep.new result }
{
    match keep.slice(alloc, owner) {
        Ok(_rows) => Ok(()),
        Err(fault) => Err(fault),
    }
}

// Traces over an owner's batches, from whatever lot.
fn trace_once<K: Keep>(alloc: Global, keep: &mut K, owner: &Name) -> Result<(), KeepFault>
    ensures { ReadsOneMore K.meaning keep.old keep.new result }
{
    let anywhere = LotId {
        owner: *owner,
        lot: *owner,
    };
    match keep.trace(alloc, &[*owner], &anywhere, Way::Back) {
        Ok(_steps) => Ok(()),
        Err(fault) => Err(fault),
    }
}
