//! The changes of a plan.
ghost use Rattle.std.specs.Prelude.{List};
ghost use Rattle.toll_base.specs.Bytes.{Bytes};
ghost use Rattle.toll_keep.specs.HeldFor.{KeepsOneMore, PutsOutside};
ghost use Rattle.toll_keep.specs.Meaning.{meaning_for};
ghost use Rattle.toll_desk.specs.Outcome.{CommitEffect};

use std::alloc::Global;
use toll_base::Change;
use toll_keep::{Keep, KeepFault};

/// Makes the changes of a plan. If there are none, it doesn't call the keep. It fails only if the keep's call
/// does.
pub fn commit<K: Keep>(alloc: Global, keep: &mut K, changes: &[Change]) -> Result<(), KeepFault>
    ensures made { CommitEffect K.meaning keep.old keep.new changes.now result }
    ensures alone { (os : List Bytes) → CommitEffect (meaning_for K.meaning K.part os) keep.old keep.new changes.now result }
    ensures others { (os : List Bytes) → PutsOutside os changes.now → KeepsOneMore (meaning_for K.meaning K.part os) keep.old keep.new result }
{
    if changes.is_empty() {
        return Ok(());
    }
    keep.apply(alloc, changes)
}
