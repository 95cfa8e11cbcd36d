//! Changes that a keep doesn't have yet.
ghost use Rattle.std.specs.Prelude.{◌≡◌, ◌++◌, [], IfOk, OnErr, OnOk};
ghost use Rattle.toll_keep.specs.Content.{Content, slice_of};
ghost use Rattle.toll_keep.specs.Meaning.{OverContent};
ghost use Rattle.toll_keep.specs.StagedChanges.{IsOver, OverLaid, ReadsThrough};

use crate::cache::has_addition;
use crate::cached_reading::read_slice;
use crate::keep::Keep;
use crate::keep_fault::KeepFault;
use crate::remembered::follow_all;
use std::alloc::{AllocError, Global};
use std::mem;
use toll_base::{Change, Name, Row, Slice};

/// Changes that a keep doesn't have yet, and the slices that were read of it, with these changes put.
/// They belong to one keep. The caller passes it to each call that reads, and the calls don't change it.
/// A stop loses the pending changes.
pub struct StagedChanges {
    slices: Vec<Slice>,
    changes: Vec<Change>,
}

/// Written by hand: a derived `Drop` is expanded at every exit of every function that owns one.
impl Drop for StagedChanges {
    fn drop(self) {
        let StagedChanges {
            slices: _,
            changes: _,
        } = self;
    }
}

impl StagedChanges {
    /// No changes and no slices, for any keep. It takes no memory yet.
    pub fn new(alloc: Global) -> Self
        ensures changes { result.changes.items ≡ [] }
        ensures slices { result.slices.items ≡ [] }
        ensures over { (c : Content) → IsOver c result }
    {
        StagedChanges {
            slices: Vec::new(alloc),
            changes: Vec::new(alloc),
        }
    }

    /// All rows of an owner, as the keep will have them after the changes: `None` for an unknown owner.
    /// It asks the keep for them once, as long as there is memory to remember them. It fails if a call of the
    /// keep does, or with [`KeepFault::Memory`] if memory runs out.
    pub fn slice<K: Keep>(
        &mut self,
        alloc: Global,
        keep: &mut K,
        owner: &Name,
    ) -> Result<Option<Slice>, KeepFault>
        ensures reading { ReadsThrough K.meaning keep.old keep.new self.old result }
        ensures reads { OverLaid K.meaning keep.old keep.new self.old (λ c. IfOk result (λ slice. slice ≡ slice_of c owner.now)) }
        ensures over { OverContent K.meaning keep.old keep.new (λ c. IsOver c self.old → IsOver c self.new) }
        ensures changes { self.new.changes.items ≡ self.old.changes.items }
    {
        let StagedChanges { slices, changes } = self;
        read_slice(alloc, keep, slices, changes, owner)
    }

    /// Adds these changes after the earlier ones. `Err` means that they weren't added: memory ran out, or
    /// one of them adds an owner or a unit, which can't be pending.
    pub fn stage(&mut self, alloc: Global, changes: &[Change]) -> Result<(), AllocError>
        ensures held { OnOk result (self.new.changes.items ≡ self.old.changes.items ++ changes.now) }
        ensures none { OnErr result (self.new.changes.items ≡ self.old.changes.items) }
        ensures over { (c : Content) → IsOver c self.old → IsOver c self.new }
    {
        // This names the type for the proof: a change may have a row.
        let _row: Option<Row> = None;
        if has_addition(changes) {
            return Err(AllocError);
        }
        self.changes.extend_from_slice(changes)?;
        let mut slices = mem::replace(&mut self.slices, Vec::new(alloc));
        if follow_all(alloc, &mut slices, changes).is_ok() {
            self.slices = slices;
        }
        Ok(())
    }

    /// The changes, in order.
    pub fn into_changes(self) -> Vec<Change>
        ensures { result.items ≡ self.changes.items }
    {
        let StagedChanges { slices: _, changes } = self;
        changes
    }
}
