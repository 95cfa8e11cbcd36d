//! A group of records of a file of actuals, with one change of the keep for all of them.
ghost use Rattle.std.specs.Prelude.{◌≡◌, ◌+◌, ◌<◌, ◌≤◌, [], false, Err, OnErr, length, take, vec_capacity, vec_len};
ghost use Rattle.std.specs.List.{AllByRecursion, list_any};
ghost use Rattle.toll_desk.specs.Steps.{IsKeepStep};
ghost use Rattle.toll_plant.specs.StagedRecords.{AreStaged, IsCommitted, IsRecordStaged};
ghost use Rattle.toll_plant.specs.Imports.{CanBeStaged, EndWith, before_accepted, group_steps, refused_at};
ghost use Rattle.toll_plant.specs.Outcomes.{is_outcome_accepted};

use crate::outcome::Outcome;
use std::alloc::Global;
use toll_base::{Change, Row};
use toll_desk::{PlantCmd, commit, plant_stage};
use toll_keep::{Keep, KeepFault, StagedChanges};

/// How many records of a file act with one change of the keep, at most. There is one wait for the disk for so
/// many records, and the changes that are held back until then take little memory.
pub const GROUP_RECORDS: usize = 500;

/// Does a group of records of a file of actuals, one after another, and writes their outcomes to `outcomes`,
/// which is emptied first. Their changes are held back, and made in the keep at the end by one call: all of
/// them, or none.
///
/// After the first fault, whose outcome is the last one and which is returned, no record acts. If there was
/// no memory to decide a record, the changes of those before it are kept. If rows couldn't be read, or the
/// keep did not make the changes, none of the group's changes are kept: the outcome of the first record that
/// would have changed something is then the fault, and the records before it, which changed nothing, keep
/// their outcomes.
///
/// After [`KeepFault::Disk`] the keep is closed. When its store is opened again, it has the rows from before
/// the group or those after all of it.
pub fn import_group<K: Keep>(
    alloc: Global,
    keep: &mut K,
    commands: &[Option<PlantCmd>],
    outcomes: &mut Vec<Outcome>,
) -> Result<(), KeepFault>
    requires can { AllByRecursion CanBeStaged commands.now }
    requires room { length commands.now ≤ vec_capacity outcomes.old }
    ensures step { IsKeepStep K.meaning group_steps keep.old commands.now outcomes.new.items keep.new }
    ensures ends { EndWith result outcomes.new.items }
    ensures within { vec_len outcomes.new ≤ length commands.now }
    ensures capacity { vec_capacity outcomes.new ≡ vec_capacity outcomes.old }
{
    outcomes.clear();
    match stage_all(alloc, keep, commands, outcomes) {
        Ok(held) => make(alloc, keep, held, outcomes),
        Err(fault) => refuse(outcomes, fault),
    }
}

// The changes of records, which the keep does not have yet.
struct Staged {
    changes: Vec<Change>,
    // The fault if there was no memory for the last of them.
    end: Result<(), KeepFault>,
}

/// By hand, since derived code is written out at every exit of every function that owns one.
impl Drop for Staged {
    fn drop(self) {
        let Staged { changes: _, end: _ } = self;
    }
}

// Does the records over the rows of the keep, one after another, and holds back their changes. An `Err` is a
// fault of reading rows, after the outcomes that were written.
fn stage_all<K: Keep>(
    alloc: Global,
    keep: &mut K,
    commands: &[Option<PlantCmd>],
    outcomes: &mut Vec<Outcome>,
) -> Result<Staged, KeepFault>
    requires can { AllByRecursion CanBeStaged commands.now }
    requires none { outcomes.old.items ≡ [] }
    requires room { length commands.now ≤ vec_capacity outcomes.old }
    ensures held { AreStaged K.meaning keep.old keep.new commands.now outcomes.new.items result }
    ensures within { vec_len outcomes.new ≤ length commands.now }
    ensures short { OnErr result (vec_len outcomes.new < length commands.now) }
    ensures capacity { vec_capacity outcomes.new ≡ vec_capacity outcomes.old }
{
    // Named for the proof: a change may have a row.
    let _row: Option<Row> = None;
    let mut pending = StagedChanges::new(alloc);
    for command in commands {
        let outcome = match act(alloc, keep, &mut pending, command) {
            Ok(outcome) => outcome,
            Err(fault) => return Err(fault),
        };
        outcomes.push_reserved(outcome);
        if outcome.is_fault() {
            return Ok(Staged {
                changes: pending.into_changes(),
                end: Err(KeepFault::Memory),
            });
        }
    }
    Ok(Staged {
        changes: pending.into_changes(),
        end: Ok(()),
    })
}

// The outcome of a record with this command.
fn act<K: Keep>(
    alloc: Global,
    keep: &mut K,
    pending: &mut StagedChanges,
    command: &Option<PlantCmd>,
) -> Result<Outcome, KeepFault>
    requires { CanBeStaged command.now }
    ensures { IsRecordStaged K.meaning (keep.old, pending.old) command.now result (keep.new, pending.new) }
{
    match command {
        None => Ok(Outcome::BadRecord),
        Some(command) => match plant_stage(alloc, keep, pending, command) {
            Ok(reply) => Ok(Outcome::of(reply)),
            Err(fault) => Err(fault),
        },
    }
}

// Makes the changes in the keep.
fn make<K: Keep>(
    alloc: Global,
    keep: &mut K,
    held: Staged,
    outcomes: &mut Vec<Outcome>,
) -> Result<(), KeepFault>
    requires { list_any is_outcome_accepted outcomes.old.items ≡ false → held.changes.items ≡ [] }
    ensures made { IsCommitted K.meaning keep.old keep.new held outcomes.old.items outcomes.new.items result }
    ensures within { vec_len outcomes.new ≤ vec_len outcomes.old }
    ensures capacity { vec_capacity outcomes.new ≡ vec_capacity outcomes.old }
{
    match commit(alloc, keep, &held.changes) {
        Ok(()) => held.end,
        Err(fault) => refuse(outcomes, fault),
    }
}

// Records that nothing of the group was made, because of this fault.
fn refuse(outcomes: &mut Vec<Outcome>, fault: KeepFault) -> Result<(), KeepFault>
    requires { length (before_accepted outcomes.old.items) < vec_capacity outcomes.old }
    ensures reported { outcomes.new.items ≡ refused_at fault outcomes.old.items }
    ensures fault { result ≡ Err fault }
    ensures len { vec_len outcomes.new ≡ length (before_accepted outcomes.old.items) + 1 }
    ensures capacity { vec_capacity outcomes.new ≡ vec_capacity outcomes.old }
{
    let unchanging = count_unchanging(outcomes);
    outcomes.truncate(unchanging);
    outcomes.push_reserved(Outcome::Fault(fault));
    Err(fault)
}

// How many of these come before the first record that was accepted.
fn count_unchanging(outcomes: &[Outcome]) -> usize
    ensures front { take result outcomes.now ≡ before_accepted outcomes.now }
    ensures count { result ≡ length (before_accepted outcomes.now) }
{
    let mut count = 0;
    for outcome in outcomes {
        if outcome.is_accepted() {
            return count;
        }
        count += 1;
    }
    count
}
