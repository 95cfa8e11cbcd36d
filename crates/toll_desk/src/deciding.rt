//! Decisions over the rows of a keep.
ghost use Rattle.std.specs.Prelude.{◌≡◌, true, Some, IfOk};
ghost use Rattle.toll_history.specs.Command.{OpenBatch, by};
ghost use Rattle.toll_history.specs.Verdict.{IsValidAction};
ghost use Rattle.toll_answers.specs.PlantAnswers.{recorded_command};
ghost use Rattle.toll_work.specs.Opening.{AreUnitFacts};
ghost use Rattle.toll_keep.specs.CallEffects.{IsReading};
ghost use Rattle.toll_keep.specs.Meaning.{OverContent};
ghost use Rattle.toll_keep.specs.StagedChanges.{IsOver, OverLaid, ReadsThrough};
ghost use Rattle.toll_desk.specs.Clauses.{IsDecidedOver, IsFreeIn};
ghost use Rattle.toll_desk.specs.Plans.{IsOwnDecision};
ghost use Rattle.toll_desk.specs.Reads.{AreBoth, Over, both_with};
ghost use Rattle.toll_desk.specs.Subjects.{IsCommandSuchThat, ConcernsOwnRows, is_shared};

use crate::decisions::{decide_own, decide_shared};
use crate::units::{decide_owner, decide_unit, find_unit};
use std::alloc::Global;
use toll_answers::PlantCmd;
use toll_base::{Decision, Name, Refusal, Slice};
use toll_keep::{Keep, KeepFault, StagedChanges};
use toll_work::open_batch;

/// The decision on a command. [`Refusal::UnknownOwner`] comes before all other checks, except for
/// adding owners and units. It fails if a call of the keep does, or with [`KeepFault::Memory`] if memory runs
/// out.
pub fn decide<K: Keep>(
    alloc: Global,
    keep: &mut K,
    command: &PlantCmd,
) -> Result<Decision, KeepFault>
    requires { IsCommandSuchThat IsValidAction (recorded_command command.now) }
    ensures reads { IsReading K.meaning keep.old keep.new result }
    ensures over { IsDecidedOver K.meaning keep.old keep.new (recorded_command command.now) result }
{
    match *command {
        PlantCmd::OwnerAdd { owner, key } => decide_owner(alloc, keep, owner, key),
        PlantCmd::UnitAdd { unit } => decide_unit(alloc, keep, unit),
        PlantCmd::Open { owner, order, unit } => decide_opening(alloc, keep, &owner, order, unit),
        PlantCmd::Require { .. } | PlantCmd::Actual { .. } | PlantCmd::Void { .. } => {
            decide_both(alloc, keep, command)
        }
        _ => decide_over(alloc, keep, command),
    }
}

// The decision over an owner's rows.
fn decide_over<K: Keep>(
    alloc: Global,
    keep: &mut K,
    command: &PlantCmd,
) -> Result<Decision, KeepFault>
    requires own { IsCommandSuchThat ConcernsOwnRows (recorded_command command.now) }
    requires valid { IsCommandSuchThat IsValidAction (recorded_command command.now) }
    ensures reads { IsReading K.meaning keep.old keep.new result }
    ensures over { IsDecidedOver K.meaning keep.old keep.new (recorded_command command.now) result }
{
    match keep.slice(alloc, &command.owner()) {
        Ok(Some(slice)) => match decide_own(alloc, &slice, command) {
            Ok(decision) => Ok(decision),
            Err(_) => Err(KeepFault::Memory),
        },
        Ok(None) => Ok(Decision::Refuse(Refusal::UnknownOwner)),
        Err(fault) => Err(fault),
    }
}

// ---- over an owner's rows and HOUSE's

/// The rows of an owner, and those of HOUSE.
pub struct Both {
    pub own: Slice,
    pub house: Slice,
}

/// Written by hand: a derived `Drop` is expanded at every exit of every function that owns it.
impl Drop for Both {
    fn drop(self) {
        let Both { own: _, house: _ } = self;
    }
}

// The decision over an owner's rows and HOUSE's.
fn decide_both<K: Keep>(
    alloc: Global,
    keep: &mut K,
    command: &PlantCmd,
) -> Result<Decision, KeepFault>
    requires shared { IsCommandSuchThat (λ a. is_shared a ≡ true) (recorded_command command.now) }
    requires valid { IsCommandSuchThat IsValidAction (recorded_command command.now) }
    ensures reads { IsReading K.meaning keep.old keep.new result }
    ensures over { IsDecidedOver K.meaning keep.old keep.new (recorded_command command.now) result }
{
    match both_of(alloc, keep, &command.owner()) {
        Ok(Some(both)) => match decide_shared(alloc, &both.own, &both.house, command) {
            Ok(decision) => Ok(decision),
            Err(_) => Err(KeepFault::Memory),
        },
        Ok(None) => Ok(Decision::Refuse(Refusal::UnknownOwner)),
        Err(fault) => Err(fault),
    }
}

/// The rows of the owner, if it is known, and HOUSE's: those of the keep with the pending changes put. It
/// fails if a call of the keep does, or with [`KeepFault::Memory`] if memory runs out.
pub fn both_over<K: Keep>(
    alloc: Global,
    keep: &mut K,
    pending: &mut StagedChanges,
    owner: &Name,
) -> Result<Option<Both>, KeepFault>
    ensures reading { ReadsThrough K.meaning keep.old keep.new pending.old result }
    ensures both { OverLaid K.meaning keep.old keep.new pending.old (λ c. IfOk result (AreBoth c owner.now)) }
    ensures over { OverContent K.meaning keep.old keep.new (λ c. IsOver c pending.old → IsOver c pending.new) }
    ensures changes { pending.new.changes.items ≡ pending.old.changes.items }
{
    match pending.slice(alloc, keep, owner) {
        Ok(Some(own)) => house_over(alloc, keep, pending, own),
        Ok(None) => Ok(None),
        Err(fault) => Err(fault),
    }
}

// These rows, and HOUSE's, which is always known.
fn house_over<K: Keep>(
    alloc: Global,
    keep: &mut K,
    pending: &mut StagedChanges,
    own: Slice,
) -> Result<Option<Both>, KeepFault>
    ensures reading { ReadsThrough K.meaning keep.old keep.new pending.old result }
    ensures both { OverLaid K.meaning keep.old keep.new pending.old (λ c. IfOk result (λ both. both ≡ Some (both_with c own))) }
    ensures over { OverContent K.meaning keep.old keep.new (λ c. IsOver c pending.old → IsOver c pending.new) }
    ensures changes { pending.new.changes.items ≡ pending.old.changes.items }
{
    match pending.slice(alloc, keep, &Name::house()) {
        Ok(Some(house)) => Ok(Some(Both { own, house })),
        Ok(None) => Ok(None),
        Err(fault) => Err(fault),
    }
}

// The same without pending changes.
fn both_of<K: Keep>(alloc: Global, keep: &mut K, owner: &Name) -> Result<Option<Both>, KeepFault>
    ensures reads { IsReading K.meaning keep.old keep.new result }
    ensures both { OverContent K.meaning keep.old keep.new (λ c. IfOk result (AreBoth c owner.now)) }
{
    both_over(alloc, keep, &mut StagedChanges::new(alloc), owner)
}

// ---- the opening of a batch

// Whether a unit is known, and whether no batch holds it.
#[derive(Clone, Copy)]
struct UnitState {
    known: bool,
    free: bool,
}

// The decision on opening a batch.
fn decide_opening<K: Keep>(
    alloc: Global,
    keep: &mut K,
    owner: &Name,
    order: Name,
    unit: Name,
) -> Result<Decision, KeepFault>
    ensures reads { IsReading K.meaning keep.old keep.new result }
    ensures over { IsDecidedOver K.meaning keep.old keep.new (Some (by owner.now (OpenBatch order unit))) result }
{
    match keep.slice(alloc, owner) {
        Ok(Some(slice)) => open_on(alloc, keep, &slice, order, unit),
        Ok(None) => Ok(Decision::Refuse(Refusal::UnknownOwner)),
        Err(fault) => Err(fault),
    }
}

// The decision on opening a batch, over these rows of its owner.
fn open_on<K: Keep>(
    alloc: Global,
    keep: &mut K,
    slice: &Slice,
    order: Name,
    unit: Name,
) -> Result<Decision, KeepFault>
    ensures reads { IsReading K.meaning keep.old keep.new result }
    ensures over { Over K.meaning keep.old keep.new (λ c H. IfOk result (IsOwnDecision H slice.now (OpenBatch order unit))) }
{
    match unit_state(alloc, keep, &unit) {
        Ok(state) => match open_batch(alloc, slice, order, unit, state.known, state.free) {
            Ok(decision) => Ok(decision),
            Err(_) => Err(KeepFault::Memory),
        },
        Err(fault) => Err(fault),
    }
}

fn unit_state<K: Keep>(alloc: Global, keep: &mut K, unit: &Name) -> Result<UnitState, KeepFault>
    ensures reads { IsReading K.meaning keep.old keep.new result }
    ensures over { Over K.meaning keep.old keep.new (λ c H. IfOk result (λ state. AreUnitFacts H unit.now state.known state.free)) }
{
    match keep.units(alloc) {
        Ok(rows) => holding(
            alloc,
            keep,
            unit,
            find_unit(&rows, unit.as_bytes()).is_some(),
        ),
        Err(fault) => Err(fault),
    }
}

// Adds whether no batch holds the unit.
fn holding<K: Keep>(
    alloc: Global,
    keep: &mut K,
    unit: &Name,
    known: bool,
) -> Result<UnitState, KeepFault>
    ensures reads { IsReading K.meaning keep.old keep.new result }
    ensures over { Over K.meaning keep.old keep.new (λ c H. IfOk result (λ state. (state.known ≡ known) × IsFreeIn H unit.now state.free)) }
{
    match keep.holder(alloc, unit) {
        Ok(held) => Ok(UnitState {
            known,
            free: held.is_none(),
        }),
        Err(fault) => Err(fault),
    }
}
