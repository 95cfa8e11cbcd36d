//! Batches.
ghost use Rattle.std.specs.Prelude.{◌≡◌, ◌+◌, nat_le, Some, None, if◌then◌else◌, IfOk};
ghost use Rattle.toll_work.specs.Common.{changes_of, batch_at, KeepsRules, CommandBatch, CloseBatch, by, Decides, DecisionKeepsRules, verdict_of_result, PutsOnly, facts_of, verdict_of_checks, open_batch_checks};
ghost use Rattle.toll_base.specs.States as states;
ghost use Rattle.toll_work.specs.Opening.{DecidesOpening};
ghost use Rattle.toll_work.specs.Plans.{IsClosingPlan, IsCommandPlan, IsOpeningPlan};

use crate::orders::{count_opened, find_uncancelled};
use crate::states::next;
use std::alloc::{AllocError, Global};
use toll_base::{
    BatchNo, BatchRow, Change, Decision, Name, Refusal, Row, Slice, State, StateCommand,
};

/// Opens the next batch of the order on the unit, idle. The caller says whether the unit is known, and
/// whether it is free: no open batch holds it.
///
/// [`Refusal::UnknownOrder`], then [`Refusal::OrderCancelled`], then [`Refusal::NoMoreBatches`] if
/// all batches of the order were opened, then [`Refusal::UnknownUnit`], then [`Refusal::UnitBusy`]. It fails
/// only if memory runs out.
pub fn open_batch(
    alloc: Global,
    slice: &Slice,
    order: Name,
    unit: Name,
    unit_known: bool,
    unit_free: bool,
) -> Result<Decision, AllocError>
    ensures decides { IfOk result (DecidesOpening order unit unit_known unit_free slice.now) }
    ensures rules { IfOk result (DecisionKeepsRules slice.now) }
    ensures own { IfOk result (λ d. PutsOnly slice.now.owner (changes_of d)) }
{
    plan_opening(alloc, slice, &order, &unit, unit_known, unit_free)
}

fn plan_opening(
    alloc: Global,
    slice: &Slice,
    order: &Name,
    unit: &Name,
    unit_known: bool,
    unit_free: bool,
) -> Result<Decision, AllocError>
    ensures plan { IfOk result (IsOpeningPlan slice.now order.now unit.now unit_known unit_free) }
    ensures kept { KeepsRules slice.now }
{
    let owner = *slice.owner();
    let known = match find_uncancelled(slice, order) {
        Ok(known) => known,
        Err(why) => return Ok(Decision::Refuse(why)),
    };
    let Some(number) = next_number(count_opened(slice, order), known.batches) else {
        return Ok(Decision::Refuse(Refusal::NoMoreBatches));
    };
    if !unit_known {
        return Ok(Decision::Refuse(Refusal::UnknownUnit));
    }
    if !unit_free {
        return Ok(Decision::Refuse(Refusal::UnitBusy));
    }
    let row = BatchRow {
        order: *order,
        number,
        unit: *unit,
        state: State::Idle,
        closed: false,
    };
    Decision::accept(alloc, Change::Put(owner, Row::Batch(row)))
}

// The number of the batch after those that were opened, of so many.
fn next_number(opened: u64, batches: BatchNo) -> Option<BatchNo>
    ensures { result ≡ if nat_le batches opened then None else Some (opened + 1) }
{
    if opened >= batches.get() {
        return None;
    }
    BatchNo::new(opened + 1).ok()
}

/// Commands the batch, which goes to the state that the command leads to.
///
/// [`Refusal::UnknownOrder`], then [`Refusal::UnknownBatch`], then [`Refusal::BatchClosed`], then
/// [`Refusal::BadState`] if the command leads nowhere. It fails only if memory runs out.
pub fn command_batch(
    alloc: Global,
    slice: &Slice,
    order: Name,
    number: BatchNo,
    command: StateCommand,
) -> Result<Decision, AllocError>
    ensures decides { IfOk result (Decides (by slice.now.owner (CommandBatch order number command)) slice.now) }
    ensures rules { IfOk result (DecisionKeepsRules slice.now) }
    ensures own { IfOk result (λ d. PutsOnly slice.now.owner (changes_of d)) }
{
    plan_command(alloc, slice, &order, number, command)
}

fn plan_command(
    alloc: Global,
    slice: &Slice,
    order: &Name,
    number: BatchNo,
    command: StateCommand,
) -> Result<Decision, AllocError>
    ensures plan { IfOk result (IsCommandPlan slice.now order.now number command) }
    ensures kept { KeepsRules slice.now }
{
    let owner = *slice.owner();
    let known = match find_open(slice, order, number) {
        Ok(known) => known,
        Err(why) => return Ok(Decision::Refuse(why)),
    };
    let Some(state) = next(known.state, command) else {
        return Ok(Decision::Refuse(Refusal::BadState));
    };
    let row = BatchRow { state, ..known };
    Decision::accept(alloc, Change::Put(owner, Row::Batch(row)))
}

// The batch, if it is known and isn't closed.
fn find_open(slice: &Slice, order: &Name, number: BatchNo) -> Result<BatchRow, Refusal>
    ensures checks { verdict_of_result result ≡ verdict_of_checks (open_batch_checks (facts_of slice.now) order.now number) }
    ensures batch { IfOk result (λ row. batch_at slice.now (order.now, number) ≡ Some row) }
{
    if slice.order(order).is_none() {
        return Err(Refusal::UnknownOrder);
    }
    let Some(known) = slice.batch(order, number) else {
        return Err(Refusal::UnknownBatch);
    };
    if known.closed {
        return Err(Refusal::BatchClosed);
    }
    Ok(known)
}

/// Closes the batch, after which it holds its unit no more.
///
/// [`Refusal::UnknownOrder`], then [`Refusal::UnknownBatch`], then [`Refusal::BatchClosed`], then
/// [`Refusal::BadState`] unless the batch is idle, complete, stopped or aborted. It fails only if memory runs
/// out.
pub fn close_batch(
    alloc: Global,
    slice: &Slice,
    order: Name,
    number: BatchNo,
) -> Result<Decision, AllocError>
    ensures decides { IfOk result (Decides (by slice.now.owner (CloseBatch order number)) slice.now) }
    ensures rules { IfOk result (DecisionKeepsRules slice.now) }
    ensures own { IfOk result (λ d. PutsOnly slice.now.owner (changes_of d)) }
{
    plan_closing(alloc, slice, &order, number)
}

fn plan_closing(
    alloc: Global,
    slice: &Slice,
    order: &Name,
    number: BatchNo,
) -> Result<Decision, AllocError>
    ensures plan { IfOk result (IsClosingPlan slice.now order.now number) }
    ensures kept { KeepsRules slice.now }
{
    let owner = *slice.owner();
    let known = match find_open(slice, order, number) {
        Ok(known) => known,
        Err(why) => return Ok(Decision::Refuse(why)),
    };
    if !may_close(known.state) {
        return Ok(Decision::Refuse(Refusal::BadState));
    }
    let row = BatchRow {
        closed: true,
        ..known
    };
    Decision::accept(alloc, Change::Put(owner, Row::Batch(row)))
}

// Whether a batch in this state may be closed.
fn may_close(state: State) -> bool
    ensures { result ≡ states.may_close state }
{
    matches!(
        state,
        State::Idle | State::Complete | State::Stopped | State::Aborted
    )
}
