//! Recalls.
ghost use Rattle.std.specs.Option.{option_map};
ghost use Rattle.std.specs.Prelude.{◌≡◌, ◌≢◌, [], ◌∷◌, ◌++◌, true, List, Contains, Err, IfOk, OnOk, position};
ghost use Rattle.toll_base.specs.Slice.{lot_at};
ghost use Rattle.toll_base.specs.declared.lot.LotId.{LotId};
ghost use Rattle.toll_history.specs.History.{History};
ghost use Rattle.toll_history.specs.OwnerFacts.{IsRowsOf};
ghost use Rattle.toll_history.specs.Verdict.{IsLawful};
ghost use Rattle.toll_trace.specs.declared.step.Step.{Step};
ghost use Rattle.toll_trace.specs.declared.way.Way.TheVariants.{Forward};
ghost use Rattle.toll_answers.specs.Recall.{IsRecall, recall_line_of};
ghost use Rattle.toll_keep.specs.CallEffects.{IsReading};
ghost use Rattle.toll_keep.specs.Reads.{HaveRead, IsContentKept};
ghost use Rattle.toll_keep.specs.Slices.{is_slice_of};
ghost use Rattle.toll_desk.specs.Clauses.{AreMoreSlices, IsRecallOver, IsUndamagedRecall, OverFirst};
ghost use Rattle.toll_desk.specs.Questions.{IsRecallEffect, AreSlicesFor, AreLinesOf, IsLineOf, IsRecallOf, is_known_lot};
ghost use Rattle.toll_desk.specs.Reads.{Over};

use crate::plant_tracing::trace_plant;
use std::alloc::{AllocError, Global};
use toll_answers::RecallLine;
use toll_base::{Disposition, LotId, Name, Slice};
use toll_keep::{Keep, KeepFault};
use toll_stock::LotTotals;
use toll_trace::{Step, Way};

/// The lots that a lot went into over the batches of all owners, with the amounts on hand and shipped
/// of each. `None` if the lot or its owner isn't known. [`KeepFault::Damaged`] if one of these lots has
/// no row. No history has such a lot, and the keep goes on after this fault. It fails if a call of the keep
/// does, or with [`KeepFault::Memory`] if memory runs out.
pub fn recall<K: Keep>(
    alloc: Global,
    keep: &mut K,
    lot: &LotId,
) -> Result<Option<Vec<RecallLine>>, KeepFault>
    ensures going { IsRecallEffect K.meaning keep.old keep.new result }
    ensures whole { Over K.meaning keep.old keep.new (λ c H. result ≢ Err KeepFault.Damaged) }
    ensures over { Over K.meaning keep.old keep.new (λ c H. IfOk result (IsRecallOf H lot.now)) }
{
    match keep.slice(alloc, &lot.owner) {
        Ok(Some(slice)) => {
            if slice.lot(&lot.lot).is_none() {
                return Ok(None);
            }
            match recall_known(alloc, keep, lot, slice) {
                Ok(lines) => Ok(Some(lines)),
                Err(fault) => Err(fault),
            }
        }
        Ok(None) => Ok(None),
        Err(fault) => Err(fault),
    }
}

// The same for a known lot, with the rows of its owner.
fn recall_known<K: Keep>(
    alloc: Global,
    keep: &mut K,
    lot: &LotId,
    own: Slice,
) -> Result<Vec<RecallLine>, KeepFault>
    ensures going { IsRecallEffect K.meaning keep.old keep.new result }
    ensures whole { Over K.meaning keep.old keep.new (λ c H. IsRowsOf H own → is_known_lot H lot.now ≡ true → result ≢ Err KeepFault.Damaged) }
    ensures over { Over K.meaning keep.old keep.new (λ c H. IsRowsOf H own → IfOk result (λ lines. IsRecall H lot.now lines.items)) }
{
    match trace_plant(alloc, keep, lot, Way::Forward) {
        Ok(steps) => recall_steps(alloc, keep, &steps, own),
        Err(fault) => Err(fault),
    }
}

// The lines of the steps of a trace.
fn recall_steps<K: Keep>(
    alloc: Global,
    keep: &mut K,
    steps: &[Step],
    own: Slice,
) -> Result<Vec<RecallLine>, KeepFault>
    ensures going { (first : K) → HaveRead K.meaning first keep.old → IsRecallEffect K.meaning first keep.new result }
    ensures kept { IsContentKept K.meaning keep.old keep.new }
    ensures whole { OverFirst K.meaning keep.old keep.new (λ c H. IsUndamagedRecall H own steps.now result) }
    ensures over { OverFirst K.meaning keep.old keep.new (λ c H. IsRecallOver H own steps.now result) }
{
    match slices_of(alloc, keep, steps, own) {
        Ok(owners) => match lines_of(alloc, &owners, steps) {
            Ok(Some(lines)) => Ok(lines),
            Ok(None) => Err(KeepFault::Damaged),
            Err(_) => Err(KeepFault::Memory),
        },
        Err(fault) => Err(fault),
    }
}

// ---- the rows of the owners of the lots

// The rows of the owners of the lots, each owner's once. `own` has the rows of one of them.
fn slices_of<K: Keep>(
    alloc: Global,
    keep: &mut K,
    steps: &[Step],
    own: Slice,
) -> Result<Vec<LotTotals>, KeepFault>
    ensures reads { (first : K) → HaveRead K.meaning first keep.old → IsReading K.meaning first keep.new result }
    ensures kept { IsContentKept K.meaning keep.old keep.new }
    ensures over { Over K.meaning keep.old keep.new (λ c H. IsRowsOf H own → IfOk result (λ slices. AreSlicesFor H steps.now slices.items)) }
{
    let mut slices = Vec::new(alloc);
    if add_totals(alloc, &mut slices, own).is_err() {
        return Err(KeepFault::Memory);
    }
    for step in steps {
        add_slice(alloc, keep, &mut slices, step)?;
    }
    Ok(slices)
}

// Adds the rows of the owner of the step's lot, if they are missing and the owner is known.
fn add_slice<K: Keep>(
    alloc: Global,
    keep: &mut K,
    slices: &mut Vec<LotTotals>,
    step: &Step,
) -> Result<(), KeepFault>
    ensures reads { (first : K) → HaveRead K.meaning first keep.old → IsReading K.meaning first keep.new result }
    ensures kept { IsContentKept K.meaning keep.old keep.new }
    ensures over { Over K.meaning keep.old keep.new (λ c H. AreMoreSlices H step.now slices.old.items slices.new.items result) }
{
    if index_of_owner(slices, &step.lot.owner).is_some() {
        return Ok(());
    }
    match keep.slice(alloc, &step.lot.owner) {
        Ok(Some(slice)) => {
            if add_totals(alloc, slices, slice).is_err() {
                return Err(KeepFault::Memory);
            }
            Ok(())
        }
        Ok(None) => Ok(()),
        Err(fault) => Err(fault),
    }
}

// Adds these rows.
fn add_totals(alloc: Global, slices: &mut Vec<LotTotals>, slice: Slice) -> Result<(), AllocError>
    ensures { OnOk result (slices.new.items ≡ slices.old.items ++ slice ∷ []) }
{
    slices.push(LotTotals::new(alloc, slice)?)?;
    Ok(())
}

// The place of the rows of this owner.
fn index_of_owner(slices: &[LotTotals], owner: &Name) -> Option<usize>
    ensures { result ≡ position (is_slice_of owner.now) slices.now }
{
    slices
        .iter()
        .position(|totals| *totals.slice().owner() == *owner)
}

// ---- lines

// The lines of the steps, over these rows. `None` if a step's lot has no row.
fn lines_of(
    alloc: Global,
    slices: &[LotTotals],
    steps: &[Step],
) -> Result<Option<Vec<RecallLine>>, AllocError>
    ensures { (H : History) → IsLawful H → AreSlicesFor H steps.now slices.now → IfOk result (AreLinesOf H steps.now) }
{
    let mut lines = Vec::new(alloc);
    for step in steps {
        match line_of(slices, step) {
            Some(line) => lines.push(line)?,
            None => return Ok(None),
        }
    }
    Ok(Some(lines))
}

fn line_of(slices: &[LotTotals], step: &Step) -> Option<RecallLine>
    ensures { (H : History) (steps : List Step) → IsLawful H → AreSlicesFor H steps slices.now → Contains steps step.now → IsLineOf H step.now result }
{
    match index_of_owner(slices, &step.lot.owner) {
        Some(at) => line_in(&slices[at], step),
        None => None,
    }
}

// The line of a step. Its lot belongs to the owner of these rows.
fn line_in(totals: &LotTotals, step: &Step) -> Option<RecallLine>
    ensures { (H : History) → IsLawful H → IsRowsOf H totals.now → totals.now.owner ≡ step.now.lot.owner → result ≡ recall_line_of H step.now }
{
    let disposition = disposition_of(totals.slice(), &step.lot.lot)?;
    let totals = totals.of_lot(&step.lot.lot)?;
    Some(RecallLine {
        step: *step,
        disposition,
        totals,
    })
}

fn disposition_of(slice: &Slice, lot: &Name) -> Option<Disposition>
    ensures { result ≡ option_map (λ row. row.disposition) (lot_at slice.now lot.now) }
{
    match slice.lot(lot) {
        Some(row) => Some(row.disposition),
        None => None,
    }
}
