//! Questions of the plant.
ghost use Rattle.std.specs.Prelude.{◌≡◌, ◌≢◌, true, false, Err, IfOk};
ghost use Rattle.toll_history.specs.History.{History};
ghost use Rattle.toll_history.specs.OverRows.{OverOwnRows};
ghost use Rattle.toll_history.specs.OwnerFacts.{IsRowsOf};
ghost use Rattle.toll_history.specs.Verdict.{IsLawful, Refused};
ghost use Rattle.toll_answers.specs.PlantAnswers.{IsPlantAnswer, AreOrdersShown, Shows};
ghost use Rattle.toll_keep.specs.CallEffects.{IsReading};
ghost use Rattle.toll_desk.specs.Clauses.{IsRefusedAs, IsTextAs};
ghost use Rattle.toll_desk.specs.Translations.{meaning_of_plant_reply};
ghost use Rattle.toll_desk.specs.Questions.{IsRecallEffect, is_known_lot};
ghost use Rattle.toll_desk.specs.OfficeSteps.{plant_steps};
ghost use Rattle.toll_desk.specs.Reads.{Over};
ghost use Rattle.toll_desk.specs.Steps.{IsKeepStep};
ghost use Rattle.toll_desk.specs.Subjects.{ConcernsRows, IsQuestion, question_for_owner};

use crate::plant_cmd::PlantReply;
use crate::plant_tracing::trace_plant;
use crate::recalls::recall;
use std::alloc::{AllocError, Global};
use toll_answers::{PlantCmd, batch_text, orders_text, recall_text, stock_text, trace_text};
use toll_base::{BatchNo, LotId, Name, Refusal, Slice};
use toll_keep::{Keep, KeepFault};
use toll_trace::Way;
use toll_work::batch_view;

/// The requested text. The first refusal is [`Refusal::UnknownOwner`]. A batch then has
/// [`Refusal::UnknownOrder`] and [`Refusal::UnknownBatch`]. A trace and a recall have
/// [`Refusal::UnknownLot`]. A recall answers [`KeepFault::Damaged`] if one of its lots has no row. The
/// keep goes on after this fault.
pub fn answer_question<K: Keep>(alloc: Global, keep: &mut K, command: &PlantCmd) -> PlantReply
    requires { IsQuestion command.now }
    ensures { IsKeepStep K.meaning plant_steps keep.old command.now (meaning_of_plant_reply result) keep.new }
{
    match *command {
        PlantCmd::Trace { lot, way } => answer_trace(alloc, keep, &lot, way),
        PlantCmd::Recall { lot } => answer_recall(alloc, keep, &lot),
        _ => answer_from_rows(alloc, keep, command),
    }
}

// ---- an owner's rows

// The text of an owner's rows: [`Refusal::UnknownOwner`]. For a batch then [`Refusal::UnknownOrder`]
// and [`Refusal::UnknownBatch`].
fn answer_from_rows<K: Keep>(alloc: Global, keep: &mut K, command: &PlantCmd) -> PlantReply
    requires { ConcernsRows command.now }
    ensures reads { IsReading K.meaning keep.old keep.new (meaning_of_plant_reply result) }
    ensures over { Over K.meaning keep.old keep.new (λ c H. IfOk (meaning_of_plant_reply result) (IsPlantAnswer H command.now)) }
{
    match keep.slice(alloc, &command.owner()) {
        Ok(Some(slice)) => match show(alloc, &slice, command) {
            Ok(Ok(text)) => PlantReply::Text(text),
            Ok(Err(why)) => PlantReply::Refused(why),
            Err(_) => PlantReply::Fault(KeepFault::Memory),
        },
        Ok(None) => PlantReply::Refused(Refusal::UnknownOwner),
        Err(fault) => PlantReply::Fault(fault),
    }
}

// The text of the rows of the slice's owner, or the refusal.
fn show(
    alloc: Global,
    slice: &Slice,
    command: &PlantCmd,
) -> Result<Result<Vec<u8>, Refusal>, AllocError>
    requires { ConcernsRows command.now }
    ensures text { OverOwnRows slice.now (λ H. IsTextAs H (question_for_owner slice.now.owner command.now) result) }
    ensures refused { OverOwnRows slice.now (λ H. IsRefusedAs H (question_for_owner slice.now.owner command.now) result) }
{
    match *command {
        PlantCmd::Orders { .. } => Ok(Ok(orders_in(alloc, slice)?)),
        PlantCmd::Stock { .. } => Ok(Ok(stock_text(alloc, slice)?)),
        PlantCmd::Batch { order, number, .. } => show_batch(alloc, slice, &order, number),
        _ => unreachable!(),
    }
}

fn orders_in(alloc: Global, slice: &Slice) -> Result<Vec<u8>, AllocError>
    ensures { (H : History) → IsLawful H → IsRowsOf H slice.now → IfOk result (λ text. AreOrdersShown H slice.now.owner (Shows text.items)) }
{
    let _orders = slice.orders();
    orders_text(alloc, slice)
}

fn show_batch(
    alloc: Global,
    slice: &Slice,
    order: &Name,
    number: BatchNo,
) -> Result<Result<Vec<u8>, Refusal>, AllocError>
    ensures text { OverOwnRows slice.now (λ H. IsTextAs H (PlantCmd.Batch slice.now.owner order.now number) result) }
    ensures refused { OverOwnRows slice.now (λ H. IsRefusedAs H (PlantCmd.Batch slice.now.owner order.now number) result) }
{
    match batch_view(alloc, slice, order, number)? {
        Some(view) => Ok(Ok(batch_text(alloc, &view)?)),
        None => {
            if slice.order(order).is_some() {
                Ok(Err(Refusal::UnknownBatch))
            } else {
                Ok(Err(Refusal::UnknownOrder))
            }
        }
    }
}

// ---- traces over all batches

// The text of a trace: [`Refusal::UnknownOwner`], then [`Refusal::UnknownLot`].
fn answer_trace<K: Keep>(alloc: Global, keep: &mut K, lot: &LotId, way: Way) -> PlantReply
    ensures reads { IsReading K.meaning keep.old keep.new (meaning_of_plant_reply result) }
    ensures over { Over K.meaning keep.old keep.new (λ c H. IfOk (meaning_of_plant_reply result) (IsPlantAnswer H (PlantCmd.Trace lot.now way))) }
{
    match keep.slice(alloc, &lot.owner) {
        Ok(Some(slice)) => {
            if slice.lot(&lot.lot).is_none() {
                return PlantReply::Refused(Refusal::UnknownLot);
            }
            show_trace(alloc, keep, lot, way)
        }
        Ok(None) => PlantReply::Refused(Refusal::UnknownOwner),
        Err(fault) => PlantReply::Fault(fault),
    }
}

// The same for a known lot.
fn show_trace<K: Keep>(alloc: Global, keep: &mut K, lot: &LotId, way: Way) -> PlantReply
    ensures reads { IsReading K.meaning keep.old keep.new (meaning_of_plant_reply result) }
    ensures over { Over K.meaning keep.old keep.new (λ c H. is_known_lot H lot.now ≡ true
        → IfOk (meaning_of_plant_reply result) (IsPlantAnswer H (PlantCmd.Trace lot.now way))) }
{
    match trace_plant(alloc, keep, lot, way) {
        Ok(steps) => match trace_text(alloc, &steps) {
            Ok(text) => PlantReply::Text(text),
            Err(_) => PlantReply::Fault(KeepFault::Memory),
        },
        Err(fault) => PlantReply::Fault(fault),
    }
}

// ---- recalls

// The text of a recall: [`Refusal::UnknownOwner`], then [`Refusal::UnknownLot`].
fn answer_recall<K: Keep>(alloc: Global, keep: &mut K, lot: &LotId) -> PlantReply
    ensures going { IsRecallEffect K.meaning keep.old keep.new (meaning_of_plant_reply result) }
    ensures whole { Over K.meaning keep.old keep.new (λ c H. meaning_of_plant_reply result ≢ Err KeepFault.Damaged) }
    ensures over { Over K.meaning keep.old keep.new (λ c H. IfOk (meaning_of_plant_reply result) (IsPlantAnswer H (PlantCmd.Recall lot.now))) }
{
    match recall(alloc, keep, lot) {
        Ok(Some(lines)) => match recall_text(alloc, &lines) {
            Ok(text) => PlantReply::Text(text),
            Err(_) => PlantReply::Fault(KeepFault::Memory),
        },
        Ok(None) => refuse_lot(alloc, keep, lot),
        Err(fault) => PlantReply::Fault(fault),
    }
}

// The refusal of an unknown lot.
fn refuse_lot<K: Keep>(alloc: Global, keep: &mut K, lot: &LotId) -> PlantReply
    ensures reads { IsReading K.meaning keep.old keep.new (meaning_of_plant_reply result) }
    ensures over { Over K.meaning keep.old keep.new (λ c H. is_known_lot H lot.now ≡ false
        → IfOk (meaning_of_plant_reply result) (IsPlantAnswer H (PlantCmd.Recall lot.now))) }
{
    match keep.slice(alloc, &lot.owner) {
        Ok(Some(_)) => PlantReply::Refused(Refusal::UnknownLot),
        Ok(None) => PlantReply::Refused(Refusal::UnknownOwner),
        Err(fault) => PlantReply::Fault(fault),
    }
}
