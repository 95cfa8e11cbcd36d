//! What `toll_desk` hands on from the crates below it, with the types that it takes and gives. No other crate calls
//! this by that name, so a change of it is to be made here too.
use std::alloc::{AllocError, Global};
use toll_base::{Change, LotId, Slice};
use toll_desk::{
    Planned, RecallLine, Reply, batch_text, orders_text, recall, recall_text, stock_text,
    trace_text,
};
use toll_keep::{Keep, KeepFault};
use toll_trace::Step;
use toll_work::BatchView;

type Text = Result<Vec<u8>, AllocError>;

pub fn planned(reply: Reply, changes: Vec<Change>) -> Planned {
    Planned { reply, changes }
}

pub fn recalls<K: Keep>(
    alloc: Global,
    keep: &mut K,
    lot: &LotId,
) -> Result<Option<Vec<RecallLine>>, KeepFault> {
    recall(alloc, keep, lot)
}

pub fn texts(alloc: Global, lines: &[RecallLine], view: &BatchView, steps: &[Step]) -> [Text; 3] {
    [
        recall_text(alloc, lines),
        batch_text(alloc, view),
        trace_text(alloc, steps),
    ]
}

pub fn texts_of_slices(alloc: Global, slice: &Slice) -> [Text; 2] {
    [stock_text(alloc, slice), orders_text(alloc, slice)]
}
