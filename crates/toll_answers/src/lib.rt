//! The plant's commands, and the answers to owners and the plant over a history: views of lots and stock,
//! genealogy and recalls, and the plant's texts.
#![tactic(auto)]

mod actual_row;
mod genealogy;
mod isolation;
mod plant_cmd;
mod print;
mod views;

pub use actual_row::ActualRow;
pub use genealogy::{
    RecallLine, a_movement_stands_unless_it_is_voided, edges_of_a_batch,
    edges_of_a_slice_are_the_owners, lots_of_edges_are_known,
    plants_traces_within_an_owner_are_the_owners, recalls_agree_where_their_parts_do,
    recalls_within_an_owner_are_the_owners, setups_of_genealogy_are_accepted,
    traces_go_by_the_owners_batches, traces_of_a_batch, traces_of_a_circle,
};
pub use isolation::replies_come_from_the_owners_part;
pub use plant_cmd::PlantCmd;
pub use print::{batch_text, orders_text, recall_text, stock_text, trace_text};
pub use views::{LotView, StockLine, has_consumed, lot_view, stock_lines};
