//! The office's desk: owners' requests and the plant's commands and questions, over any keep. `owner.rt`
//! and `plant.rt` run them. `planning.rt` matches an owner's request, over the rows of the owner.
//! `representing.rt` has the laws of the history that the rows of a keep stand for.
#![tactic(auto)]

mod admission;
mod commands;
mod committing;
mod deciding;
mod decisions;
mod owner;
mod plan;
mod planning;
mod plant;
mod plant_cmd;
mod plant_tracing;
mod questions;
mod reading;
mod recalls;
mod representing;
mod request;
mod staging;
mod tracing;
mod units;
mod writing;

pub use admission::admit;
pub use committing::commit;
pub use owner::{owner_do, owner_plan};
pub use plant::plant_do;
pub use plant_cmd::PlantReply;
pub use recalls::recall;
pub use representing::{
    a_unit_has_one_holder, all_edges_are_the_plants, changes_that_keep_the_rules_fit,
    edges_are_the_owners, lawful_rows_keep_the_rules, nothing_stands_for_no_commands,
    owners_are_known_alike, units_have_the_same_holders,
};
pub use request::{Planned, Reply};
pub use staging::plant_stage;
pub use toll_answers::{
    ActualRow, LotView, PlantCmd, RecallLine, StockLine, batch_text, orders_text, recall_text,
    stock_text, trace_text,
};
pub use toll_base::Request;
