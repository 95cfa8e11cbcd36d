//! Recipes, orders and batches: the decisions on commands about work.
#![tactic(auto)]

mod actuals;
mod batches;
mod crossing;
mod orders;
mod recipes;
mod states;
mod views;
mod voids;

pub use actuals::record_actual;
pub use batches::{close_batch, command_batch, open_batch};
pub use orders::{cancel_order, place_order};
pub use recipes::{add_recipe, require};
pub use states::{StateWord, next};
pub use toll_base::{State, StateCommand};
pub use views::{BatchView, RequirementLine, batch_view};
pub use voids::void_actual;
