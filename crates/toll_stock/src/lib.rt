//! Materials, lots and stock: the decisions on commands about material.
#![tactic(auto)]

mod dispositions;
mod lot_rows;
mod material_tests;
mod materials;
mod movements;
mod receipts;
mod results;
mod shipped;
mod splits;
mod stock;
mod totals;
mod totals_of_lots;
mod withdrawals;

pub use dispositions::{reject, release};
pub use lot_rows::{results_of, sublots_of};
pub use material_tests::add_test;
pub use materials::add_material;
pub use receipts::receive;
pub use results::record_result;
pub use splits::split;
pub use stock::{Totals, on_hand, on_hand_of};
pub use totals::lot_totals;
pub use totals_of_lots::LotTotals;
pub use withdrawals::{scrap, ship};
