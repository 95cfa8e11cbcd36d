//! An owner's rows as the owner sees them: stock, a lot with its results and sublots, and whether a lot
//! was consumed.

mod consumed;
mod lot;
mod stock;

pub use consumed::has_consumed;
pub use lot::{LotView, lot_view};
pub use stock::{StockLine, stock_lines};
