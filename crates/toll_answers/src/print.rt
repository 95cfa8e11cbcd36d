//! The plant's texts, in columns.

mod batches;
mod column;
mod orders;
mod recalls;
mod stock;
mod traces;

pub use batches::batch_text;
pub use orders::orders_text;
pub use recalls::recall_text;
pub use stock::stock_text;
pub use traces::trace_text;
