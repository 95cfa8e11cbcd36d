//! The bodies of requests and replies, in JSON (RFC 8259). A body is read or made, unless there is no
//! memory.

mod batches;
mod body;
mod failures;
mod json_text;
mod json_value;
mod listed;
mod lots;
mod orders;
mod rows;
mod values;

pub use batches::batch_body;
pub use body::requested_order;
pub use failures::{error_body, refusal_body};
pub use listed::{orders_body, stock_body, trace_body};
pub use lots::lot_body;
pub use orders::order_body;
