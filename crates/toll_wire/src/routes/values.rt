//! The values of parts.
use toll_base::{BatchNo, Name};

/// The values that a path has in its parts.
#[derive(Clone, Copy)]
pub enum Values {
    /// No value: the path is a route without parts.
    Nothing,
    /// The name of an order or of a lot.
    Name(Name),
    /// The name of an order and the number of one of its batches.
    NameAndNumber(Name, BatchNo),
}
