//! The outcomes of a file of actuals.
use crate::outcome::Outcome;

/// The outcome of each record of a file, in order, up to the first fault.
#[derive(Drop)]
pub struct ImportReport {
    pub lines: Vec<ImportLine>,
}

/// The outcome of a record.
#[derive(Clone, Copy)]
pub struct ImportLine {
    /// The record's number: from 1 for the first one under the header.
    pub number: u64,
    pub outcome: Outcome,
}
