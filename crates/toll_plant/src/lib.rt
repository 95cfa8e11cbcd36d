//! The plant's commands, from the words that ask for them, and files of actuals.
#![tactic(auto)]

mod actuals;
mod additions;
mod argument;
mod batches;
mod clap_words;
mod command;
mod grouping;
mod import;
mod import_fault;
mod importing;
mod laws;
mod line;
mod lots;
mod movements;
mod outcome;
mod printing;
mod questions;
mod records;
mod report;
mod sums;
mod taken;
mod usage;
mod values;
mod words;
mod words_fault;

pub use grouping::{GROUP_RECORDS, import_group};
pub use import::Import;
pub use import_fault::ImportFault;
pub use importing::{MOST_FILE_BYTES, import_actuals};
pub use laws::{
    a_file_has_a_limit, a_file_has_one_list_of_records, a_key_is_imported_once,
    what_stands_is_repeated, what_was_imported_stands,
};
pub use outcome::Outcome;
pub use printing::import_text;
pub use report::{ImportLine, ImportReport};
pub use words::command_of;
pub use words_fault::WordsFault;
