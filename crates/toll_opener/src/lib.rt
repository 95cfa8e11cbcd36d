//! Offices whose rows are in tables of SQLite: opening and closing one in a file, and running a script over
//! one in memory. No other library names these keeps' types.
#![tactic(auto)]

mod scripts;
mod sql_opener;

pub use scripts::{do_script, run_script};
pub use sql_opener::{SqlOpener, office_at};
