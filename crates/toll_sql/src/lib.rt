//! The office's rows in SQLite.
#![tactic(auto)]

mod adopting;
mod cells;
mod creating;
mod edge_cells;
mod edges;
mod encode;
mod ghosts;
mod holding;
mod last_puts;
mod listing;
mod move_cells;
mod move_parts;
mod open_fault;
mod opening;
mod plant_row;
mod queries;
mod reading;
mod rows_of_lots;
mod rows_of_materials;
mod rows_of_moves;
mod rows_of_work;
mod schema_check;
mod slice_reading;
mod sql_keep;
mod store_errors;
mod stored;
mod table_kind;
mod version;
mod writing;

pub use adopting::adopt_tables;
pub use creating::create_tables;
pub use edges::read_edges;
pub use ghosts::{
    a_keep_over_sqlite_has_the_content_of_its_tables,
    a_keep_over_sqlite_holds_rows_for_some_owners, a_keep_over_sqlite_is_as_honest_as_its_disk,
    what_is_held_for_owners_is_in_their_rows,
};
pub use open_fault::OpenFault;
pub use slice_reading::read_slice;
pub use sql_keep::SqlKeep;
pub use store_errors::MemoryLack;
