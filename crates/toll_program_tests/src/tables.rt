//! An office over tables.
use sqlite::MemStore;
use std::alloc::Global;
use toll_keep::CachedKeep;
use toll_sql::{OpenFault, SqlKeep};

/// An office over tables in memory, as the program keeps one.
pub type TableKeep = CachedKeep<SqlKeep<MemStore>>;

/// Such an office without rows. An `Err` means that there was no memory.
pub fn empty_tables(alloc: Global) -> Result<TableKeep, OpenFault> {
    match SqlKeep::in_memory(alloc) {
        Ok(keep) => Ok(CachedKeep::new(alloc, keep)),
        Err(fault) => Err(fault),
    }
}
