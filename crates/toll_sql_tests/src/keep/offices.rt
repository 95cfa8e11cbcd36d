//! Keeps over tables.
use sqlite::MemStore;
use std::alloc::Global;
use toll_keep::CachedKeep;
use toll_sql::{OpenFault, SqlKeep};

/// An office over tables in memory, as the program keeps one.
pub type TableKeep = CachedKeep<SqlKeep<MemStore>>;

/// An office over tables in memory that remembers nothing: each call is asked of the tables.
pub type BareKeep = SqlKeep<MemStore>;

/// Such an office without rows. An `Err` means that there was no memory.
pub fn bare_tables(alloc: Global) -> Result<BareKeep, OpenFault> {
    SqlKeep::in_memory(alloc)
}

/// An office without rows. An `Err` means that there was no memory.
pub fn empty_tables(alloc: Global) -> Result<TableKeep, OpenFault> {
    match SqlKeep::in_memory(alloc) {
        Ok(keep) => Ok(CachedKeep::new(alloc, keep)),
        Err(fault) => Err(fault),
    }
}

/// The same office, once its connection was given back and its tables adopted.
pub fn taken_over(alloc: Global, keep: TableKeep) -> Result<TableKeep, OpenFault> {
    match SqlKeep::adopt(alloc, keep.inside().into_connection()) {
        Ok(keep) => Ok(CachedKeep::new(alloc, keep)),
        Err((fault, _)) => Err(fault),
    }
}
