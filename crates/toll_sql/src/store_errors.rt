//! Errors of the store and of the allocator as faults of a keep.
ghost use Rattle.std.specs.Prelude.{◌≡◌, ◌⊎◌, ◌++◌, [], ◌∷◌, false, Err, IfErr, IsTrue, OnErr, OnOk, if◌then◌else◌, is_ok};
ghost use Rattle.toll_base.specs.Slice.{with_row};
ghost use Rattle.toll_base.specs.SliceRules.{KeepsRules};
ghost use Rattle.toll_sql.specs.Causes.{CountsOneMore, is_disk_fault};

use crate::queries::StoreError;
use sqlite::{Error, ErrorCode};
use toll_base::{Row, Slice};
use toll_keep::KeepFault;

/// Whether a call lacked memory. It is noted by an error of a query, and where a row is put and the allocator
/// has no memory for it, and by nothing else. A call makes one, and its fault takes it: no copy stays.
#[derive(Drop)]
pub struct MemoryLack {
    is_noted: bool,
}

impl MemoryLack {
    /// None so far.
    pub fn none() -> Self
        ensures { result.is_noted ≡ false }
    {
        MemoryLack { is_noted: false }
    }

    /// The fault for an error of the store, as [`fault_of`] says. Notes lack of memory.
    pub fn fault_of(&mut self, error: StoreError) -> KeepFault
        ensures fault { ((result ≡ KeepFault.Memory) × (is_disk_fault error ≡ false)) ⊎ ((result ≡ KeepFault.Disk) × IsTrue (is_disk_fault error)) }
        ensures noted { result ≡ KeepFault.Memory → IsTrue self.new.is_noted }
    {
        let fault = fault_of(error.into_error());
        if fault == KeepFault::Memory {
            self.is_noted = true;
        }
        fault
    }

    /// Appends the row. Memory if there is none for it; that is noted, and the rows stay.
    pub fn append<X>(&mut self, rows: &mut Vec<X>, row: X) -> Result<(), KeepFault>
    where
        X: Drop,
        ensures items { rows.new.items ≡ (if is_ok result then rows.old.items ++ row ∷ [] else rows.old.items) }
        ensures err { IfErr result (λ fault. fault ≡ KeepFault.Memory) }
        ensures noted { OnErr result (IsTrue self.new.is_noted) }
    {
        match rows.push(row) {
            Ok(()) => Ok(()),
            Err(_row) => {
                self.is_noted = true;
                Err(KeepFault::Memory)
            }
        }
    }

    /// Puts the row into the slice. Memory if there is none for it; that is noted, and the slice stays.
    pub fn put(&mut self, slice: &mut Slice, row: Row) -> Result<(), KeepFault>
        requires { KeepsRules (with_row slice.old row) }
        ensures ok { OnOk result (slice.new ≡ with_row slice.old row) }
        ensures err { IfErr result (λ fault. (fault ≡ KeepFault.Memory) × (slice.new ≡ slice.old)) }
        ensures noted { OnErr result (IsTrue self.new.is_noted) }
    {
        match slice.put(row) {
            Ok(()) => Ok(()),
            Err(_error) => {
                self.is_noted = true;
                Err(KeepFault::Memory)
            }
        }
    }
}

/// How many calls lacked memory, modulo 2^64. It goes on only where a [`MemoryLack`] is noted.
#[derive(Drop)]
pub struct LackCount {
    count: u64,
}

impl LackCount {
    /// No call so far.
    pub fn zero() -> Self
        ensures { result.count ≡ 0 }
    {
        LackCount { count: 0 }
    }

    /// Counts this call, if it lacked memory.
    pub fn add(&mut self, call: MemoryLack)
        ensures noted { IsTrue call.is_noted → CountsOneMore self.old.count self.new.count }
        ensures none { call.is_noted ≡ false → self.new ≡ self.old }
    {
        if call.is_noted {
            self.count = self.count.wrapping_add(1);
        }
    }
}

/// The fault for the error: Disk if the disk failed or refused, or the store shut itself, else
/// Memory.
pub fn fault_of(error: Error) -> KeepFault
    ensures { ((result ≡ KeepFault.Memory) × (is_disk_fault error ≡ false)) ⊎ ((result ≡ KeepFault.Disk) × IsTrue (is_disk_fault error)) }
{
    match error {
        Error::SqliteFailure(
            ErrorCode::SystemIoFailure
            | ErrorCode::DatabaseCorrupt
            | ErrorCode::DiskFull
            | ErrorCode::Closed,
        ) => KeepFault::Disk,
        _ => KeepFault::Memory,
    }
}
