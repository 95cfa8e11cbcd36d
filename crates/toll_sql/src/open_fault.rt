//! Why a store didn't become a keep.
ghost use Rattle.std.specs.Prelude.{◌≡◌, ◌⊎◌, false, IsTrue};
ghost use Rattle.toll_sql.specs.Causes.{is_disk_fault};
ghost use Rattle.toll_sql.specs.Opening.{open_fault_word};

use crate::store_errors::fault_of;
use sqlite::Error as StoreError;
use thiserror::Error;
use toll_keep::KeepFault;

/// Why a store didn't become a keep.
#[derive(Clone, Copy, Debug, PartialEq, Eq, Error)]
pub enum OpenFault {
    /// Memory ran out. The store is as it was.
    #[error("Memory")]
    Memory,
    /// The disk failed, or refused. Opened again, the store is as it was, or has all that the call makes.
    #[error("Disk")]
    Disk,
    /// The store has the office's version, but a table or column of it is missing or differs.
    #[error("Damaged")]
    Damaged,
    /// New tables were to be made and the store already has tables, or it doesn't have the office's
    /// version. Nothing was written.
    #[error("NotOurs")]
    NotOurs,
}

impl OpenFault {
    /// The fault as programs report it.
    pub fn name(&self) -> &'static str
        ensures { result.now ≡ open_fault_word self.now }
    {
        match self {
            OpenFault::Memory => "Memory",
            OpenFault::Disk => "Disk",
            OpenFault::Damaged => "Damaged",
            OpenFault::NotOurs => "NotOurs",
        }
    }
}

/// The fault for the error: Disk if the disk failed or refused, or the store shut itself, else
/// Memory.
pub(crate) fn open_fault_of(error: StoreError) -> OpenFault
    ensures { ((result ≡ OpenFault.Memory) × (is_disk_fault error ≡ false)) ⊎ ((result ≡ OpenFault.Disk) × IsTrue (is_disk_fault error)) }
{
    match fault_of(error) {
        KeepFault::Disk => OpenFault::Disk,
        _ => OpenFault::Memory,
    }
}
