//! Why a file of actuals was not imported.
use std::alloc::AllocError;
use std::fmt;
use thiserror::Error;

/// Why a file of actuals was not imported. Nothing acted.
#[derive(Clone, Copy, Debug, PartialEq, Eq, Error)]
pub enum ImportFault {
    /// There was no memory.
    Memory,
    /// The file has more bytes than are read.
    TooLong,
    /// The first record is not the header, or there is none.
    BadHeader,
}

/// Prints its name: `Memory`, `TooLong` or `BadHeader`.
impl fmt::Display for ImportFault {
    ghost use Rattle.std.specs.Prelude.{Some};
    ghost use Rattle.toll_plant.specs.FaultWords.{word_of_import_fault};

    ghost output = { λ fault. Some (word_of_import_fault fault) };

    fn fmt<W: fmt::Write>(&self, f: &mut fmt::Formatter<W>) -> fmt::Result {
        match self {
            ImportFault::Memory => f.write_str("Memory"),
            ImportFault::TooLong => f.write_str("TooLong"),
            ImportFault::BadHeader => f.write_str("BadHeader"),
        }
    }
}

impl From<AllocError> for ImportFault {
    ghost use Rattle.std.specs.Prelude.{◌≡◌};
    ghost use Rattle.toll_plant.specs.declared.import_fault.ImportFault.TheVariants.{Memory};

    ghost from_gives = { λ _ fault. fault ≡ Memory };

    fn from(_: AllocError) -> Self {
        ImportFault::Memory
    }
}
