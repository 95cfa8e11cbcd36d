//! Why words gave no command.
use std::alloc::AllocError;
use std::fmt;
use thiserror::Error;

/// Why words gave no command.
#[derive(Debug, Drop, Error)]
pub enum WordsFault {
    /// There was no memory.
    Memory,
    /// The words are no command. The text says how commands are written.
    Usage(Vec<u8>),
}

/// Prints its name: `Memory` or `Usage`.
impl fmt::Display for WordsFault {
    ghost use Rattle.std.specs.Prelude.{Some};
    ghost use Rattle.toll_plant.specs.FaultWords.{word_of_words_fault};

    ghost output = { λ fault. Some (word_of_words_fault fault) };

    fn fmt<W: fmt::Write>(&self, f: &mut fmt::Formatter<W>) -> fmt::Result {
        match self {
            WordsFault::Memory => f.write_str("Memory"),
            WordsFault::Usage(_) => f.write_str("Usage"),
        }
    }
}

impl From<AllocError> for WordsFault {
    ghost use Rattle.std.specs.Prelude.{◌≡◌};
    ghost use Rattle.toll_plant.specs.declared.words_fault.WordsFault.TheVariants.{Memory};

    ghost from_gives = { λ _ fault. fault ≡ Memory };

    fn from(_: AllocError) -> Self {
        WordsFault::Memory
    }
}
