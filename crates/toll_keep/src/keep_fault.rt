//! Why a keep didn't answer.
ghost use Rattle.std.specs.Prelude.{◌≡◌};
ghost use Rattle.toll_keep.specs.Fault.{fault_word};

use std::alloc::AllocError;
use std::fmt;
use thiserror::Error;

/// Why a keep didn't answer.
#[derive(Clone, Copy, Debug, PartialEq, Eq, Error)]
pub enum KeepFault {
    /// Memory ran out. Nothing changed, and the keep goes on.
    Memory,
    /// The disk failed, or refused. From now on the keep answers [`KeepFault::Closed`]. Opened again,
    /// its store has the rows from before an interrupted change, or those after all of it.
    Disk,
    /// A stored row isn't a value of its kind, or breaks the rules of its owner's rows. From now on the
    /// keep answers [`KeepFault::Closed`].
    Damaged,
    /// A Disk or Damaged fault came before, and the store wasn't opened again.
    Closed,
}

impl KeepFault {
    /// How it is printed: `Memory`, `Disk`, `Damaged` or `Closed`.
    pub fn name(&self) -> &'static str
        ensures { result.now ≡ fault_word self.now }
    {
        match self {
            KeepFault::Memory => "Memory",
            KeepFault::Disk => "Disk",
            KeepFault::Damaged => "Damaged",
            KeepFault::Closed => "Closed",
        }
    }
}

/// Prints its name, as [`KeepFault::name`] gives it.
impl fmt::Display for KeepFault {
    ghost use Rattle.std.specs.Prelude.{Some};
    ghost use Rattle.toll_keep.specs.Fault.{fault_word};

    ghost output = { λ fault. Some (fault_word fault) };

    fn fmt<W: fmt::Write>(&self, f: &mut fmt::Formatter<W>) -> fmt::Result {
        f.write_str(self.name())
    }
}

impl From<AllocError> for KeepFault {
    ghost use Rattle.std.specs.Prelude.{◌≡◌};
    ghost use Rattle.toll_keep.specs.declared.keep_fault.KeepFault.TheVariants.{Memory};

    ghost from_gives = { λ _ fault. fault ≡ Memory };

    fn from(_: AllocError) -> Self {
        KeepFault::Memory
    }
}
