//! Why an office on a file was not opened.
ghost use Rattle.std.specs.Prelude.{◌≡◌};
ghost use Rattle.toll_files.specs.Faults.{fault_text, office_fault_name};

use std::fmt;
use thiserror::Error;

/// Why an office on a file was not opened. Nothing changed, except that the file may have been made.
#[derive(Clone, Copy, Debug, PartialEq, Eq, Error)]
pub enum OfficeFault {
    /// Another program has the lock, or the lock's file can't be opened.
    Locked,
    /// There was no memory.
    Memory,
    /// The disk failed, or refused access.
    Disk,
    /// The file has the office's version, but its content is not as the office leaves it.
    Damaged,
    /// The file belongs to no office, or to one of another version. Nothing was written.
    NotOurs,
}

impl OfficeFault {
    /// The fault's name, as responses and the operator's log have it.
    pub fn name(self) -> &'static str
        ensures { result.now ≡ office_fault_name self }
    {
        match self {
            OfficeFault::Locked => "Locked",
            OfficeFault::Memory => "Memory",
            OfficeFault::Disk => "Disk",
            OfficeFault::Damaged => "Damaged",
            OfficeFault::NotOurs => "NotOurs",
        }
    }

    /// The line that reports it. It takes no memory.
    pub fn line(self) -> &'static [u8]
        ensures { result.now ≡ fault_text self }
    {
        match self {
            OfficeFault::Locked => b"fault Locked\n",
            OfficeFault::Memory => b"fault Memory\n",
            OfficeFault::Disk => b"fault Disk\n",
            OfficeFault::Damaged => b"fault Damaged\n",
            OfficeFault::NotOurs => b"fault NotOurs\n",
        }
    }
}

/// Prints its name, as [`OfficeFault::name`] gives it.
impl fmt::Display for OfficeFault {
    ghost use Rattle.std.specs.Prelude.{Some};
    ghost use Rattle.toll_files.specs.Faults.{office_fault_name};

    ghost output = { λ fault. Some (office_fault_name fault) };

    fn fmt<W: fmt::Write>(&self, f: &mut fmt::Formatter<W>) -> fmt::Result {
        f.write_str(self.name())
    }
}
