//! An import of a file of actuals that is under way.
ghost use Rattle.std.specs.Prelude.{◌≡◌, ◌↔◌, ◌+◌, ◌++◌, ◌≤◌, IsTrue, IfErr, IfOk, [], length, vec_capacity, vec_len};
ghost use Rattle.toll_plant.specs.ImportFaults.{IsRefusedFor};
ghost use Rattle.toll_plant.specs.Imports.{AreNumberedFrom, outcomes_in};
ghost use Rattle.toll_plant.specs.ImportStates.{IsBegun, IsResumed, IsUnderWay};

use crate::actuals::actuals;
use crate::grouping::{GROUP_RECORDS, import_group};
use crate::import_fault::ImportFault;
use crate::importing::MOST_FILE_BYTES;
use crate::outcome::Outcome;
use crate::report::{ImportLine, ImportReport};
use std::alloc::Global;
use std::marker::Model;
use toll_desk::PlantCmd;
use toll_keep::Keep;

/// An import of a file of actuals, group by group. Between two groups the keep may serve other clients.
#[derive(Drop)]
pub struct Import {
    commands: Vec<Option<PlantCmd>>,
    // The place of the next group's first record. After a fault that is the end.
    next: usize,
    lines: Vec<ImportLine>,
    // Room for the outcomes of a group.
    outcomes: Vec<Outcome>,
}

/// The commands of the records that are left, and the lines of those that were reached.
impl Model for Import {
    ghost use Rattle.std.specs.Prelude.{drop};
    ghost use Rattle.toll_plant.specs.ImportStates.{ImportState, IsUnderWay};

    ghost Value = { ImportState };

    ghost view = { λ i. record { left = drop i.next i.commands.items; lines = i.lines.items } };

    ghost invariant = { λ i. IsUnderWay i.commands.items i.next i.lines i.outcomes };
}

impl Import {
    /// Reads all records of a file, as `csv` reads it: the header, and under it a record for each actual.
    /// None has acted yet. It takes all memory that the lines of the records need.
    ///
    /// A file of more than 1,048,576 bytes is [`ImportFault::TooLong`]. Any other whose first record isn't
    /// the header, or that has no record, is [`ImportFault::BadHeader`], if there is the memory to read it.
    pub fn of(alloc: Global, file: &[u8]) -> Result<Self, ImportFault>
        ensures begun { IfOk result (IsBegun file.now) }
        ensures refused { IfErr result (IsRefusedFor file.now) }
    {
        if file.len() > MOST_FILE_BYTES {
            return Err(ImportFault::TooLong);
        }
        let commands = actuals(alloc, file)?;
        let lines = Vec::with_capacity(alloc, commands.len())?;
        let outcomes = Vec::with_capacity(alloc, GROUP_RECORDS)?;
        Ok(Import {
            commands,
            next: 0,
            lines,
            outcomes,
        })
    }

    /// Whether no record is left: all have acted, or one has met a fault.
    pub fn is_over(&self) -> bool
        ensures { IsTrue result ↔ (self.now.left ≡ []) }
    {
        self.next == self.commands.len()
    }

    /// The next [`GROUP_RECORDS`] records act, or all that are left, as [`import_group`] says. After a fault
    /// none is left. If none is left, nothing is done.
    pub fn resume<K: Keep>(&mut self, alloc: Global, keep: &mut K)
        ensures { IsResumed K.meaning keep.old keep.new self.old self.new }
    {
        let left = &self.commands[self.next..];
        if left.is_empty() {
            return;
        }
        let (group, _) = left.split_at(left.len().min(GROUP_RECORDS));
        let end = import_group(alloc, keep, group, &mut self.outcomes);
        let behind = self.next + group.len();
        push_lines(&mut self.lines, &self.outcomes);
        match end {
            Ok(()) => self.next = behind,
            Err(_) => self.next = self.commands.len(),
        }
    }

    /// The lines of the records that were reached. If the import is over, these are all up to the first
    /// fault.
    pub fn into_report(self) -> ImportReport
        ensures lines { result.lines.items ≡ self.lines }
        ensures numbered { AreNumberedFrom 1 result.lines.items }
    {
        ImportReport { lines: self.lines }
    }
}

// Adds a line for each of these outcomes.
fn push_lines(lines: &mut Vec<ImportLine>, outcomes: &[Outcome])
    requires { vec_len lines.old + length outcomes.now ≤ vec_capacity lines.old }
    ensures reported { outcomes_in lines.new.items ≡ outcomes_in lines.old.items ++ outcomes.now }
    ensures numbered { AreNumberedFrom 1 lines.old.items → AreNumberedFrom 1 lines.new.items }
    ensures len { vec_len lines.new ≡ vec_len lines.old + length outcomes.now }
    ensures capacity { vec_capacity lines.new ≡ vec_capacity lines.old }
{
    for outcome in outcomes {
        let number = lines.len() as u64 + 1;
        lines.push_reserved(ImportLine {
            number,
            outcome: *outcome,
        });
    }
}
