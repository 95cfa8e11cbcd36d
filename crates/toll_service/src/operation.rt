//! Operations over an office that has no server.
ghost use Rattle.toll_programs.specs.Outputs.{printout_of};
ghost use Rattle.toll_service.specs.Doing.{IsOperationDone};

use std::alloc::Global;
use toll_desk::PlantCmd;
use toll_keep::Keep;
use toll_programs::{Output, execute, import_file};

/// A command or a question of the plant, or the import of a file of actuals.
#[derive(Clone, Copy)]
pub enum Operation<'a> {
    Command(&'a PlantCmd),
    Import(&'a [u8]),
}

impl<'a> Operation<'a> {
    /// Does the operation over a keep, and gives what the program prints for it.
    pub fn run<K: Keep>(self, alloc: Global, keep: &mut K) -> Output
        ensures { IsOperationDone K.meaning self.entry keep.old keep.new (printout_of result) }
    {
        match self {
            Operation::Command(command) => execute(alloc, keep, command),
            Operation::Import(file) => import_file(alloc, keep, file),
        }
    }
}
