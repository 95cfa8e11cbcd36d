//! The values of a command, read from left to right.
ghost use Rattle.std.specs.Prelude.{◌≡◌, IfOk, IfErr, IsSome, Some, Ok, map};
ghost use Rattle.toll_plant.specs.Shown.{shown_line, shown_argument};
ghost use Rattle.toll_plant.specs.ArgumentFaults.{IsArgumentFault};
ghost use Rattle.toll_plant.specs.Words.{command_with, values_read};

use crate::argument::{Argument, ArgumentValue};
use crate::command::command_from;
use crate::line::Line;
use std::alloc::{AllocError, Global};
use std::convert::AsSlice;
use toll_base::Refusal;
use toll_desk::PlantCmd;

/// Why values were not read.
#[derive(Clone, Copy)]
pub enum ArgumentFault {
    /// There was no memory.
    Memory,
    /// The first value that can't be read has this refusal.
    Refused(Refusal),
}

/// The command of a line with these values. It fails only if memory runs out.
pub fn read<S: AsSlice<u8>>(
    alloc: Global,
    line: &Line<'_>,
    words: &[S],
) -> Result<PlantCmd, AllocError>
    requires { IsSome (command_with (shown_line line.now) (map S.items words.now)) }
    ensures { IfOk result (λ command. command_with (shown_line line.now) (map S.items words.now) ≡ Some command) }
{
    match read_all(alloc, line.values, words) {
        Ok(values) => match command_from(line.command, &values) {
            Some(command) => Ok(command),
            None => unreachable!(),
        },
        Err(ArgumentFault::Refused(why)) => Ok(PlantCmd::Unread(why)),
        Err(ArgumentFault::Memory) => Err(AllocError),
    }
}

// Each value, read in its way.
fn read_all<S: AsSlice<u8>>(
    alloc: Global,
    arguments: &[Argument<'_>],
    words: &[S],
) -> Result<Vec<ArgumentValue>, ArgumentFault>
    ensures values { IfOk result (λ values. values_read (map shown_argument arguments.now) (map S.items words.now) ≡ Ok values.items) }
    ensures unread { IfErr result (IsArgumentFault (values_read (map shown_argument arguments.now) (map S.items words.now))) }
{
    let mut values = Vec::new(alloc);
    for (argument, word) in arguments.iter().zip(words) {
        match argument.reading.read(word.as_slice()) {
            Ok(value) => values.push(value).map_err(|_| ArgumentFault::Memory)?,
            Err(why) => return Err(ArgumentFault::Refused(why)),
        }
    }
    Ok(values)
}
