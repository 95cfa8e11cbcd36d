//! The words, as `clap` takes them.
ghost use Rattle.std.specs.Prelude.{◌≡◌, ◌<◌, IfOk, true, map, length, drop};
ghost use Rattle.clap.specs.Words.{app_of};
ghost use Rattle.toll_plant.specs.ClapWords.{values_app};
ghost use Rattle.toll_plant.specs.Lines.{takes_values};
ghost use Rattle.toll_plant.specs.Shown.{shown_line};

use crate::line::Line;
use clap::error::ErrorKind;
use clap::{Arg, ArgAction, Command};
use std::alloc::{AllocError, Global};

// The id of the one argument that `clap` is given, which has all values of a command.
const VALUES: &str = "VALUES";

/// The values of the words, which fit the line: the words after the first one. It fails only if memory runs
/// out.
pub fn values_of<'a>(
    alloc: Global,
    line: &Line<'a>,
    words: &'a [&'a str],
) -> Result<Vec<&'a str>, AllocError>
    requires some { 0 < length line.now.values.now }
    requires fits { takes_values (shown_line line.now) (drop 1 (map (λ w. w.now) words.now)) ≡ true }
    ensures { IfOk result (λ values. map (λ v. v.now) values.items ≡ drop 1 (map (λ w. w.now) words.entry.now)) }
{
    let command = command(alloc, line)?;
    let matches = match command.try_get_matches_from(words) {
        Ok(matches) => matches,
        Err(why) => match why.kind() {
            ErrorKind::OutOfMemory => return Err(AllocError),
            _ => unreachable!(),
        },
    };
    match matches.get_strs(VALUES) {
        Some(values) => Vec::from_slice(alloc, values),
        None => unreachable!(),
    }
}

// The line's command: its name, and after it as many values as the line has.
fn command<'a>(alloc: Global, line: &Line<'a>) -> Result<Command<'a>, AllocError>
    ensures { IfOk result (λ c. app_of c ≡ values_app line.now.name.now (length line.now.values.now)) }
{
    let values = Arg::new(alloc, VALUES)
        .action(ArgAction::Set)
        .required(true)
        .num_args(line.values.len());
    Command::new(alloc, line.name)
        .disable_help_flag(true)
        .arg(values)
}
