//! Commands from words.
ghost use Rattle.std.specs.Prelude.{◌≡◌, IfOk, IfErr, Some, find, map, option_map};
ghost use Rattle.std.specs.List.{list_all};
ghost use Rattle.std.specs.Str.{bytes_eq};
ghost use Rattle.toll_plant.specs.Lines.{is_plain_word, fitting_line, takes_values};
ghost use Rattle.toll_plant.specs.Shown.{shown_line};
ghost use Rattle.toll_plant.specs.Table.{command_lines};
ghost use Rattle.toll_plant.specs.Usages.{named_by};
ghost use Rattle.toll_plant.specs.Words.{IsUsageOf, IsUsageOnlyOf, command_of_words};

use crate::clap_words::values_of;
use crate::line::{LINES, Line};
use crate::usage::{usage_of_all, usage_of_line};
use crate::values::read;
use crate::words_fault::WordsFault;
use std::alloc::{AllocError, Global};
use toll_desk::PlantCmd;

/// The command that these words ask for: [`PlantCmd::Unread`] with the refusal of the first value, from left
/// to right, that can't be read. If all were read and the low limit of a test is above the high one, it is
/// [`PlantCmd::Unread`] with [`Refusal::BadAmount`](toll_base::Refusal).
///
/// Words that are a command's name and as many words as it has values are never [`WordsFault::Usage`], if
/// none of these is empty, begins with `-` or is `help`. All other words give no command. The text of Usage
/// shows how the command is written that the first word names, or, if it names none, how all are written.
pub fn command_of(alloc: Global, words: &[&str]) -> Result<PlantCmd, WordsFault>
    ensures command { IfOk result (λ command. command_of_words (map (λ w. w.now) words.entry.now) ≡ Some command) }
    ensures usage { IfErr result (IsUsageOnlyOf (map (λ w. w.now) words.entry.now)) }
    ensures text { IfErr result (IsUsageOf command_lines (map (λ w. w.now) words.entry.now)) }
{
    let lines = &LINES;
    match fitting(lines, words) {
        Some(line) => {
            let values = values_of(alloc, line, words)?;
            Ok(read(alloc, line, values.as_slice())?)
        }
        None => Err(usage_of(alloc, lines, words)),
    }
}

// How the command is written that the first word names, or how all are written.
fn usage_of(alloc: Global, lines: &[Line<'_>], words: &[&str]) -> WordsFault
    ensures { IsUsageOf (map shown_line lines.now) (map (λ w. w.now) words.now) result }
{
    let text = match first_named(lines, words) {
        Some(line) => usage_of_line(alloc, line),
        None => usage_of_all(alloc, lines),
    };
    match text {
        Ok(text) => WordsFault::Usage(text),
        Err(AllocError) => WordsFault::Memory,
    }
}

// The line with the name that the first word is.
fn first_named<'l, 'a>(lines: &'l [Line<'a>], words: &[&str]) -> Option<&'l Line<'a>>
    ensures { option_map (λ l. shown_line l.now) result ≡ named_by (map shown_line lines.entry.now) (map (λ w. w.now) words.now) }
{
    match words.split_first() {
        None => None,
        Some((name, _)) => named(lines, name),
    }
}

// The line that the words fit.
fn fitting<'l, 'a>(lines: &'l [Line<'a>], words: &[&str]) -> Option<&'l Line<'a>>
    ensures { option_map (λ l. shown_line l.now) result ≡ fitting_line (map shown_line lines.entry.now) (map (λ w. w.now) words.entry.now) }
{
    match words.split_first() {
        None => None,
        Some((name, values)) => match named(lines, name) {
            None => None,
            Some(line) if takes(line, values) => Some(line),
            Some(_) => None,
        },
    }
}

// The line with this name.
fn named<'l, 'a>(lines: &'l [Line<'a>], name: &str) -> Option<&'l Line<'a>>
    ensures { option_map (λ l. l.now) result ≡ find (λ l. bytes_eq l.name.now name.now) lines.entry.now }
{
    lines.iter().find(|line| line.name == name)
}

// Whether the words are as many as the line's values, and plain.
fn takes(line: &Line<'_>, words: &[&str]) -> bool
    ensures { result ≡ takes_values (shown_line line.now) (map (λ w. w.now) words.entry.now) }
{
    words.len() == line.values.len() && are_plain(words)
}

fn are_plain(words: &[&str]) -> bool
    ensures { result ≡ list_all (λ w. is_plain_word w.now) words.entry.now }
{
    words.iter().all(|word| is_plain(word))
}

fn is_plain(word: &str) -> bool
    ensures { result ≡ is_plain_word word.now }
{
    !word.is_empty() && !word.starts_with('-') && word != "help"
}
