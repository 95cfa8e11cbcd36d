//! How commands are written.
ghost use Rattle.std.specs.Prelude.{◌≡◌, ◌++◌, IfOk, OnOk, flat_map, map};
ghost use Rattle.toll_plant.specs.Shown.{shown_line, shown_argument};
ghost use Rattle.toll_plant.specs.Usages as spec;

use crate::argument::Argument;
use crate::line::Line;
use std::alloc::{AllocError, Global};

/// The usage of one command: how it is written after the program's name, and which words are none of its
/// values. It fails only if memory runs out.
pub fn usage_of_line(alloc: Global, line: &Line<'_>) -> Result<Vec<u8>, AllocError>
    ensures { IfOk result (λ text. text.items ≡ spec.usage_of_line (shown_line line.now)) }
{
    let mut text = Vec::from_slice(alloc, b"usage: ")?;
    push_call(&mut text, line)?;
    text.extend_from_slice(
        b"No value is empty, is help or begins with a dash: a negative one is written M5.\n",
    )?;
    Ok(text)
}

/// The usage of all commands, a line for each. It fails only if memory runs out.
pub fn usage_of_all(alloc: Global, lines: &[Line<'_>]) -> Result<Vec<u8>, AllocError>
    ensures { IfOk result (λ text. text.items ≡ spec.usage_of_all (map shown_line lines.now)) }
{
    let mut text = Vec::from_slice(alloc, b"usage: one of these commands and questions\n")?;
    push_lines(&mut text, lines)?;
    Ok(text)
}

fn push_lines(text: &mut Vec<u8>, lines: &[Line<'_>]) -> Result<(), AllocError>
    ensures { OnOk result (text.new.items ≡ text.old.items ++ flat_map spec.indented (map shown_line lines.now)) }
{
    for line in lines {
        push_indented(text, line)?;
    }
    Ok(())
}

fn push_indented(text: &mut Vec<u8>, line: &Line<'_>) -> Result<(), AllocError>
    ensures { OnOk result (text.new.items ≡ text.old.items ++ spec.indented (shown_line line.now)) }
{
    text.extend_from_slice(b"       ")?;
    push_call(text, line)?;
    Ok(())
}

// The whole line of a command.
fn push_call(text: &mut Vec<u8>, line: &Line<'_>) -> Result<(), AllocError>
    ensures { OnOk result (text.new.items ≡ text.old.items ++ spec.call (shown_line line.now)) }
{
    text.extend_from_slice(b"toll --db FILE ")?;
    text.extend_from_slice(line.name.as_bytes())?;
    push_values(text, line.values)?;
    text.extend_from_slice(b"\n")?;
    Ok(())
}

fn push_values(text: &mut Vec<u8>, values: &[Argument<'_>]) -> Result<(), AllocError>
    ensures { OnOk result (text.new.items ≡ text.old.items ++ flat_map spec.value_word (map shown_argument values.now)) }
{
    for value in values {
        text.extend_from_slice(b" ")?;
        text.extend_from_slice(value.name.as_bytes())?;
    }
    Ok(())
}
