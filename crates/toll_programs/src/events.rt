//! The events of a script.
ghost use Rattle.std.specs.Prelude.{◌≡◌, ◌∷◌, ◌<◌, IfOk, IfErr, IfSome, OnOk, Ok, Err, map, length, option_map};
ghost use Rattle.std.specs.Str.{is_utf8};
ghost use Rattle.toll_programs.specs.ScriptEvents.{script_events_of, IsFaultOf, GivesEvent, Gives, AddsEvent, script_lines_left, IsFaultOfScript};
ghost use Rattle.toll_programs.specs.Script.{IsScriptOf, script_lines, meaning_of_line, request_in_line, command_in_line, is_request, takes_memory, words_in};

use crate::cutting::cut;
use crate::request_line::RequestLine;
use std::alloc::{AllocError, Global};
use toll_plant::{WordsFault, command_of};
use toll_wire::Event;

/// Why the lines of a script can't be read as events.
#[derive(Clone, Copy)]
pub enum ScriptFault {
    /// There was no memory to read a line. No line before it is bad.
    Memory,
    /// The line of this number, counted from 1, is the first that is bad.
    BadLine(u64),
}

/// Why a line gave no event.
#[derive(Clone, Copy)]
enum LineFault {
    /// There was no memory for the line's event.
    Memory,
    /// The line is no event, no comment and not empty.
    Bad,
}

/// The events of the lines of a script, in order. Fails at the first line that is bad, or for which there is no
/// memory.
pub fn events_of(alloc: Global, text: &[u8]) -> Result<Vec<Event>, ScriptFault>
    ensures events { IfOk result (λ events. IsScriptOf text.now (script_events_of events.items)) }
    ensures fault { IfErr result (IsFaultOfScript text.now) }
{
    let mut events = Vec::new(alloc);
    let mut number = 0;
    let mut rest = Some(text);
    while let Some(lines) = rest {
        let (line, others) = first_line(lines);
        number += 1;
        match add_event(alloc, &mut events, line) {
            Ok(()) => rest = others,
            Err(LineFault::Memory) => return Err(ScriptFault::Memory),
            Err(LineFault::Bad) => return Err(ScriptFault::BadLine(number)),
        }
    }
    Ok(events)
}

// The first line, and those after it.
fn first_line(lines: &[u8]) -> (&[u8], Option<&[u8]>)
    ensures pieces { script_lines lines.now ≡ result.0.now ∷ script_lines_left (option_map (λ t. t.now) result.1) }
    ensures shorter { IfSome result.1 (λ others. length others.now < length lines.now) }
{
    match cut(lines, b'\n') {
        Some((line, others)) => (line, Some(others)),
        None => (lines, None),
    }
}

// Adds the event that a line asks for, if there is one.
fn add_event(alloc: Global, events: &mut Vec<Event>, line: &[u8]) -> Result<(), LineFault>
    ensures ok { OnOk result (AddsEvent (meaning_of_line line.now) events.old.items events.new.items) }
    ensures fault { IfErr result (IsFaultOf (meaning_of_line line.now) (takes_memory line.now)) }
{
    match event_of(alloc, line) {
        Ok(Some(event)) => events.push(event).map_err(|_| LineFault::Memory),
        Ok(None) => Ok(()),
        Err(fault) => Err(fault),
    }
}

// The event that a line asks for: none for an empty line and a comment.
fn event_of(alloc: Global, line: &[u8]) -> Result<Option<Event>, LineFault>
    ensures { Gives (meaning_of_line line.now) (takes_memory line.now) result }
{
    match line {
        [] | [b'#', ..] => Ok(None),
        [b'>', b' ', request @ ..] => Ok(Some(request_of(alloc, request)?)),
        words => Ok(Some(plant_of(alloc, words)?)),
    }
}

fn request_of(alloc: Global, line: &[u8]) -> Result<Event, LineFault>
    ensures { GivesEvent (request_in_line line.now) (is_request line.now) result }
{
    let Some(request) = RequestLine::parse(line) else {
        return Err(LineFault::Bad);
    };
    match request.text(alloc) {
        Ok(text) => Ok(Event::Owner(text)),
        Err(AllocError) => Err(LineFault::Memory),
    }
}

fn plant_of(alloc: Global, line: &[u8]) -> Result<Event, LineFault>
    ensures { GivesEvent (command_in_line line.now) (is_utf8 line.now) result }
{
    let Ok(line) = str::from_utf8(line) else {
        return Err(LineFault::Bad);
    };
    let Ok(words) = words_of(alloc, line) else {
        return Err(LineFault::Memory);
    };
    match command_of(alloc, &words) {
        Ok(command) => Ok(Event::Plant(command)),
        Err(WordsFault::Memory) => Err(LineFault::Memory),
        Err(WordsFault::Usage(_)) => Err(LineFault::Bad),
    }
}

// The words of a line: the texts between its spaces.
fn words_of(alloc: Global, line: &str) -> Result<Vec<&str>, AllocError>
    ensures { IfOk result (λ words. map (λ w. w.now) words.items ≡ words_in line.now) }
{
    line.split(' ')
        .filter(|word| !word.is_empty())
        .collect(alloc)
}
