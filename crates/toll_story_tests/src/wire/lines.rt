//! Events of the office, from lines of stories.
use std::alloc::{AllocError, Global};
use toll_stories::{plant_cmd, request_of};
use toll_wire::Event;

// The event of this line: none for words that are no command's.
fn event_of(alloc: Global, line: &str) -> Result<Option<Event>, AllocError> {
    if let Some(bytes) = request_of(alloc, line)? {
        return Ok(Some(Event::Owner(bytes)));
    }
    let words: Vec<&str> = line.split(' ').collect(alloc)?;
    Ok(plant_cmd(alloc, &words)?.map(Event::Plant))
}

/// The events of these lines.
pub fn events_of(alloc: Global, lines: &[&str]) -> Result<Vec<Event>, AllocError> {
    let mut events = Vec::new(alloc);
    for line in lines {
        if let Some(event) = event_of(alloc, line)? {
            events.push(event)?;
        }
    }
    Ok(events)
}
