//! What is said, as text.
use std::alloc::{AllocError, Global};
use toll_desk::PlantReply;

/// These bytes as text; `?` if they are none.
pub fn text_of(bytes: &[u8]) -> &str {
    match str::from_utf8(bytes) {
        Ok(text) => text,
        Err(_) => "?",
    }
}

/// The answer if a text is shown: the text itself. An `Err` means that there was no memory.
pub fn said_text(alloc: Global, bytes: &[u8]) -> Result<String, AllocError> {
    String::from_str(alloc, text_of(bytes))
}

fn said_as(alloc: Global, kind: &str, word: &str) -> Result<String, AllocError> {
    format!(in alloc; "{kind} {word}")
}

/// The answer to the plant: `accepted`, `repeated`, `refused` and its word, the text itself, or `fault` and
/// its name. An `Err` means that there was no memory.
pub fn plant_said(alloc: Global, reply: &PlantReply) -> Result<String, AllocError> {
    match reply {
        PlantReply::Accepted => String::from_str(alloc, "accepted"),
        PlantReply::Repeated => String::from_str(alloc, "repeated"),
        PlantReply::Refused(why) => said_as(alloc, "refused", why.title()),
        PlantReply::Text(text) => said_text(alloc, text),
        PlantReply::Fault(why) => said_as(alloc, "fault", why.name()),
    }
}
