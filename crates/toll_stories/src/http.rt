//! Owners' lines over HTTP.
use crate::said::text_of;
use std::alloc::{AllocError, Global};

// The owner, its key, the method, the target and the body of an owner's line.
fn parts_of(line: &str) -> Option<(&str, &str, &str, &str, &str)> {
    let (owner, rest) = line.strip_prefix("> ")?.split_once(' ')?;
    let (key, rest) = rest.split_once(' ')?;
    let (method, rest) = rest.split_once(' ')?;
    let (target, body) = rest.split_once(' ').unwrap_or((rest, ""));
    Some((owner, key, method, target, body))
}

/// The request of an owner's line: `>`, its name and its key, the method, the target and, if there is one,
/// the body. `None` for every other line. An `Err` means that there was no memory.
pub fn request_of(alloc: Global, line: &str) -> Result<Option<Vec<u8>>, AllocError> {
    let Some((owner, key, method, target, body)) = parts_of(line) else {
        return Ok(None);
    };
    let len = body.len();
    let text = format!(in alloc;
        "{method} {target} HTTP/1.1\r\nhost: 127.0.0.1\r\ntoll-owner: {owner}\r\ntoll-key: {key}\r\ncontent-length: {len}\r\n\r\n{body}"
    )?;
    Ok(Some(text.into_bytes()))
}

/// A reply as a story shows it: its status and, if there is one, its body. An `Err` means that there was no
/// memory.
pub fn reply_said(alloc: Global, reply: &[u8]) -> Result<String, AllocError> {
    let text = text_of(reply);
    let status = text.get(9..12).unwrap_or("?");
    match text.split_once("\r\n\r\n") {
        Some((_, "")) => String::from_str(alloc, status),
        Some((_, body)) => format!(in alloc; "{status} {body}"),
        None => String::from_str(alloc, "?"),
    }
}
