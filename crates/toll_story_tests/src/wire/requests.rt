//! Requests and replies as bytes.
use std::alloc::{AllocError, Global};

/// A request of ACME, `METHOD TARGET`, with a body.
pub fn request(alloc: Global, line: &str, body: &str) -> Result<Vec<u8>, AllocError> {
    keyed(
        alloc,
        line,
        "toll-owner: ACME\r\ntoll-key: ACMEKEY1\r\n",
        body,
    )
}

/// A request with these fields of an owner and a key.
pub fn keyed(alloc: Global, line: &str, fields: &str, body: &str) -> Result<Vec<u8>, AllocError> {
    let len = body.len();
    let text = format!(in alloc;
        "{line} HTTP/1.1\r\nhost: 127.0.0.1\r\n{fields}content-length: {len}\r\n\r\n{body}"
    )?;
    Ok(text.into_bytes())
}

/// A request of ACME with further fields.
pub fn with_fields(
    alloc: Global,
    line: &str,
    fields: &str,
    body: &str,
) -> Result<Vec<u8>, AllocError> {
    let text = format!(in alloc;
        "{line}\r\nhost: 127.0.0.1\r\ntoll-owner: ACME\r\ntoll-key: ACMEKEY1\r\n{fields}\r\n{body}"
    )?;
    Ok(text.into_bytes())
}

/// A front, a part so many times, and an end.
pub fn repeated(
    alloc: Global,
    front: &str,
    part: &str,
    count: usize,
    end: &str,
) -> Result<String, AllocError> {
    let mut text = String::from_str(alloc, front)?;
    for _ in 0..count {
        text.push_str(part)?;
    }
    text.push_str(end)?;
    Ok(text)
}

/// A reply with a status and a body that is not empty.
pub fn reply(alloc: Global, status: &str, body: &str) -> Result<Vec<u8>, AllocError> {
    let len = body.len();
    let text = format!(in alloc;
        "HTTP/1.1 {status}\r\ncontent-type: application/json\r\ncontent-length: {len}\r\nconnection: close\r\n\r\n{body}"
    )?;
    Ok(text.into_bytes())
}
