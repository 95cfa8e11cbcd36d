//! The line of a script that makes an owner's request.
ghost use Rattle.std.specs.Prelude.{◌≡◌, ◌++◌, ◌∷◌, ◌||◌, List, ℕ, IfOk, OnOk, flat_map, option_map};
ghost use Rattle.std.specs.List.{join_with_byte};
ghost use Rattle.toll_programs.specs.Pieces.{is_empty, pieces_at};
ghost use Rattle.toll_programs.specs.Requests.{request_of, request_text, field};
ghost use Rattle.toll_programs.specs.ShownRequest.{shown_request};

use crate::cutting::cut;
use std::alloc::{AllocError, Global};

/// The parts of the line `OWNER KEY METHOD TARGET`, which has the body after one more space.
#[derive(Clone, Copy)]
pub struct RequestLine<'a> {
    pub owner: &'a [u8],
    pub key: &'a [u8],
    pub method: &'a [u8],
    pub target: &'a [u8],
    pub body: &'a [u8],
}

impl<'a> RequestLine<'a> {
    /// The parts of a line: `None` if it has fewer than four words, or an empty one among them.
    pub fn parse(line: &'a [u8]) -> Option<Self>
        ensures { option_map shown_request result ≡ request_of (pieces_at 32 line.now) }
    {
        let (owner, rest) = cut(line, b' ')?;
        let (key, rest) = cut(rest, b' ')?;
        let (method, rest) = cut(rest, b' ')?;
        let (target, body) = target_and_body(rest);
        if owner.is_empty() || key.is_empty() || method.is_empty() || target.is_empty() {
            return None;
        }
        Some(RequestLine {
            owner,
            key,
            method,
            target,
            body,
        })
    }

    /// The HTTP request that the line makes. If OWNER or KEY is `-`, the request has no such field. An `Err` if there
    /// is no memory for it.
    pub fn text(&self, alloc: Global) -> Result<Vec<u8>, AllocError>
        ensures { IfOk result (λ text. text.items ≡ request_text (shown_request self.now)) }
    {
        let mut text = Vec::new(alloc);
        push_all(
            &mut text,
            &[
                self.method,
                b" ",
                self.target,
                b" HTTP/1.1\r\nhost: 127.0.0.1\r\n",
            ],
        )?;
        push_field(&mut text, b"toll-owner: ", self.owner)?;
        push_field(&mut text, b"toll-key: ", self.key)?;
        let len = self.body.len();
        let length = format!(in alloc; "content-length: {len}\r\n\r\n")?;
        push_all(&mut text, &[length.as_bytes(), self.body])?;
        Ok(text)
    }
}

// The last word, and the text after it: no bytes if the line ends there.
fn target_and_body(line: &[u8]) -> (&[u8], &[u8])
    ensures { (pieces : List (List ℕ)) × (pieces_at 32 line.now ≡ result.0.now ∷ pieces)
        × (result.1.now ≡ join_with_byte 32 pieces) }
{
    match cut(line, b' ') {
        Some((target, body)) => (target, body),
        None => (line, b""),
    }
}

// A field of the head, unless its value is left out.
fn push_field(text: &mut Vec<u8>, name: &[u8], value: &[u8]) -> Result<(), AllocError>
    ensures { OnOk result (text.new.items ≡ text.old.items ++ field name.now value.now) }
{
    if value == b"-".as_slice() {
        return Ok(());
    }
    push_all(text, &[name, value, b"\r\n"])
}

fn push_all(text: &mut Vec<u8>, parts: &[&[u8]]) -> Result<(), AllocError>
    ensures { OnOk result (text.new.items ≡ text.old.items ++ flat_map (λ part. part.now) parts.now) }
{
    for part in parts {
        text.extend_from_slice(part)?;
    }
    Ok(())
}
