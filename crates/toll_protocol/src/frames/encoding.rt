//! Frames as bytes.
ghost use Rattle.std.specs.Prelude.{◌≡◌, ◌<◌, ◌↔◌, IfNone, IfOk, IfSome, IsTrue, Err, length};
ghost use Rattle.toll_base.specs.Bytes.{Bytes};
ghost use Rattle.toll_protocol.specs.Frames.{HasFrame, IsEnough, IsFrameOf, claimed_length, frame};
ghost use Rattle.toll_protocol.specs.declared.frames.encode_fault.EncodeFault.{EncodeFault};

use crate::frames::encode_fault::EncodeFault;
use std::alloc::Global;

/// How many bytes the length has, before the content.
pub const LENGTH_BYTES: usize = 4;

/// A content of at most `most` bytes, as a frame. A longer one is unfit.
pub fn encode(alloc: Global, content: &[u8], most: u32) -> Result<Vec<u8>, EncodeFault>
    ensures whole { IfOk result (λ bytes. bytes.items ≡ frame content.now) }
    ensures unfit { (result ≡ Err EncodeFault.Unfit) ↔ (most < length content.now) }
{
    if content.len() > most as usize {
        return Err(EncodeFault::Unfit);
    }
    let mut bytes = Vec::from_slice(alloc, &(content.len() as u32).to_be_bytes())?;
    bytes.extend_from_slice(content)?;
    Ok(bytes)
}

/// Whether enough of a frame has come: all of it, or a length that is above `most`.
pub fn is_enough(text: &[u8], most: u32) -> bool
    ensures { IsTrue result ↔ IsEnough most text.now }
{
    match claimed(text) {
        None => false,
        Some(len) => len > most as usize || text.len() - LENGTH_BYTES >= len,
    }
}

/// The content of the frame that a text is; `None` if it is no frame, or one of more than `most` bytes.
pub fn content_of(text: &[u8], most: u32) -> Option<&[u8]>
    ensures found { IfSome result (λ content. IsFrameOf most text.now content.now) }
    ensures none { IfNone result ((content : Bytes) → ¬ (IsFrameOf most text.now content)) }
{
    let Some((content, rest)) = front_of(text, most) else {
        return None;
    };
    if !rest.is_empty() {
        return None;
    }
    Some(content)
}

/// The content of the frame at the front of a text, and the text after it; `None` if no frame is there, or
/// one of more than `most` bytes.
pub fn front_of(text: &[u8], most: u32) -> Option<(&[u8], &[u8])>
    ensures found { IfSome result (λ parts. HasFrame most text.now parts.0.now parts.1.now) }
    ensures none { IfNone result ((content rest : Bytes) → ¬ (HasFrame most text.now content rest)) }
{
    let len = claimed(text)?;
    let rest = &text[LENGTH_BYTES..];
    if len > most as usize || rest.len() < len {
        return None;
    }
    Some(rest.split_at(len))
}

// The length that the first bytes claim.
fn claimed(text: &[u8]) -> Option<usize>
    ensures { result ≡ claimed_length text.now }
{
    match text {
        [a, b, c, d, ..] => Some(u32::from_be_bytes([*a, *b, *c, *d]) as usize),
        _ => None,
    }
}
