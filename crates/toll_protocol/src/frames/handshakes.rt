//! The first message of a server.
ghost use Rattle.std.specs.Prelude.{◌≡◌, ◌<◌, ◌↔◌, IfOk, IsTrue, Err, codes, length};
ghost use Rattle.toll_protocol.specs.PlantMessages.{handshake_text};
ghost use Rattle.toll_protocol.specs.Frames.{IsFrameOf, frame};
ghost use Rattle.toll_protocol.specs.declared.frames.encode_fault.EncodeFault.{EncodeFault};

use crate::frames::encode_fault::EncodeFault;
use crate::frames::encoding::{content_of, encode};
use std::alloc::{AllocError, Global};

/// How many bytes a handshake may have.
pub const MOST_HANDSHAKE_BYTES: u32 = 64;

/// The text before the version.
const NAME: &[u8] = b"toll ";

/// The handshake of a server of this build, as a frame. It is unfit if it is longer than a handshake may be.
pub fn handshake(alloc: Global, version: &str) -> Result<Vec<u8>, EncodeFault>
    ensures whole { IfOk result (λ bytes. bytes.items ≡ frame (handshake_text version.now)) }
    ensures unfit { (result ≡ Err EncodeFault.Unfit) → (MOST_HANDSHAKE_BYTES < length (handshake_text version.now)) }
{
    let content = handshake_content(alloc, version)?;
    encode(alloc, &content, MOST_HANDSHAKE_BYTES)
}

fn handshake_content(alloc: Global, version: &str) -> Result<Vec<u8>, AllocError>
    ensures { IfOk result (λ bytes. bytes.items ≡ handshake_text version.now) }
{
    let mut content = Vec::from_slice(alloc, NAME)?;
    content.extend_from_slice(version.as_bytes())?;
    Ok(content)
}

/// Whether a frame is the handshake of a server of this build.
pub fn is_handshake(text: &[u8], version: &str) -> bool
    ensures { IsTrue result ↔ IsFrameOf MOST_HANDSHAKE_BYTES text.now (handshake_text version.now) }
{
    match content_of(text, MOST_HANDSHAKE_BYTES) {
        Some(content) => content.strip_prefix(NAME) == Some(version.as_bytes()),
        None => false,
    }
}
