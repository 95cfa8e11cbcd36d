//! The response of the server of a file to the plant.
ghost use Rattle.std.specs.Prelude.{◌≡◌, ◌<◌, ◌≤◌, ◌∷◌, ◌++◌, IfNone, IfOk, IfSome, Err, length};
ghost use Rattle.toll_protocol.specs.PlantMessages.{IsNoResponse, IsReadResponse, text_of_response};
ghost use Rattle.toll_protocol.specs.Frames.{frame};
ghost use Rattle.toll_protocol.specs.declared.frames.encode_fault.EncodeFault.{EncodeFault};

use crate::frames::encode_fault::EncodeFault;
use crate::frames::encoding::{content_of, encode, front_of};
use std::alloc::{AllocError, Global};

/// How many bytes a message to the plant may have: as many as a frame can.
pub const MOST_RESPONSE_BYTES: u32 = u32::MAX;

/// An exit status, and the texts for standard output and for standard error.
#[derive(Clone, Copy, Debug, PartialEq, Eq)]
pub struct Response<'a> {
    pub status: u8,
    pub output: &'a [u8],
    pub error: &'a [u8],
}

impl<'a> Response<'a> {
    /// The response as a frame. It is unfit if it is longer than a frame can be.
    pub fn encode(&self, alloc: Global) -> Result<Vec<u8>, EncodeFault>
        ensures whole { IfOk result (λ bytes. bytes.items ≡ frame (text_of_response self.now)) }
        ensures fit { IfOk result (λ _. length (text_of_response self.now) ≤ MOST_RESPONSE_BYTES) }
        ensures unfit { result ≡ Err EncodeFault.Unfit → MOST_RESPONSE_BYTES < length (text_of_response self.now) }
    {
        let output = encode(alloc, self.output, MOST_RESPONSE_BYTES)?;
        let content = self.content(alloc, &output)?;
        encode(alloc, &content, MOST_RESPONSE_BYTES)
    }

    // The status, the output as it was encoded, and the error.
    fn content(&self, alloc: Global, output: &[u8]) -> Result<Vec<u8>, AllocError>
        ensures { IfOk result (λ bytes. bytes.items ≡ self.now.status ∷ output.now ++ self.now.error.now) }
    {
        let mut content = Vec::new(alloc);
        content.push(self.status)?;
        content.extend_from_slice(output)?;
        content.extend_from_slice(self.error)?;
        Ok(content)
    }

    /// The response in a frame. `None` only if the text is not the frame of a response: one that is damaged
    /// or cut.
    pub fn read(text: &'a [u8]) -> Option<Response<'a>>
        ensures found { IfSome result (IsReadResponse text.now) }
        ensures none { IfNone result (IsNoResponse text.now) }
    {
        let Some(content) = content_of(text, MOST_RESPONSE_BYTES) else {
            return None;
        };
        let Some((status, texts)) = content.split_first() else {
            return None;
        };
        let Some((output, error)) = front_of(texts, MOST_RESPONSE_BYTES) else {
            return None;
        };
        Some(Response {
            status: *status,
            output,
            error,
        })
    }
}
