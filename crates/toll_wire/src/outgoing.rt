//! The bytes that are sent back.

use toll_keep::KeepFault;

/// The bytes that are sent back to a request.
#[derive(Drop)]
pub enum Out {
    /// The text of a reply.
    Text(Vec<u8>),
    /// There was no memory, or the keep failed.
    Unavailable,
}

// It takes no memory.
const UNAVAILABLE: &str =
    "HTTP/1.1 503 Service Unavailable\r\ncontent-type: application/json\r\ncontent-length: 23\r\nconnection: close\r\n\r\n{\"error\":\"Unavailable\"}";

impl Out {
    ghost use Rattle.std.specs.Prelude.{◌≡◌, IfErr};
    ghost use Rattle.toll_wire.specs.OutTexts.{out_bytes, out_of};

    /// The bytes of the reply.
    pub fn bytes(&self) -> &[u8]
        ensures { result.now ≡ out_bytes self.now }
    {
        match self {
            Out::Text(text) => text.as_slice(),
            Out::Unavailable => UNAVAILABLE.as_bytes(),
        }
    }

    /// The reply to a request that was answered with this text, or met this fault.
    pub(crate) fn of(answered: Result<Vec<u8>, KeepFault>) -> Self
        ensures { result ≡ out_of answered }
    {
        match answered {
            Ok(text) => Out::Text(text),
            Err(_) => Out::Unavailable,
        }
    }

    /// The text, or that there was no memory for it.
    pub(crate) fn into_text(self) -> Result<Vec<u8>, KeepFault>
        ensures text { out_of result ≡ self }
        ensures memory { IfErr result (λ fault. fault ≡ KeepFault.Memory) }
    {
        match self {
            Out::Text(text) => Ok(text),
            Out::Unavailable => Err(KeepFault::Memory),
        }
    }
}
