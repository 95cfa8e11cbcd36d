//! Why a message was not encoded.
use std::alloc::AllocError;
use thiserror::Error;

/// Why a message can't be sent in a frame.
#[derive(Clone, Copy, Debug, PartialEq, Eq, Drop, Error)]
pub enum EncodeFault {
    /// It is longer than its reader takes, or a word has a zero byte in it.
    #[error("Unfit")]
    Unfit,
    /// There was no memory.
    #[error("Memory")]
    Memory,
}

impl From<AllocError> for EncodeFault {
    ghost use Rattle.std.specs.Prelude.{◌≡◌};
    ghost use Rattle.toll_protocol.specs.declared.frames.encode_fault.EncodeFault.TheVariants.{Memory};

    ghost from_gives = { λ _ fault. fault ≡ Memory };

    fn from(_: AllocError) -> Self {
        EncodeFault::Memory
    }
}
