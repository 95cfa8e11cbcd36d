//! Reading a frame bit by bit, as it comes.
ghost use Rattle.std.specs.Prelude.{◌≡◌, ◌≢◌, ◌⊎◌, []};
ghost use Rattle.std.specs.Io.KnownBytes.{IsAtEnd};
ghost use Rattle.toll_protocol.specs.declared.streams.read_status.ReadStatus.{ReadStatus};
ghost use Rattle.toll_protocol.specs.Streams.{AppendsRead, HasFailed, NoneBlocked, NoneFailed, OneBlocked};
ghost use Rattle.toll_protocol.specs.Frames.{IsEnough};

use crate::frames::encoding::is_enough;
use crate::streams::{ReadStatus, Source};
use std::alloc::Global;

/// How many bytes one read takes at most.
const PIECE_BYTES: usize = 4096;

/// The bytes received of a frame.
#[derive(Drop)]
pub struct Frame {
    pub bytes: Vec<u8>,
}

impl Frame {
    /// No byte was received yet.
    pub fn new(alloc: Global) -> Self
        ensures { result.bytes.items ≡ [] }
    {
        Frame {
            bytes: Vec::new(alloc),
        }
    }

    /// Reads on until enough has come of a frame whose content has at most `most` bytes, or the stream ends,
    /// and no further. It also stops if a read fails, as one does that would wait, or if there is no memory.
    /// Memory is taken as bytes come, and not as much as the first bytes claim.
    pub fn read_on<R: Source>(&mut self, reader: &mut R, most: u32) -> ReadStatus
        ensures given { AppendsRead (R.unread reader.old) (R.unread reader.new) self.old.bytes.items self.new.bytes.items }
        ensures complete { result ≡ ReadStatus.Complete → IsEnough most self.new.bytes.items ⊎ IsAtEnd (R.unread reader.new) }
        ensures early { result ≢ ReadStatus.Complete → ¬ (IsEnough most self.new.bytes.items) }
        ensures waits { result ≡ ReadStatus.Waiting → HasFailed (R.has_failed reader.old) (R.has_failed reader.new) }
        ensures sound { result ≡ ReadStatus.Complete → NoneFailed (R.has_failed reader.old) (R.has_failed reader.new) }
        ensures blocks { result ≡ ReadStatus.Waiting → OneBlocked (R.blocked reader.old) (R.blocked reader.new) }
        ensures goes_on { result ≢ ReadStatus.Waiting → NoneBlocked (R.blocked reader.old) (R.blocked reader.new) }
        ensures write_side { R.write_side reader.new ≡ R.write_side reader.old }
    {
        let mut piece = [0u8; PIECE_BYTES];
        while !is_enough(&self.bytes, most) {
            if self.bytes.try_reserve(PIECE_BYTES).is_err() {
                return ReadStatus::Failed;
            }
            match reader.read_some(&mut piece) {
                Ok(0) => return ReadStatus::Complete,
                Ok(n) => {
                    if self.bytes.extend_from_slice(&piece[..n]).is_err() {
                        return ReadStatus::Failed;
                    }
                }
                Err(fault) => return ReadStatus::after(fault.kind()),
            }
        }
        ReadStatus::Complete
    }
}
