//! Laws of frames, and of the messages in them.
ghost use Rattle.std.specs.Prelude.{◌<◌, ◌≤◌, ◌^◌, ℕ, List, ◌++◌, Option, length};
ghost use Rattle.toll_base.specs.Bytes.{Bytes};
ghost use Rattle.toll_protocol.specs.PlantMessages.{IsCall, IsOnlyCall, IsOnlyResponse, IsResponse};
ghost use Rattle.toll_protocol.specs.Frames.{HasFrame, HasOnlyFrame, IsEnough, NoPartIsEnough, frame};

/// A frame is read back as it was encoded, whatever bytes follow it: the frame is enough, no shorter front of
/// it is enough, and no other content is read from it.
pub fn a_frame_is_read_back()
    ensures whole { (most : ℕ) (content rest : Bytes) → most < 2 ^ 32 → length content ≤ most → IsEnough most (frame content ++ rest) }
    ensures part { (most : ℕ) (content : Bytes) → most < 2 ^ 32 → length content ≤ most → NoPartIsEnough most (frame content) }
    ensures only { (most : ℕ) (text content rest : Bytes) → most < 2 ^ 32 → HasFrame most text content rest → HasOnlyFrame most text content rest }
{}

/// A call is read back as it was encoded: the same words, and the same file or none.
pub fn a_call_is_read_back()
    ensures { (text : Bytes) (words : List Bytes) (file : Option Bytes) → IsCall text words file → IsOnlyCall text words file }
{}

/// A response is read back as it was encoded.
pub fn a_response_is_read_back()
    ensures { (text : Bytes) (status : ℕ) (output error : Bytes) → IsResponse text status output error → IsOnlyResponse text status output error }
{}
