//! Frames: bytes after their length, so that a reader knows when all have come; and the messages that the
//! plant and the server of a file exchange in them.

mod call;
mod encode_fault;
mod encoding;
mod frame;
mod handshakes;
mod laws;
mod response;
mod words;

pub use call::{Call, MOST_CALL_BYTES};
pub use encode_fault::EncodeFault;
pub use encoding::{content_of, encode, is_enough};
pub use frame::Frame;
pub use handshakes::{MOST_HANDSHAKE_BYTES, handshake, is_handshake};
pub use laws::{a_call_is_read_back, a_frame_is_read_back, a_response_is_read_back};
pub use response::{MOST_RESPONSE_BYTES, Response};
