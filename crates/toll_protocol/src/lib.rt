//! Bytes on streams: streams that may report what was read, what was written and what failed; HTTP/1.1 over
//! them; and the frames that the plant and a server exchange.
#![tactic(auto)]

mod frames;
mod http_messages;
mod streams;

pub use frames::{
    Call, EncodeFault, Frame, MOST_CALL_BYTES, MOST_HANDSHAKE_BYTES, MOST_RESPONSE_BYTES, Response,
    a_call_is_read_back, a_frame_is_read_back, a_response_is_read_back, content_of, encode,
    handshake, is_enough, is_handshake,
};
pub use http_messages::{
    BODY_LIMIT, FIELD_LIMIT, Failure, HEAD_LIMIT, HttpRequest, REQUEST_TEXT_LIMIT, ReadFault,
    RequestReader, Verb, a_text_comes_to_one_thing, limits_are_those_defined, message, parse_http,
    read_request,
};
pub use streams::{
    ReadStatus, ResponseWriter, Sink, Source, Stream, WriteFault, WriteStatus,
    a_plain_reader_reports_its_bytes, a_plain_writer_reports_its_bytes, read_behind, write_whole,
};
