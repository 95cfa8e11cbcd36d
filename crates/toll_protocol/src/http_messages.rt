//! HTTP/1.1 as the office speaks it (RFC 9112): bytes to a request, from a stream too, and a reply to bytes.

mod failure;
mod field;
mod head;
mod http_request;
mod laws;
mod messages;
mod reading;
mod request_reader;
mod settled;
mod verb;

pub use failure::Failure;
pub use head::{FIELD_LIMIT, HEAD_LIMIT};
pub use http_request::{BODY_LIMIT, HttpRequest, parse_http};
pub use laws::{a_text_comes_to_one_thing, limits_are_those_defined};
pub use messages::message;
pub use reading::{ReadFault, read_request};
pub use request_reader::RequestReader;
pub use settled::REQUEST_TEXT_LIMIT;
pub use verb::Verb;
