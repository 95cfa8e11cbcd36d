//! The checks of a request that look at its bytes alone, in their order.
ghost use Rattle.std.specs.Prelude.{◌≡◌, map};
ghost use Rattle.httparse.specs.Grammar.{RequestHead};
ghost use Rattle.httparse.specs.Spans.{IsRequestAt, IsRequestWithin, name_and_value};
ghost use Rattle.toll_protocol.specs.Filled.{IsHeadAt};
ghost use Rattle.toll_protocol.specs.Parsed.{parse_outcome};
ghost use Rattle.toll_protocol.specs.Parsing.{IsParsedAs, checked, host_fails};
ghost use Rattle.toll_protocol.specs.Found.{seen_match};

use crate::http_messages::failure::Failure;
use crate::http_messages::field::FieldMatch;
use crate::http_messages::head::{Head, head_of};
use crate::http_messages::verb::Verb;

/// How many bytes a body may have.
pub const BODY_LIMIT: u64 = 4096;

/// A request whose head and body were read. The owner and the key that it claims are those of the
/// only field of each name.
#[derive(Clone, Copy)]
pub struct HttpRequest<'b> {
    pub verb: Verb,
    pub target: &'b [u8],
    pub owner: Option<&'b [u8]>,
    pub key: Option<&'b [u8]>,
    pub body: &'b [u8],
}

/// The request that a text is, or the first check that it fails.
pub fn parse_http(text: &[u8]) -> Result<HttpRequest<'_>, Failure>
    ensures { IsParsedAs text.now (parse_outcome result) }
{
    match head_of(text) {
        Some(head) => parse_with_head(text, &head),
        None => Err(Failure::BadRequest),
    }
}

/// The same for a text whose head was read.
pub fn parse_with_head<'b>(text: &'b [u8], head: &Head) -> Result<HttpRequest<'b>, Failure>
    requires { IsHeadAt text.now head.now }
    ensures { IsParsedAs text.now (parse_outcome result) }
{
    let (front, rest) = text.split_at(head.line.len);
    check(front, rest, head)
}

// The checks of a head that was read, and of what follows it.
fn check<'b>(front: &'b [u8], rest: &'b [u8], head: &Head) -> Result<HttpRequest<'b>, Failure>
    requires { IsRequestWithin front.now head.now.fields head.now.line }
    ensures { (h : RequestHead) → IsRequestAt front.now head.now.fields head.now.line h
        → parse_outcome result ≡ checked h (map name_and_value h.fields) rest.now }
{
    if host_fails(head.line.version, head.field(front, b"host")) {
        return Err(Failure::BadRequest);
    }
    if head.field(front, b"transfer-encoding").is_present() {
        return Err(Failure::NotImplemented);
    }
    let Some(len) = head.field(front, b"content-length").length_claimed() else {
        return Err(Failure::BadRequest);
    };
    if len > BODY_LIMIT {
        return Err(Failure::TooLarge);
    }
    let len = len as usize;
    if rest.len() < len {
        return Err(Failure::BadRequest);
    }
    let Some(verb) = Verb::of(head.line.method.of(front)) else {
        return Err(Failure::NotImplemented);
    };
    Ok(HttpRequest {
        verb,
        target: head.line.path.of(front),
        owner: head.field(front, b"toll-owner").only_one(),
        key: head.field(front, b"toll-key").only_one(),
        body: &rest[..len],
    })
}

// Whether there is more than one host, or none in HTTP/1.1 (RFC 9112, section 3.2).
fn host_fails(minor: u8, host: FieldMatch<'_>) -> bool
    ensures { result ≡ host_fails minor (seen_match host.entry) }
{
    match host {
        FieldMatch::Absent => minor == 1,
        FieldMatch::Once(_) => false,
        FieldMatch::Several => true,
    }
}
