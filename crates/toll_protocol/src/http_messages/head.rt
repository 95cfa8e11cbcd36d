//! The head of a request: its end, and its content.
ghost use Rattle.std.specs.Prelude.{◌≡◌, ◌≤◌, ℕ, take, map, IfSome, IfNone, MatchOption};
ghost use Rattle.httparse.specs.Grammar.{RequestHead};
ghost use Rattle.httparse.specs.Spans.{IsRequestWithin, header_bytes};
ghost use Rattle.toll_protocol.specs.Fields.{fields_named};
ghost use Rattle.toll_protocol.specs.Filled.{IsHeadAt};
ghost use Rattle.toll_protocol.specs.Found.{seen_match};
ghost use Rattle.toll_protocol.specs.Head.{IsHeadLen, IsHeadOf, IsSearched, NoHead};

use crate::http_messages::field::{FieldMatch, find_field};
use httparse::Status;
use httparse::spans::{EMPTY_HEADER_SPAN, HeaderSpan, RequestSpans, parse_request};

/// How many bytes a head may have.
pub const HEAD_LIMIT: usize = 8192;

/// How many fields a head may have.
pub const FIELD_LIMIT: usize = 32;

/// A head that was read, by the places of its parts in the text.
#[derive(Clone, Copy)]
pub struct Head {
    pub line: RequestSpans,
    pub fields: [HeaderSpan; FIELD_LIMIT],
}

impl Head {
    /// The value of the fields with this name, in the text that the head was read from.
    pub fn field<'b>(&self, text: &'b [u8], name: &[u8]) -> FieldMatch<'b>
        requires { IsRequestWithin text.now self.now.fields self.now.line }
        ensures { seen_match result ≡ fields_named name.now (map (header_bytes text.now) (take self.now.line.headers self.now.fields)) }
    {
        find_field(text, &self.fields[..self.line.headers], name)
    }
}

/// The length of the shortest front that ends with an empty line, within the limit. No front that is
/// shorter than `searched` ends so.
pub fn head_len(text: &[u8], searched: usize) -> Option<usize>
    requires { IsSearched text.now searched }
    ensures { MatchOption result (NoHead text.now) (λ n. IsHeadLen text.now n × (n ≤ HEAD_LIMIT)) }
{
    let most = text.len().min(HEAD_LIMIT);
    for n in searched..most + 1 {
        if text[..n].ends_with(b"\r\n\r\n") {
            return Some(n);
        }
    }
    None
}

/// The head of a request, which is all of the shortest front that ends with an empty line (RFC 9112, sections
/// 2.1, 3 and 5); `None` if there is no head, or one that can't be read.
pub fn head_of(text: &[u8]) -> Option<Head>
    ensures head { IfSome result (IsHeadAt text.now) }
    ensures none { IfNone result ((n : ℕ) (h : RequestHead) → IsHeadOf text.now n h → ⊥) }
{
    match head_len(text, 0) {
        Some(len) => head_at(text, len),
        None => None,
    }
}

/// The head that is the first `len` bytes, if it can be read.
pub fn head_at(text: &[u8], len: usize) -> Option<Head>
    requires shortest { IsHeadLen text.now len }
    requires short { len ≤ HEAD_LIMIT }
    ensures head { IfSome result (IsHeadAt text.now) }
    ensures none { IfNone result ((h : RequestHead) → IsHeadOf text.now len h → ⊥) }
{
    let mut fields = [EMPTY_HEADER_SPAN; FIELD_LIMIT];
    match parse_request(&text[..len], &mut fields) {
        Ok(Status::Complete(line)) if line.len == len => Some(Head { line, fields }),
        _ => None,
    }
}
