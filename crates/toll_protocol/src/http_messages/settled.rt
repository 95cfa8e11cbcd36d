//! When a front of a stream is enough.
ghost use Rattle.std.specs.Prelude.{◌↔◌, ◌≤◌, IsTrue, length};
ghost use Rattle.httparse.specs.Grammar.{RequestHead};
ghost use Rattle.httparse.specs.Spans.{IsRequestAt, IsRequestWithin};
ghost use Rattle.toll_protocol.specs.Filled.{IsHeadAt, IsSearch};
ghost use Rattle.toll_protocol.specs.Head.{IsHeadLen};
ghost use Rattle.toll_protocol.specs.Parsing.{HasBody, IsSettled};

use crate::http_messages::head::{HEAD_LIMIT, Head, head_at, head_len};
use crate::http_messages::http_request::BODY_LIMIT;

/// How many bytes of a request are read: a head and a body at their largest.
pub const REQUEST_TEXT_LIMIT: usize = HEAD_LIMIT + BODY_LIMIT as usize;

/// How far the search for the head of a text has come.
#[derive(Clone, Copy)]
pub enum HeadSearch {
    /// No front that is shorter than this ends the head.
    Searched(usize),
    /// The head was read.
    Read(Head),
}

impl HeadSearch {
    /// Whether more bytes can't change how the text is read: its head has ended and all of the body that it claims
    /// is there, or it has no head within the limit. The head is read once.
    pub fn search_on(&mut self, text: &[u8]) -> bool
        requires { IsSearch text.now self.old }
        ensures search { IsSearch text.now self.new }
        ensures settled { IsTrue result ↔ IsSettled text.now }
        ensures full { REQUEST_TEXT_LIMIT ≤ length text.now → IsTrue result }
    {
        match self {
            HeadSearch::Read(head) => is_whole(text, head),
            HeadSearch::Searched(searched) => match head_len(text, *searched) {
                Some(len) => self.read_head(text, len),
                None if text.len() >= HEAD_LIMIT => true,
                None => {
                    *searched = text.len() + 1;
                    false
                }
            },
        }
    }

    // Reads the head that is the first `len` bytes.
    fn read_head(&mut self, text: &[u8], len: usize) -> bool
        requires search { IsSearch text.now self.old }
        requires shortest { IsHeadLen text.now len }
        requires short { len ≤ HEAD_LIMIT }
        ensures search { IsSearch text.now self.new }
        ensures settled { IsTrue result ↔ IsSettled text.now }
        ensures full { REQUEST_TEXT_LIMIT ≤ length text.now → IsTrue result }
    {
        let Some(head) = head_at(text, len) else {
            return true;
        };
        *self = HeadSearch::Read(head);
        is_whole(text, &head)
    }
}

// Whether a text with this head has all of the body that the head claims.
fn is_whole(text: &[u8], head: &Head) -> bool
    requires { IsHeadAt text.now head.now }
    ensures settled { IsTrue result ↔ IsSettled text.now }
    ensures full { REQUEST_TEXT_LIMIT ≤ length text.now → IsTrue result }
{
    let (front, rest) = text.split_at(head.line.len);
    has_body(front, rest, head)
}

// Whether the body that the head claims is there, or is too large to be read.
fn has_body(front: &[u8], rest: &[u8], head: &Head) -> bool
    requires { IsRequestWithin front.now head.now.fields head.now.line }
    ensures there { (h : RequestHead) → IsRequestAt front.now head.now.fields head.now.line h → (IsTrue result ↔ HasBody h rest.now) }
    ensures full { BODY_LIMIT ≤ length rest.now → IsTrue result }
{
    match head.field(front, b"content-length").length_claimed() {
        Some(len) => len > BODY_LIMIT || rest.len() as u64 >= len,
        None => true,
    }
}
