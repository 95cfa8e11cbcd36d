//! Reading a request bit by bit, as it comes.
ghost use Rattle.std.specs.Prelude.{◌≡◌, ◌≢◌, ◌≤◌, ◌⊎◌, ℕ, List, [], length, take, drop, IfOk};
ghost use Rattle.std.specs.Io.KnownBytes.{Consumes, IsAtEnd};
ghost use Rattle.toll_protocol.specs.Parsed.{parse_outcome};
ghost use Rattle.toll_protocol.specs.Parsing.{IsParsedAs, IsSettled, ReadsUntilSettled};
ghost use Rattle.toll_protocol.specs.Filled.{IsFilled};
ghost use Rattle.toll_protocol.specs.Streams.{AppendsRead, HasFailed, NoneBlocked, NoneFailed, OneBlocked};

use crate::http_messages::failure::Failure;
use crate::http_messages::http_request::{HttpRequest, parse_http, parse_with_head};
use crate::http_messages::settled::{HeadSearch, REQUEST_TEXT_LIMIT};
use crate::streams::{ReadStatus, Source, read_behind};
use std::alloc::{AllocError, Global};
use std::marker::Model;

/// The bytes received of a request.
#[derive(Drop)]
pub struct RequestReader {
    text: Vec<u8>,
    filled: usize,
    search: HeadSearch,
}

/// Its bytes.
impl Model for RequestReader {
    ghost use Rattle.std.specs.Prelude.{ℕ, List, take};
    ghost use Rattle.toll_protocol.specs.Filled.{IsFilled};

    ghost Value = { List ℕ };

    ghost view = { λ r. take r.filled r.text.items };

    ghost invariant = { λ r. IsFilled r.text.items r.filled r.search };
}

impl RequestReader {
    /// No byte was received yet.
    pub fn new(alloc: Global) -> Result<Self, AllocError>
        ensures { IfOk result (λ request. request ≡ []) }
    {
        Ok(RequestReader {
            text: vec![in alloc; 0u8; REQUEST_TEXT_LIMIT]?,
            filled: 0,
            search: HeadSearch::Searched(0),
        })
    }

    /// The bytes that have come.
    pub fn bytes(&self) -> &[u8]
        ensures value { result.now ≡ self.now }
        ensures bound { length self.now ≤ REQUEST_TEXT_LIMIT }
    {
        &self.text[..self.filled]
    }

    /// The bytes that have come; no more will.
    pub fn into_bytes(mut self) -> Vec<u8>
        ensures value { result.items ≡ self }
        ensures bound { length self ≤ REQUEST_TEXT_LIMIT }
    {
        self.text.truncate(self.filled);
        self.text
    }

    /// The request that these bytes are, or the first check that they fail. A head that has come isn't read again.
    pub fn parsed(&self) -> Result<HttpRequest<'_>, Failure>
        ensures value { IsParsedAs self.now (parse_outcome result) }
        ensures bound { length self.now ≤ REQUEST_TEXT_LIMIT }
    {
        match &self.search {
            HeadSearch::Read(head) => parse_with_head(&self.text[..self.filled], head),
            HeadSearch::Searched(_) => parse_http(&self.text[..self.filled]),
        }
    }

    /// Reads on until the head and all of the body that the head claims have come, or 8,192 bytes without the
    /// end of a head, or the stream ends, and no further. It also stops if a read fails, as one does that
    /// would wait.
    pub fn read_on<R: Source>(&mut self, reader: &mut R) -> ReadStatus
        ensures given { AppendsRead (R.unread reader.old) (R.unread reader.new) self.old self.new }
        ensures complete { result ≡ ReadStatus.Complete → IsSettled self.new ⊎ IsAtEnd (R.unread reader.new) }
        ensures early { result ≢ ReadStatus.Complete → ¬ (IsSettled self.new) }
        ensures failed { result ≢ ReadStatus.Complete → HasFailed (R.has_failed reader.old) (R.has_failed reader.new) }
        ensures sound { result ≡ ReadStatus.Complete → NoneFailed (R.has_failed reader.old) (R.has_failed reader.new) }
        ensures blocks { result ≡ ReadStatus.Waiting → OneBlocked (R.blocked reader.old) (R.blocked reader.new) }
        ensures goes_on { result ≢ ReadStatus.Waiting → NoneBlocked (R.blocked reader.old) (R.blocked reader.new) }
        ensures no_further { ReadsUntilSettled self.old (R.reads reader.old) (R.reads reader.new) }
        ensures write_side { R.write_side reader.new ≡ R.write_side reader.old }
    {
        let filled = fill_on(
            reader,
            self.text.as_mut_slice(),
            self.filled,
            &mut self.search,
        );
        self.filled = filled.filled;
        filled.status
    }
}

// How many bytes were filled.
#[derive(Clone, Copy)]
struct Filled {
    status: ReadStatus,
    filled: usize,
}

// Reads on after the first bytes, which came before, until the text is settled, the stream ends, or a read
// fails.
fn fill_on<R: Source>(
    reader: &mut R,
    text: &mut [u8],
    begun: usize,
    search: &mut HeadSearch,
) -> Filled
    requires { IsFilled text.old begun search.old }
    ensures filled { IsFilled text.new result.filled search.new }
    ensures more { begun ≤ result.filled }
    ensures front { take begun text.new ≡ take begun text.old }
    ensures given { Consumes (R.unread reader.old) (R.unread reader.new) (drop begun (take result.filled text.new)) }
    ensures complete { result.status ≡ ReadStatus.Complete → IsSettled (take result.filled text.new) ⊎ IsAtEnd (R.unread reader.new) }
    ensures early { result.status ≢ ReadStatus.Complete → ¬ (IsSettled (take result.filled text.new)) }
    ensures failed { result.status ≢ ReadStatus.Complete → HasFailed (R.has_failed reader.old) (R.has_failed reader.new) }
    ensures sound { result.status ≡ ReadStatus.Complete → NoneFailed (R.has_failed reader.old) (R.has_failed reader.new) }
    ensures blocks { result.status ≡ ReadStatus.Waiting → OneBlocked (R.blocked reader.old) (R.blocked reader.new) }
    ensures goes_on { result.status ≢ ReadStatus.Waiting → NoneBlocked (R.blocked reader.old) (R.blocked reader.new) }
    ensures no_further { ReadsUntilSettled (take begun text.old) (R.reads reader.old) (R.reads reader.new) }
    ensures write_side { R.write_side reader.new ≡ R.write_side reader.old }
{
    let mut filled = begun;
    while !search.search_on(&text[..filled]) {
        match read_behind(reader, text, filled) {
            Ok(0) => break,
            Ok(n) => filled += n,
            Err(fault) => {
                return Filled {
                    status: ReadStatus::after(fault.kind()),
                    filled,
                };
            }
        }
    }
    Filled {
        status: ReadStatus::Complete,
        filled,
    }
}
