//! The texts of replies (RFC 9112, section 6; RFC 9110, section 15).
ghost use Rattle.std.specs.Prelude.{◌≡◌, IfOk, Some, None, string_bytes};
ghost use Rattle.toll_base.specs.Bytes.{Bytes};
ghost use Rattle.toll_protocol.specs.Failures.{word_of_failure};
ghost use Rattle.toll_protocol.specs.HttpMessages.{reply_text};
ghost use Rattle.toll_wire.specs.OutTexts.{IsText};
ghost use Rattle.toll_wire.specs.ReplyTexts.{failure_body, refusal_status, text_of_failure, text_of_reply};

use crate::bodies::{
    batch_body, error_body, lot_body, order_body, orders_body, refusal_body, stock_body, trace_body,
};
use crate::outgoing::Out;
use http::StatusCode;
use std::alloc::{AllocError, Global};
use toll_base::Refusal;
use toll_desk::Reply;
use toll_protocol::{Failure, Verb, message};

/// The bytes that are sent back for a reply of the desk. A fault has no text.
pub fn reply_out(alloc: Global, reply: &Reply) -> Out
    ensures { IsText result (text_of_reply reply.now) }
{
    match reply {
        Reply::Forbidden => fail(alloc, Failure::Forbidden),
        Reply::Orders(rows) => grant(alloc, orders_body(alloc, rows)),
        Reply::Order(row) => grant(alloc, order_body(alloc, row)),
        Reply::Batch(view) => grant(alloc, batch_body(alloc, view)),
        Reply::Stock(lines) => grant(alloc, stock_body(alloc, lines)),
        Reply::Lot(view) => grant(alloc, lot_body(alloc, view)),
        Reply::Trace(steps) => grant(alloc, trace_body(alloc, steps)),
        Reply::Refused(refusal) => {
            let body = refusal_body(alloc, refusal);
            send(alloc, refusal_status(refusal), None, body)
        }
        Reply::Fault(_) => Out::Unavailable,
    }
}

// A reply with the body that was requested, if there was memory for it.
fn grant(alloc: Global, body: Result<String, AllocError>) -> Out
    ensures { (bytes : Bytes) → IfOk body (λ body. string_bytes body ≡ bytes) → IsText result (Some (reply_text 200 None bytes)) }
{
    send(alloc, StatusCode::OK, None, body)
}

/// The bytes that are sent back if a check fails.
pub fn fail(alloc: Global, failure: Failure) -> Out
    ensures { IsText result (Some (text_of_failure failure)) }
{
    let body = failure_body(alloc, failure);
    send(alloc, failure.status(), failure.allowed(), body)
}

fn failure_body(alloc: Global, failure: Failure) -> Result<String, AllocError>
    ensures { IfOk result (λ body. string_bytes body ≡ failure_body (word_of_failure failure)) }
{
    match failure.word() {
        Some(word) => error_body(alloc, word),
        None => Ok(String::new(alloc)),
    }
}

// A reply with this body, if there was memory for it.
fn send(
    alloc: Global,
    status: StatusCode,
    allowed: Option<Verb>,
    body: Result<String, AllocError>,
) -> Out
    ensures { (bytes : Bytes) → IfOk body (λ body. string_bytes body ≡ bytes) → IsText result (Some (reply_text status allowed bytes)) }
{
    let Ok(body) = body else {
        return Out::Unavailable;
    };
    match message(alloc, status, allowed, body.as_str()) {
        Ok(text) => Out::Text(text.into_bytes()),
        Err(_) => Out::Unavailable,
    }
}

fn refusal_status(refusal: &Refusal) -> StatusCode
    ensures { result ≡ refusal_status refusal.now }
{
    match refusal {
        Refusal::UnknownOrder | Refusal::UnknownBatch | Refusal::UnknownLot => {
            StatusCode::NOT_FOUND
        }
        _ => StatusCode::CONFLICT,
    }
}
