//! The texts of replies (RFC 9112, section 6; RFC 9110, section 15).
ghost use Rattle.std.specs.Prelude.{◌≡◌, IfOk, string_bytes};
ghost use Rattle.toll_protocol.specs.HttpMessages.{allow_line, content_type, reply_text};

use crate::http_messages::verb::Verb;
use http::StatusCode;
use std::alloc::{AllocError, Global};

/// A whole reply: the status, the method that is allowed in place of the request's, and the body, which is
/// JSON if it is not empty.
pub fn message(
    alloc: Global,
    status: StatusCode,
    allowed: Option<Verb>,
    body: &str,
) -> Result<String, AllocError>
    ensures { IfOk result (λ text. string_bytes text ≡ reply_text status allowed body.now) }
{
    let kind = content_type(body);
    let len = body.len();
    let allow = allow_line(allowed);
    format!(in alloc;
        "HTTP/1.1 {status}\r\n{kind}content-length: {len}\r\n{allow}connection: close\r\n\r\n{body}"
    )
}

fn content_type(body: &str) -> &'static str
    ensures { result.now ≡ content_type body.now }
{
    if body.is_empty() {
        ""
    } else {
        "content-type: application/json\r\n"
    }
}

fn allow_line(allowed: Option<Verb>) -> &'static str
    ensures { result.now ≡ allow_line allowed }
{
    match allowed {
        None => "",
        Some(Verb::Get) => "allow: GET\r\n",
        Some(Verb::Post) => "allow: POST\r\n",
    }
}
