//! The bodies of replies that refuse a request.
ghost use Rattle.std.specs.Prelude.{◌≡◌, IfOk, refl, string_bytes};
ghost use Rattle.serde_json.specs.Written.{compact_text};
ghost use Rattle.toll_wire.specs.ReplyBodies.{error_data, refusal_data};

use crate::bodies::json_text::text_of;
use crate::bodies::json_value::{JsonValue, send_member};
use serde::Serializer;
use std::alloc::{AllocError, Global};
use toll_base::Refusal;

/// Why a command is refused. It fails only if memory runs out.
pub fn refusal_body(alloc: Global, refusal: &Refusal) -> Result<String, AllocError>
    ensures { IfOk result (λ body. string_bytes body ≡ compact_text (refusal_data refusal.now)) }
{
    text_of(alloc, refusal)
}

/// Why a request is answered without a command. It fails only if memory runs out.
pub fn error_body(alloc: Global, word: &str) -> Result<String, AllocError>
    ensures { IfOk result (λ body. string_bytes body ≡ compact_text (error_data word.now)) }
{
    text_of(alloc, &ErrorWord(word))
}

impl JsonValue for Refusal {
    ghost as_data = { refusal_data };

    ghost exact = { λ _. refl };

    fn send<S: Serializer>(&self, out: &mut S) -> Result<(), S::Error> {
        out.begin_map(Some(2))?;
        send_member("code", &self.code(), out)?;
        send_member("error", &self.title(), out)?;
        out.end_map()
    }
}

/// The word of an error.
#[derive(Drop)]
struct ErrorWord<'a>(&'a str);

impl JsonValue for ErrorWord<'_> {
    ghost as_data = { λ value. error_data value.0.now };

    ghost exact = { λ _. refl };

    fn send<S: Serializer>(&self, out: &mut S) -> Result<(), S::Error> {
        out.begin_map(Some(1))?;
        send_member("error", &self.0, out)?;
        out.end_map()
    }
}
