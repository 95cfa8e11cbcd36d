//! From a value to its JSON text.
ghost use Rattle.std.specs.Prelude.{◌≡◌, IfOk, string_bytes};
ghost use Rattle.serde_json.specs.Events.{SendsValue};
ghost use Rattle.serde_json.specs.Written.{compact_text};

use crate::bodies::json_value::JsonValue;
use serde::{Described, Serialize, Serializer};
use std::alloc::{AllocError, Global};

/// A value to be written, as a value of serde's.
#[derive(Drop)]
struct JsonText<'a, T>(&'a T);

impl<T: JsonValue> Described for JsonText<'_, T> {
    ghost writes = { λ sent. SendsValue (T.as_data sent.0.now) };
}

impl<T: JsonValue> Serialize for JsonText<'_, T> {
    fn serialize<S: Serializer>(&self, out: &mut S) -> Result<(), S::Error> {
        self.0.send(out)
    }
}

/// The text of a value, with no space.
pub(crate) fn text_of<T: JsonValue>(alloc: Global, value: &T) -> Result<String, AllocError>
    ensures { IfOk result (λ text. string_bytes text ≡ compact_text (T.as_data value.now)) }
{
    match serde_json::to_string(alloc, &JsonText(value)) {
        Ok(text) => Ok(text),
        Err(_) => Err(AllocError),
    }
}
