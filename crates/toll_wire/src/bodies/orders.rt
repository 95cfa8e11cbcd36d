//! The body of an order.
ghost use Rattle.std.specs.Prelude.{◌≡◌, IfOk, refl, string_bytes};
ghost use Rattle.serde_json.specs.Written.{compact_text};
ghost use Rattle.toll_wire.specs.ReplyBodies.{order_data};

use crate::bodies::json_text::text_of;
use crate::bodies::json_value::{JsonValue, send_member};
use serde::Serializer;
use std::alloc::{AllocError, Global};
use toll_base::OrderRow;

/// An order. It fails only if memory runs out.
pub fn order_body(alloc: Global, row: &OrderRow) -> Result<String, AllocError>
    ensures { IfOk result (λ body. string_bytes body ≡ compact_text (order_data row.now)) }
{
    text_of(alloc, row)
}

impl JsonValue for OrderRow {
    ghost as_data = { order_data };

    ghost exact = { λ _. refl };

    fn send<S: Serializer>(&self, out: &mut S) -> Result<(), S::Error> {
        out.begin_map(Some(4))?;
        send_member("batches", &self.batches, out)?;
        send_member("order", &self.order, out)?;
        send_member("recipe", &self.recipe, out)?;
        send_member("status", &self.status(), out)?;
        out.end_map()
    }
}
