//! Lists under a name: orders, stock, and the lots of a trace.
ghost use Rattle.std.specs.Prelude.{◌≡◌, IfOk, refl, string_bytes};
ghost use Rattle.serde_json.specs.Written.{compact_text};
ghost use Rattle.toll_wire.specs.Exact.{listed_exact};
ghost use Rattle.toll_wire.specs.ReplyBodies.{
  named_list_data,
  orders_data,
  step_data,
  stock_data,
  stock_line_data,
  trace_data,
};

use crate::bodies::json_text::text_of;
use crate::bodies::json_value::{JsonValue, send_member};
use serde::Serializer;
use std::alloc::{AllocError, Global};
use toll_answers::StockLine;
use toll_base::OrderRow;
use toll_trace::Step;

/// The orders of an owner. It fails only if memory runs out.
pub fn orders_body(alloc: Global, rows: &[OrderRow]) -> Result<String, AllocError>
    ensures { IfOk result (λ body. string_bytes body ≡ compact_text (orders_data rows.now)) }
{
    list_text(alloc, "orders", rows)
}

/// What is in stock. It fails only if memory runs out.
pub fn stock_body(alloc: Global, lines: &[StockLine]) -> Result<String, AllocError>
    ensures { IfOk result (λ body. string_bytes body ≡ compact_text (stock_data lines.now)) }
{
    list_text(alloc, "lots", lines)
}

/// The lots of a trace, in the order of its steps. It fails only if memory runs out.
pub fn trace_body(alloc: Global, steps: &[Step]) -> Result<String, AllocError>
    ensures { IfOk result (λ body. string_bytes body ≡ compact_text (trace_data steps.now)) }
{
    list_text(alloc, "lots", steps)
}

// The text of an object of one member: all these rows under this name.
fn list_text<R: JsonValue>(alloc: Global, name: &str, rows: &[R]) -> Result<String, AllocError>
    ensures { IfOk result (λ text. string_bytes text ≡ compact_text (named_list_data name.now R.as_data rows.now)) }
{
    text_of(alloc, &Listed { name, rows })
}

/// Rows under a name.
#[derive(Drop)]
struct Listed<'a, R> {
    name: &'a str,
    rows: &'a [R],
}

impl<R: JsonValue> JsonValue for Listed<'_, R> {
    ghost as_data = { λ value. named_list_data value.name.now R.as_data value.rows.now };

    ghost exact = { λ value. listed_exact value.name.now R.as_data R.exact value.rows.now };

    fn send<S: Serializer>(&self, out: &mut S) -> Result<(), S::Error> {
        out.begin_map(Some(1))?;
        send_member(self.name, &self.rows, out)?;
        out.end_map()
    }
}

impl JsonValue for StockLine {
    ghost as_data = { stock_line_data };

    ghost exact = { λ _. refl };

    fn send<S: Serializer>(&self, out: &mut S) -> Result<(), S::Error> {
        out.begin_map(Some(5))?;
        send_member("amount", &self.amount, out)?;
        send_member("disposition", &self.row.disposition, out)?;
        send_member("lot", &self.row.lot, out)?;
        send_member("material", &self.row.material, out)?;
        send_member("measure", &self.measure, out)?;
        out.end_map()
    }
}

impl JsonValue for Step {
    ghost as_data = { step_data };

    ghost exact = { λ _. refl };

    fn send<S: Serializer>(&self, out: &mut S) -> Result<(), S::Error> {
        out.begin_map(Some(3))?;
        send_member("lot", &self.lot.lot, out)?;
        send_member("owner", &self.lot.owner, out)?;
        send_member("steps", &self.steps, out)?;
        out.end_map()
    }
}
