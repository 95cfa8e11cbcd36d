//! The body of a lot.
ghost use Rattle.std.specs.Prelude.{◌≡◌, IfOk, refl, string_bytes};
ghost use Rattle.serde_json.specs.Written.{compact_text};
ghost use Rattle.toll_wire.specs.Exact.{lot_exact, result_exact};
ghost use Rattle.toll_wire.specs.ReplyBodies as spec;
ghost use Rattle.toll_wire.specs.ReplyBodies.{lot_data, lot_from, result_data, sublot_data};

use crate::bodies::json_text::text_of;
use crate::bodies::json_value::{JsonValue, send_member};
use crate::bodies::values::name_text;
use serde::Serializer;
use std::alloc::{AllocError, Global};
use toll_answers::LotView;
use toll_base::{Origin, ResultRow, SublotRow};

/// A lot, with its results and its sublots in the order of the view. It fails only if memory runs out.
pub fn lot_body(alloc: Global, view: &LotView) -> Result<String, AllocError>
    ensures { IfOk result (λ body. string_bytes body ≡ compact_text (lot_data view.now.row view.now.measure view.now.results.items view.now.sublots.items)) }
{
    let origin = origin_word(alloc, &view.row.origin)?;
    text_of(
        alloc,
        &LotBody {
            view,
            origin: origin.as_str(),
        },
    )
}

fn origin_word(alloc: Global, origin: &Origin) -> Result<String, AllocError>
    ensures { IfOk result (λ word. string_bytes word ≡ spec.origin_word origin.now) }
{
    match origin {
        Origin::Receipts => format!(in alloc; "receipts"),
        Origin::Batch { order, number } => {
            let order = name_text(order);
            let number = number.get();
            format!(in alloc; "{order}/{number}")
        }
    }
}

/// A lot, with the word of its source.
#[derive(Drop)]
struct LotBody<'a> {
    view: &'a LotView,
    origin: &'a str,
}

impl JsonValue for LotBody<'_> {
    ghost as_data = { λ value. lot_from value.origin.now value.view.now.row value.view.now.measure value.view.now.results.items value.view.now.sublots.items };

    ghost exact = { λ value. lot_exact value.origin.now value.view.now.row value.view.now.measure value.view.now.results.items value.view.now.sublots.items };

    fn send<S: Serializer>(&self, out: &mut S) -> Result<(), S::Error> {
        out.begin_map(Some(7))?;
        send_member("disposition", &self.view.row.disposition, out)?;
        send_member("lot", &self.view.row.lot, out)?;
        send_member("material", &self.view.row.material, out)?;
        send_member("measure", &self.view.measure, out)?;
        send_member("origin", &self.origin, out)?;
        send_member("results", &self.view.results, out)?;
        send_member("sublots", &self.view.sublots, out)?;
        out.end_map()
    }
}

impl JsonValue for ResultRow {
    ghost as_data = { result_data };

    ghost exact = { result_exact };

    fn send<S: Serializer>(&self, out: &mut S) -> Result<(), S::Error> {
        out.begin_map(Some(3))?;
        send_member("day", &self.day, out)?;
        send_member("test", &self.test, out)?;
        send_member("value", &self.value, out)?;
        out.end_map()
    }
}

impl JsonValue for SublotRow {
    ghost as_data = { sublot_data };

    ghost exact = { λ _. refl };

    fn send<S: Serializer>(&self, out: &mut S) -> Result<(), S::Error> {
        out.begin_map(Some(2))?;
        send_member("amount", &self.amount, out)?;
        send_member("sublot", &self.sublot, out)?;
        out.end_map()
    }
}
