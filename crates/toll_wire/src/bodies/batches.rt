//! The body of a batch.
ghost use Rattle.std.specs.Prelude.{◌≡◌, IfOk, refl, string_bytes};
ghost use Rattle.serde_json.specs.Written.{compact_text};
ghost use Rattle.toll_wire.specs.Exact.{batch_exact};
ghost use Rattle.toll_wire.specs.ReplyBodies.{batch_data, requirement_data};

use crate::bodies::json_text::text_of;
use crate::bodies::json_value::{JsonValue, send_member};
use serde::Serializer;
use std::alloc::{AllocError, Global};
use toll_work::{BatchView, RequirementLine, StateWord};

/// A batch, with its requirements in the order of the view. It fails only if memory runs out.
pub fn batch_body(alloc: Global, view: &BatchView) -> Result<String, AllocError>
    ensures { IfOk result (λ body. string_bytes body ≡ compact_text (batch_data view.now.row view.now.lines.items)) }
{
    text_of(alloc, view)
}

impl JsonValue for BatchView {
    ghost as_data = { λ view. batch_data view.row view.lines.items };

    ghost exact = { λ view. batch_exact view.row view.lines.items };

    fn send<S: Serializer>(&self, out: &mut S) -> Result<(), S::Error> {
        out.begin_map(Some(6))?;
        send_member("batch", &self.row.number, out)?;
        send_member("closed", &self.row.closed, out)?;
        send_member("order", &self.row.order, out)?;
        send_member("requirements", &self.lines, out)?;
        send_member("state", &self.row.state, out)?;
        send_member("unit", &self.row.unit, out)?;
        out.end_map()
    }
}

impl JsonValue for RequirementLine {
    ghost as_data = { requirement_data };

    ghost exact = { λ _. refl };

    fn send<S: Serializer>(&self, out: &mut S) -> Result<(), S::Error> {
        out.begin_map(Some(6))?;
        send_member("actual", &self.actual, out)?;
        send_member("material", &self.row.material, out)?;
        send_member("owner", &self.row.source, out)?;
        send_member("required", &self.row.amount, out)?;
        send_member("segment", &self.row.segment, out)?;
        send_member("use", &self.row.role, out)?;
        out.end_map()
    }
}
