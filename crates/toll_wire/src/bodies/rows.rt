//! Rows of any kind.
ghost use Rattle.toll_wire.specs.Exact.{each_exact};
ghost use Rattle.toll_wire.specs.ReplyBodies.{list_data};

use crate::bodies::json_value::JsonValue;
use serde::Serializer;

impl<R: JsonValue> JsonValue for &[R] {
    ghost as_data = { λ rows. list_data R.as_data rows.now };

    ghost exact = { λ rows. each_exact R.as_data R.exact rows.now };

    fn send<S: Serializer>(&self, out: &mut S) -> Result<(), S::Error> {
        out.begin_seq(Some(self.len()))?;
        for row in *self {
            row.send(out)?;
        }
        out.end_seq()
    }
}

impl<R: JsonValue> JsonValue for Vec<R> {
    ghost as_data = { λ rows. list_data R.as_data rows.items };

    ghost exact = { λ rows. each_exact R.as_data R.exact rows.items };

    fn send<S: Serializer>(&self, out: &mut S) -> Result<(), S::Error> {
        self.as_slice().send(out)
    }
}
