//! The values in bodies.
ghost use Rattle.std.specs.Prelude.{◌≡◌, false, OnOk};
ghost use Rattle.serde_json.specs.Data.{Data};
ghost use Rattle.serde_json.specs.Events.{SendsValue};
ghost use Rattle.serde_json.specs.Written.{has_float};
ghost use Rattle.toll_wire.specs.Sending.{SendsMember};

use serde::Serializer;

/// A value in a body as one JSON value, which holds no fraction.
pub(crate) trait JsonValue {
    ghost as_data: { Self → Data };

    /// Sends the value.
    fn send<S: Serializer>(&self, out: &mut S) -> Result<(), S::Error>
        ensures { OnOk result (SendsValue (as_data self.now) (S.written out.old) (S.written out.new)) };

    ghost exact: { (value : Self) → has_float (as_data value) ≡ false };
}

/// Sends a member of an object that is open: its name and its value.
pub(crate) fn send_member<T: JsonValue, S: Serializer>(
    name: &str,
    value: &T,
    out: &mut S,
) -> Result<(), S::Error>
    ensures { OnOk result (SendsMember name.now (T.as_data value.now) (S.written out.old) (S.written out.new)) }
{
    out.key(name)?;
    value.send(out)
}
