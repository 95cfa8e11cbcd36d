//! The body of a request for an order.
ghost use Rattle.std.specs.Prelude.{◌≡◌, ◌↔◌, ◌<◌, None, IfOk, IsErr, IsUtf8, OnErr, length};
ghost use Rattle.serde_json.specs.Errors.{IsMemory};
ghost use Rattle.serde_json.specs.View.{view};
ghost use Rattle.toll_wire.specs.Bodies.{IsBodyOf, batches_at, name_member, order_in};

use serde_json::{Error, Value};
use std::alloc::{AllocError, Global};
use toll_base::{BatchNo, Name, Placing};

/// The order that a body asks for, if it asks for one: a JSON object (RFC 8259) with the members `order` and
/// `recipe`, which are names, and `batches`, a number of batches from 1 to 99 without fraction or exponent.
/// Of several members of one name the last counts.
///
/// Memory is needed only for a body that may be JSON: a body of no bytes, or of bytes that are no text,
/// always has an answer.
pub fn requested_order(alloc: Global, body: &[u8]) -> Result<Option<Placing>, AllocError>
    ensures order { IfOk result (IsBodyOf body.now) }
    ensures memory { OnErr result (IsUtf8 body.now × (0 < length body.now)) }
{
    let Ok(text) = str::from_utf8(body) else {
        return Ok(None);
    };
    match Value::from_str(alloc, text) {
        Ok(value) => Ok(order_in(&value)),
        Err(why) => unread(why),
    }
}

// No order, unless the body was not read because there was no memory.
fn unread(why: Error) -> Result<Option<Placing>, AllocError>
    ensures memory { IsErr result ↔ IsMemory why }
    ensures none { IfOk result (λ order. order ≡ None) }
{
    if why.is_memory() {
        Err(AllocError)
    } else {
        Ok(None)
    }
}

fn order_in(value: &Value) -> Option<Placing>
    ensures { result ≡ order_in (view value.now) }
{
    let order = name_at(value, "order")?;
    let recipe = name_at(value, "recipe")?;
    let batches = batches_at(value)?;
    Some(Placing {
        order,
        recipe,
        batches,
    })
}

fn name_at(value: &Value, member: &str) -> Option<Name>
    ensures { result ≡ name_member member.now (view value.now) }
{
    Name::parse(value.get(member)?.as_str()?.as_bytes()).ok()
}

fn batches_at(value: &Value) -> Option<BatchNo>
    ensures { result ≡ batches_at (view value.now) }
{
    BatchNo::new(value.get("batches")?.as_u64()?).ok()
}
