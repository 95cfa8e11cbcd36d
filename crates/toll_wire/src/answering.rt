//! Answering a request.
ghost use Rattle.std.specs.Prelude.{List, IfErr};
ghost use Rattle.toll_base.specs.Bytes.{Bytes};
ghost use Rattle.toll_keep.specs.Meaning.{meaning_for};
ghost use Rattle.toll_protocol.specs.Parsed.{parse_outcome};
ghost use Rattle.toll_protocol.specs.Parsing.{IsParsedAs};
ghost use Rattle.toll_wire.specs.OutTexts.{out_of};
ghost use Rattle.toll_wire.specs.Sayings.{AreOfOneOf};
ghost use Rattle.toll_wire.specs.Steps.{IsAnswered, IsAnsweredKeeping, IsFaultMet};

use crate::holding::hold_with_router;
use crate::outgoing::Out;
use crate::routes::OfficeRouter;
use std::alloc::Global;
use toll_desk::commit;
use toll_keep::{Keep, KeepFault};
use toll_protocol::{Failure, HttpRequest, parse_http};

/// Answers the bytes of a request: one step of a run.
///
/// A client without a key that fits is forbidden, and learns nothing else. The text of a reply is made before
/// anything changes. So if the answer is [`Out::Unavailable`], nothing changed; or, after a fault of the
/// disk, the change is there whole or not at all. A reply other than 200 or 503 means that nothing changed.
pub fn answer<K: Keep>(alloc: Global, keep: &mut K, bytes: &[u8]) -> Out
    ensures answered { IsAnswered K.meaning keep.old keep.new bytes.now result }
    ensures alone { (os : List Bytes) → AreOfOneOf os bytes.now → IsAnswered (meaning_for K.meaning K.part os) keep.old keep.new bytes.now result }
    ensures others { (os : List Bytes) → ¬ (AreOfOneOf os bytes.now) → IsAnsweredKeeping (meaning_for K.meaning K.part os) keep.old keep.new result }
{
    reply_by_router(alloc, &mut OfficeRouter::new(), keep, bytes)
}

/// Does the same with a router that serves many requests.
pub fn reply_by_router<K: Keep>(
    alloc: Global,
    router: &mut OfficeRouter,
    keep: &mut K,
    bytes: &[u8],
) -> Out
    ensures answered { IsAnswered K.meaning keep.old keep.new bytes.now result }
    ensures alone { (os : List Bytes) → AreOfOneOf os bytes.now → IsAnswered (meaning_for K.meaning K.part os) keep.old keep.new bytes.now result }
    ensures others { (os : List Bytes) → ¬ (AreOfOneOf os bytes.now) → IsAnsweredKeeping (meaning_for K.meaning K.part os) keep.old keep.new result }
{
    Out::of(answer_with_router(alloc, router, keep, parse_http(bytes)))
}

/// Gives the text of that reply, for bytes that were parsed. An `Err` is the fault because of which the reply is [`Out::Unavailable`]:
/// that of a call of the keep, or that there was no memory.
pub fn answer_with_router<K: Keep>(
    alloc: Global,
    router: &mut OfficeRouter,
    keep: &mut K,
    parsed: Result<HttpRequest<'_>, Failure>,
) -> Result<Vec<u8>, KeepFault>
    ensures answered { (bytes : Bytes) → IsParsedAs bytes (parse_outcome parsed.entry) → IsAnswered K.meaning keep.old keep.new bytes (out_of result) }
    ensures alone { (os : List Bytes) (bytes : Bytes) → IsParsedAs bytes (parse_outcome parsed.entry) → AreOfOneOf os bytes
        → IsAnswered (meaning_for K.meaning K.part os) keep.old keep.new bytes (out_of result) }
    ensures others { (os : List Bytes) (bytes : Bytes) → IsParsedAs bytes (parse_outcome parsed.entry) → ¬ (AreOfOneOf os bytes)
        → IsAnsweredKeeping (meaning_for K.meaning K.part os) keep.old keep.new (out_of result) }
    ensures met { IfErr result (IsFaultMet K.meaning keep.old keep.new) }
{
    let held = hold_with_router(alloc, router, keep, parsed)?;
    commit(alloc, keep, &held.changes)?;
    Ok(held.text)
}
