//! Deciding a request before its changes are made.
ghost use Rattle.std.specs.Prelude.{◌≡◌, List, [], Contains, Some};
ghost use Rattle.toll_base.specs.Bytes.{Bytes};
ghost use Rattle.toll_history.specs.OwnChanges.{PutsOnly};
ghost use Rattle.toll_keep.specs.HeldFor.{KeepsHeld};
ghost use Rattle.toll_keep.specs.Meaning.{meaning_for};
ghost use Rattle.toll_desk.specs.Translations.{meaning_of_reply};
ghost use Rattle.toll_protocol.specs.Parsed.{parse_outcome};
ghost use Rattle.toll_protocol.specs.Parsing.{IsParsedAs};
ghost use Rattle.toll_wire.specs.Held.{IsHeldBack, IsHeldBackKeeping, IsHolding, IsReadAtMost, changes_held, text_held};
ghost use Rattle.toll_wire.specs.ReplyTexts.{fault_or_memory, text_of_failure};
ghost use Rattle.toll_wire.specs.Sayings.{AreOfOneOf, Asks, By, Fails};

use crate::outgoing::Out;
use crate::reply::{fail, reply_out};
use crate::routes::{OfficeRouter, route_request};
use std::alloc::Global;
use toll_base::{Change, Request};
use toll_desk::{Reply, admit, owner_plan};
use toll_keep::{Keep, KeepFault};
use toll_protocol::{Failure, HttpRequest};

/// The text of a reply if its changes are made, and these changes.
#[derive(Drop)]
pub struct HeldReply {
    pub text: Vec<u8>,
    pub changes: Vec<Change>,
}

/// Decides a parsed request, and changes nothing: the text of the reply if its changes are made, and these
/// changes. An `Err` is the fault of a call of the keep, or says that there was no memory.
pub fn hold_with_router<K: Keep>(
    alloc: Global,
    router: &mut OfficeRouter,
    keep: &mut K,
    parsed: Result<HttpRequest<'_>, Failure>,
) -> Result<HeldReply, KeepFault>
    ensures held { (bytes : Bytes) → IsParsedAs bytes (parse_outcome parsed.entry) → IsHeldBack K.meaning keep.old keep.new bytes result }
    ensures alone { (os : List Bytes) (bytes : Bytes) → IsParsedAs bytes (parse_outcome parsed.entry) → AreOfOneOf os bytes
        → IsHeldBack (meaning_for K.meaning K.part os) keep.old keep.new bytes result }
    ensures others { (os : List Bytes) (bytes : Bytes) → IsParsedAs bytes (parse_outcome parsed.entry) → ¬ (AreOfOneOf os bytes)
        → IsHeldBackKeeping (meaning_for K.meaning K.part os) keep.old keep.new os result }
    ensures reads { IsReadAtMost K.meaning keep.old keep.new result }
{
    match parsed {
        Err(failure) => unchanging(alloc, fail(alloc, failure).into_text()),
        Ok(http) => match route_request(alloc, router, http.verb, http.target, http.body) {
            Err(_) => Err(KeepFault::Memory),
            Ok(asks) => match (http.owner, http.key) {
                (Some(owner), Some(key)) => match asks {
                    Ok(request) => hold(alloc, keep, owner, key, &request),
                    Err(failure) => unchanging(alloc, refuse(alloc, keep, owner, key, failure)),
                },
                _ => unchanging(alloc, fail(alloc, Failure::Forbidden).into_text()),
            },
        },
    }
}

// Replies to an owner which check the request fails, and to every other client only that it is forbidden.
fn refuse<K: Keep>(
    alloc: Global,
    keep: &mut K,
    owner: &[u8],
    key: &[u8],
    failure: Failure,
) -> Result<Vec<u8>, KeepFault>
    ensures holds { IsHolding K.meaning keep.old keep.new (By owner.now (Some key.now) (Fails (text_of_failure failure))) result [] }
    ensures alone { (os : List Bytes) → IsHolding (meaning_for K.meaning K.part os) keep.old keep.new
        (By owner.now (Some key.now) (Fails (text_of_failure failure))) result [] }
    ensures others { (os : List Bytes) → KeepsHeld (meaning_for K.meaning K.part os) keep.old keep.new result }
{
    match admit(alloc, keep, owner, key) {
        Ok(Some(_)) => fail(alloc, failure).into_text(),
        Ok(None) => fail(alloc, Failure::Forbidden).into_text(),
        Err(fault) => Err(fault),
    }
}

// A reply without changes.
fn unchanging(alloc: Global, text: Result<Vec<u8>, KeepFault>) -> Result<HeldReply, KeepFault>
    ensures text { text_held result ≡ text }
    ensures none { changes_held result ≡ [] }
{
    match text {
        Ok(text) => Ok(HeldReply {
            text,
            changes: Vec::new(alloc),
        }),
        Err(fault) => Err(fault),
    }
}

// Makes the text of the reply, and holds its changes back.
fn hold<K: Keep>(
    alloc: Global,
    keep: &mut K,
    owner: &[u8],
    key: &[u8],
    request: &Request,
) -> Result<HeldReply, KeepFault>
    ensures holds { IsHolding K.meaning keep.old keep.new (By owner.now (Some key.now) (Asks request.now)) (text_held result) (changes_held result) }
    ensures alone { (os : List Bytes) → Contains os owner.now → IsHolding (meaning_for K.meaning K.part os) keep.old keep.new
        (By owner.now (Some key.now) (Asks request.now)) (text_held result) (changes_held result) }
    ensures puts { PutsOnly owner.now (changes_held result) }
    ensures others { (os : List Bytes) → KeepsHeld (meaning_for K.meaning K.part os) keep.old keep.new result }
{
    let planned = owner_plan(alloc, keep, owner, key, request);
    match reply_out(alloc, &planned.reply) {
        Out::Unavailable => Err(fault_of(&planned.reply)),
        Out::Text(text) => Ok(HeldReply {
            text,
            changes: planned.changes,
        }),
    }
}

// The fault of a reply without a text: that of the keep, or that there was no memory for the text.
fn fault_of(reply: &Reply) -> KeepFault
    ensures { result ≡ fault_or_memory (meaning_of_reply reply.now) }
{
    match reply {
        Reply::Fault(fault) => *fault,
        _ => KeepFault::Memory,
    }
}
