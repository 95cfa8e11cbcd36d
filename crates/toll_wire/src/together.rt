//! Answering requests of different owners with one change of the keep.
ghost use Rattle.std.specs.Prelude.{◌≡◌, List, map};
ghost use Rattle.std.specs.List.{AllByRecursion, list_any};
ghost use Rattle.std.specs.Option.{option_map};
ghost use Rattle.toll_base.specs.Bytes.{Bytes, same_bytes};
ghost use Rattle.toll_base.specs.Words.{is_some_where};
ghost use Rattle.toll_keep.specs.Meaning.{meaning_for};
ghost use Rattle.toll_protocol.specs.Parsed.{parse_outcome};
ghost use Rattle.toll_wire.specs.Groups.{AreHeldKeeping, IsGroupHeld, IsGroupServed, LeavesHeld, changes_together, outcome_of, owner_in};
ghost use Rattle.toll_wire.specs.Sayings.{AreOfOneOf};

use crate::holding::hold_with_router;
use crate::routes::OfficeRouter;
use std::alloc::Global;
use toll_base::Change;
use toll_desk::commit;
use toll_keep::{Keep, KeepFault};
use toll_protocol::{Failure, HttpRequest, parse_http};

/// How a group of requests ended.
#[derive(Drop)]
pub enum GroupEnd {
    /// The texts of the replies, in order. All changes are made.
    Done(Vec<Vec<u8>>),
    /// Nothing was changed, and there are no replies: a call that only reads met this fault, or there was no
    /// memory.
    Undone(KeepFault),
    /// The change of the keep met this fault: it is there whole or not at all. The reply to each of the first
    /// `count` requests is [`Out::Unavailable`](crate::Out).
    Refused { count: usize, fault: KeepFault },
}

// The texts of replies if their changes are made, and these changes.
#[derive(Drop)]
struct HeldGroup {
    replies: Vec<Vec<u8>>,
    changes: Vec<Change>,
}

/// Answers the first of these requests as if one after another, and makes all of their changes by one call of
/// the keep. They end before the first that claims an owner that one before it claims.
///
/// What an owner's request is told and changes depends on the owner's own rows. So each is decided over the
/// rows from before the group.
pub fn answer_together<K: Keep>(
    alloc: Global,
    router: &mut OfficeRouter,
    keep: &mut K,
    requests: &[&[u8]],
) -> GroupEnd
    ensures served { IsGroupServed K.meaning keep.old keep.new (map (λ request. request.now) requests.now) result }
    ensures alone { (os : List Bytes) → AllByRecursion (AreOfOneOf os) (map (λ request. request.now) requests.now)
        → IsGroupServed (meaning_for K.meaning K.part os) keep.old keep.new (map (λ request. request.now) requests.now) result }
    ensures others { (os : List Bytes) → AllByRecursion (λ bytes. ¬ (AreOfOneOf os bytes)) (map (λ request. request.now) requests.now)
        → LeavesHeld (meaning_for K.meaning K.part os) keep.old keep.new (outcome_of result) }
{
    match hold_group(alloc, router, keep, requests) {
        Ok(group) => match commit(alloc, keep, &group.changes) {
            Ok(()) => GroupEnd::Done(group.replies),
            Err(fault) => GroupEnd::Refused {
                count: group.replies.len(),
                fault,
            },
        },
        Err(fault) => GroupEnd::Undone(fault),
    }
}

// Decides the requests of the group, and changes nothing.
fn hold_group<K: Keep>(
    alloc: Global,
    router: &mut OfficeRouter,
    keep: &mut K,
    requests: &[&[u8]],
) -> Result<HeldGroup, KeepFault>
    ensures holds { IsGroupHeld K.meaning keep.old keep.new (map (λ request. request.now) requests.now) result }
    ensures alone { (os : List Bytes) → AllByRecursion (AreOfOneOf os) (map (λ request. request.now) requests.now)
        → IsGroupHeld (meaning_for K.meaning K.part os) keep.old keep.new (map (λ request. request.now) requests.now) result }
    ensures others { (os : List Bytes) → AllByRecursion (λ bytes. ¬ (AreOfOneOf os bytes)) (map (λ request. request.now) requests.now)
        → AreHeldKeeping (meaning_for K.meaning K.part os) keep.old keep.new result os (changes_together result) }
{
    let mut owners = Vec::with_capacity(alloc, requests.len())?;
    let mut replies = Vec::with_capacity(alloc, requests.len())?;
    let mut changes = Vec::new(alloc);
    for request in requests {
        let parsed = parse_http(request);
        let owner = owner_claimed(parsed);
        if claims_again(&owners, owner) {
            return Ok(HeldGroup { replies, changes });
        }
        let held = hold_with_router(alloc, router, keep, parsed)?;
        changes.extend_from_slice(&held.changes)?;
        owners.push_reserved(owner);
        replies.push_reserved(held.text);
    }
    Ok(HeldGroup { replies, changes })
}

// The owner that a request claims, if it claims one.
fn owner_claimed<'b>(parsed: Result<HttpRequest<'b>, Failure>) -> Option<&'b [u8]>
    ensures { option_map (λ owner. owner.now) result ≡ owner_in (parse_outcome parsed.entry) }
{
    match parsed {
        Ok(http) => http.owner,
        Err(_) => None,
    }
}

// Whether the owner that is claimed, if one is, is one of these.
fn claims_again(owners: &[Option<&[u8]>], owner: Option<&[u8]>) -> bool
    ensures { result ≡ is_some_where (λ o. list_any (λ claimed. is_some_where (λ p. same_bytes p o) claimed)
        (map (λ claimed. option_map (λ p. p.now) claimed) owners.now)) (option_map (λ o. o.now) owner.entry) }
{
    let Some(name) = owner else {
        return false;
    };
    for claimed in owners {
        if is_by(*claimed, name) {
            return true;
        }
    }
    false
}

// Whether this owner is the one that is claimed.
fn is_by(claimed: Option<&[u8]>, name: &[u8]) -> bool
    ensures { result ≡ is_some_where (λ p. same_bytes p name.now) (option_map (λ p. p.now) claimed.entry) }
{
    match claimed {
        Some(other) => other.cmp(name).is_eq(),
        None => false,
    }
}
