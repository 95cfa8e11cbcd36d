//! A keep that refuses each of its calls in turn, and the rows that it leaves.
use crate::stop::runs::Telling;
use sqlite::MemStore;
use std::alloc::Global;
use std::test::Fail;
use toll_keep::{CachedKeep, Keep, MemKeep};
use toll_sql::SqlKeep;
use toll_stories::{Refused, Refusing, check, check_chapter, check_said_over, say};

// More calls of a keep than a line makes.
const MANY_CALLS: u64 = 100;

/// Refuses the first call that the line makes of a keep, its second, and so on, until it makes no more: over
/// lists, and over tables inside a keep with a cache. Fails if a refused call isn't reported as lack of
/// memory, if it changes rows, or if the same line isn't done then.
pub fn check_refused(alloc: Global, telling: &Telling) -> Result<(), Fail> {
    check_refused_of_lists(alloc, telling)?;
    check_refused_of_tables(alloc, telling)
}

fn check_refused_of_lists(alloc: Global, telling: &Telling) -> Result<(), Fail> {
    for calls in 0..MANY_CALLS {
        if !is_refused_of_lists(alloc, telling, calls)? {
            return Ok(());
        }
    }
    Err("each run meets a refusal".into())
}

fn check_refused_of_tables(alloc: Global, telling: &Telling) -> Result<(), Fail> {
    for calls in 0..MANY_CALLS {
        if !is_refused_of_tables(alloc, telling, calls)? {
            return Ok(());
        }
    }
    Err("each run meets a refusal".into())
}

// Whether the line meets a refusal if the call after this many is refused.
fn is_refused_of_lists(alloc: Global, telling: &Telling, calls: u64) -> Result<bool, Fail> {
    let mut keep = MemKeep::new(alloc);
    check_said_over(alloc, &mut keep, telling.story)?;
    let mut keep = Refusing::new(keep, Refused::Behind(calls));
    let is_refused = meets_refusal(alloc, &mut keep, telling)?;
    check_passed_on(is_refused, keep.refused)
}

fn is_refused_of_tables(alloc: Global, telling: &Telling, calls: u64) -> Result<bool, Fail> {
    let mut keep = SqlKeep::in_memory(alloc)?;
    check_said_over::<SqlKeep<MemStore>>(alloc, &mut keep, telling.story)?;
    let mut keep = CachedKeep::new(alloc, Refusing::new(keep, Refused::Behind(calls)));
    let is_refused = meets_refusal(alloc, &mut keep, telling)?;
    check_passed_on(is_refused, keep.inside().refused)
}

// Fails if a refusal was ignored, or one was reported that nothing caused.
fn check_passed_on(is_refused: bool, left: Refused) -> Result<bool, Fail> {
    check(
        is_refused == (left == Refused::None),
        "a refusal is not told",
    )?;
    Ok(is_refused)
}

// Whether the line reports lack of memory. Nothing has changed then, and the line can still be done.
fn meets_refusal<K: Keep>(alloc: Global, keep: &mut K, telling: &Telling) -> Result<bool, Fail> {
    let (requested, done) = telling.line;
    let said = say(alloc, keep, requested)?;
    if said.as_str() == done {
        return Ok(false);
    }
    check(said.as_str() == refusal_of(requested), "told otherwise")?;
    check_chapter(alloc, keep, telling.before)?;
    check(say(alloc, keep, requested)?.as_str() == done, "not done")?;
    check_chapter(alloc, keep, telling.after)?;
    Ok(true)
}

// The answer to this line for lack of memory.
fn refusal_of(requested: &str) -> &'static str {
    if requested.starts_with('>') {
        "503 {\"error\":\"Unavailable\"}"
    } else {
        "fault Memory"
    }
}
