//! Edges of a batch that uses the same lots in several segments.
use crate::keep::rows::{acme, actual_in, batch, edge};
use sqlite::MemStore;
use std::alloc::Global;
use std::test::Fail;
use toll_base::{Change, Edge, LotId, Name, Role, Row, VoidRow};
use toll_keep::{Keep, MemKeep};
use toll_sql::SqlKeep;
use toll_stories::check;

// What a batch uses: the key, the role, the lot and the segment.
type Used = (&'static str, Role, &'static str, u64);

// The lot IN is consumed in segments 3 and 2, and by a voided actual in 1. The lot OUT is produced in
// segments 1 and 2, EARLY in 1 alone, and LATE in 3 by a voided actual.
const USED: [Used; 7] = [
    ("K1", Role::Consumed, "IN", 3),
    ("K2", Role::Consumed, "IN", 2),
    ("K3", Role::Consumed, "IN", 1),
    ("K4", Role::Produced, "OUT", 1),
    ("K5", Role::Produced, "OUT", 2),
    ("K6", Role::Produced, "EARLY", 1),
    ("K7", Role::Produced, "LATE", 3),
];

fn fill<K: Keep>(alloc: Global, keep: &mut K) -> Result<(), Fail> {
    keep.apply(alloc, &[Change::Owner(acme()?)])?;
    put(alloc, keep, Row::Batch(batch()?))?;
    for used in USED {
        use_lot(alloc, keep, used)?;
    }
    void(alloc, keep, "K3")?;
    void(alloc, keep, "K7")
}

fn put<K: Keep>(alloc: Global, keep: &mut K, row: Row) -> Result<(), Fail> {
    Ok(keep.apply(alloc, &[Change::Put(acme()?.owner, row)])?)
}

fn use_lot<K: Keep>(alloc: Global, keep: &mut K, used: Used) -> Result<(), Fail> {
    let (key, role, lot, segment) = used;
    let lot = LotId {
        owner: acme()?.owner,
        lot: Name::parse(lot.as_bytes())?,
    };
    let row = actual_in(key.as_bytes(), segment, role, lot)?;
    put(alloc, keep, row)
}

fn void<K: Keep>(alloc: Global, keep: &mut K, key: &str) -> Result<(), Fail> {
    let key = Name::parse(key.as_bytes())?;
    put(alloc, keep, Row::Void(VoidRow { key }))
}

// Fails if other edges are returned, as ACME's own or among all.
fn check_told<K: Keep>(alloc: Global, keep: &mut K, wanted: &[Edge]) -> Result<(), Fail> {
    let own = keep.edges(alloc, &acme()?.owner)?;
    let all = keep.all_edges(alloc)?;
    let is_told = own.as_slice() == wanted && all.as_slice() == wanted;
    check(is_told, "other edges are told")
}

// Asks for the edges, and again, and after each change.
fn check_segments<K: Keep>(alloc: Global, keep: &mut K) -> Result<(), Fail> {
    let drawn = [edge()?];
    fill(alloc, keep)?;
    check_told(alloc, keep, &drawn)?;
    check_told(alloc, keep, &drawn)?;
    void(alloc, keep, "K2")?;
    check_told(alloc, keep, &[])?;
    use_lot(alloc, keep, ("K8", Role::Produced, "OUT", 4))?;
    check_told(alloc, keep, &drawn)
}

#[test]
fn lots_of_several_segments_are_paired_once(rt: HostRuntime) -> Result<(), Fail> {
    check_segments(rt.alloc(), &mut MemKeep::new(rt.alloc()))
}

#[test]
fn tables_pair_lots_of_several_segments_once(rt: HostRuntime) -> Result<(), Fail> {
    let mut keep: SqlKeep<MemStore> = SqlKeep::in_memory(rt.alloc())?;
    check_segments(rt.alloc(), &mut keep)
}
