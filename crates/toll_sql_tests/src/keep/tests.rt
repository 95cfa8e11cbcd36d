//! What the contracts don't show: that ample memory meets no refusal, and that rows which were put are read
//! back.
use crate::keep::checks::{check_all, check_counts, check_owners};
use crate::keep::rows::{acme, actual, batch, edge, fill, fill_all};
use std::alloc::Global;
use std::test::Fail;
use toll_base::{Change, Disposition, LotRow, Name, Origin, Role, Row, VoidRow};
use toll_keep::{CachedKeep, Keep, KeepFault, MemKeep};
use toll_stories::{Refused, Refusing, check};
use toll_trace::Way;

fn filled(alloc: Global) -> Result<MemKeep, Fail> {
    let mut keep = MemKeep::new(alloc);
    fill_all(alloc, &mut keep)?;
    Ok(keep)
}

#[test]
fn rows_are_reported(rt: HostRuntime) -> Result<(), Fail> {
    check_all(rt.alloc(), &mut filled(rt.alloc())?)
}

// The batch closed, a movement more, and a lot of a material that is not there.
fn changes_with_a_lot_too_many(owner: Name) -> Result<[Change; 3], Fail> {
    let mut closed = batch()?;
    closed.closed = true;
    let lot = LotRow {
        lot: owner,
        material: owner,
        origin: Origin::Receipts,
        disposition: Disposition::Quarantined,
    };
    Ok([
        Change::Put(owner, Row::Batch(closed)),
        Change::Put(owner, actual(b"K3", Role::Consumed, edge()?.from)?),
        Change::Put(owner, Row::Lot(lot)),
    ])
}

#[test]
fn changes_that_do_not_fit_are_taken_back(rt: HostRuntime) -> Result<(), Fail> {
    let alloc = rt.alloc();
    let mut keep = filled(alloc)?;
    let owner = acme()?.owner;
    let changes = changes_with_a_lot_too_many(owner)?;
    let refused = keep.apply(alloc, &changes).err();
    check(refused == Some(KeepFault::Memory), "not refused")?;
    check_all(alloc, &mut keep)
}

#[test]
fn remembered_rows_follow_the_changes(rt: HostRuntime) -> Result<(), Fail> {
    let alloc = rt.alloc();
    let mut keep = CachedKeep::new(alloc, Refusing::new(MemKeep::new(alloc), Refused::None));
    let acme = acme()?;
    keep.apply(alloc, &[Change::Owner(acme)])?;
    check_counts(alloc, &mut keep, &acme.owner, Some((0, 0)))?;
    fill(alloc, &mut keep, &acme.owner, batch()?)?;
    check_counts(alloc, &mut keep, &acme.owner, Some((1, 2)))?;
    check(keep.inside().reads == 1, "read again")
}

#[test]
fn a_refused_change_makes_it_forget(rt: HostRuntime) -> Result<(), Fail> {
    let alloc = rt.alloc();
    let refusing = Refusing::new(filled(alloc)?, Refused::Apply);
    let mut keep = CachedKeep::new(alloc, refusing);
    let owner = acme()?.owner;
    check_counts(alloc, &mut keep, &owner, Some((1, 2)))?;
    let refused = keep.apply(alloc, &[Change::Put(owner, Row::Batch(batch()?))]);
    check(refused.err() == Some(KeepFault::Memory), "not refused")?;
    check_counts(alloc, &mut keep, &owner, Some((1, 2)))?;
    check(keep.inside().reads == 2, "not read again")
}

#[test]
fn owners_and_units_are_read_again_once_one_is_added(rt: HostRuntime) -> Result<(), Fail> {
    let alloc = rt.alloc();
    let mut keep = CachedKeep::new(alloc, Refusing::new(filled(alloc)?, Refused::None));
    check_owners(alloc, &mut keep)?;
    check_owners(alloc, &mut keep)?;
    let mut bolt = acme()?;
    bolt.owner = Name::parse(b"BOLT")?;
    keep.apply(alloc, &[Change::Owner(bolt)])?;
    let are_two = keep.owners(alloc)?.len() == 2;
    check(
        are_two && keep.inside().reads == 3,
        "not read again, or too often",
    )
}

// Fails if the trace from IN over ACME's batches hasn't this many lots.
fn check_traced<K: Keep>(alloc: Global, keep: &mut K, lots: usize) -> Result<(), Fail> {
    let owners = [acme()?.owner];
    let steps = keep.trace(alloc, &owners, &edge()?.from, Way::Forward)?;
    check(steps.len() == lots, "another trace")
}

#[test]
fn a_graph_is_remembered(rt: HostRuntime) -> Result<(), Fail> {
    let alloc = rt.alloc();
    let mut keep = CachedKeep::new(alloc, Refusing::new(filled(alloc)?, Refused::None));
    check_traced(alloc, &mut keep, 2)?;
    check_traced(alloc, &mut keep, 2)?;
    check(keep.inside().reads == 2, "not the owners and a slice, once")
}

#[test]
fn a_graph_is_made_again_behind_a_void(rt: HostRuntime) -> Result<(), Fail> {
    let alloc = rt.alloc();
    let mut keep = CachedKeep::new(alloc, Refusing::new(filled(alloc)?, Refused::None));
    check_traced(alloc, &mut keep, 2)?;
    let key = Name::parse(b"K1")?;
    let void = Change::Put(acme()?.owner, Row::Void(VoidRow { key }));
    keep.apply(alloc, &[void])?;
    check_traced(alloc, &mut keep, 1)?;
    check(keep.inside().reads == 3, "the slice is not read again")
}

#[test]
fn faults_have_words(rt: HostRuntime) {
    assert_eq!(rt; KeepFault::Damaged.name(), "Damaged");
}
