//! Checks of every keep: it returns the rows that were put.
use crate::keep::rows::{acme, batch, counts, edge};
use std::alloc::Global;
use std::test::Fail;
use toll_base::Name;
use toll_keep::Keep;
use toll_stories::check;

/// Fails if the keep has owners other than ACME alone, or units other than one.
pub(crate) fn check_owners<K: Keep>(alloc: Global, keep: &mut K) -> Result<(), Fail> {
    let owners = keep.owners(alloc)?;
    let units = keep.units(alloc)?;
    let is_told = owners.as_slice() == [acme()?].as_slice() && units.len() == 1;
    check(is_told, "other owners or units are told")
}

/// Fails if the owner hasn't this many batches and movements; none for an owner that isn't known.
pub(crate) fn check_counts<K: Keep>(
    alloc: Global,
    keep: &mut K,
    owner: &Name,
    wanted: Option<(usize, usize)>,
) -> Result<(), Fail> {
    let is_told = counts(alloc, keep, owner)? == wanted;
    check(is_told, "other batches or movements are told")
}

// Fails if ACME hasn't its rows, HOUSE has any, or another owner is known.
fn check_rows<K: Keep>(alloc: Global, keep: &mut K) -> Result<(), Fail> {
    check_counts(alloc, keep, &acme()?.owner, Some((1, 2)))?;
    check_counts(alloc, keep, &Name::house(), Some((0, 0)))?;
    check_counts(alloc, keep, &batch()?.unit, None)
}

// Fails if ACME's batch doesn't hold its unit, or a batch holds another unit.
fn check_holder<K: Keep>(alloc: Global, keep: &mut K) -> Result<(), Fail> {
    let acme = acme()?;
    let held = keep.holder(alloc, &batch()?.unit)?;
    let other = keep.holder(alloc, &acme.owner)?;
    let is_told = held.is_some_and(|holder| holder.owner == acme.owner) && other.is_none();
    check(is_told, "another holder is told")
}

// Fails if ACME's edge isn't the only one, of its own and among all, or if HOUSE has one.
fn check_edges<K: Keep>(alloc: Global, keep: &mut K) -> Result<(), Fail> {
    let edge = edge()?;
    let own = keep.edges(alloc, &acme()?.owner)?;
    let all = keep.all_edges(alloc)?;
    let houses = keep.edges(alloc, &Name::house())?;
    let is_told = own.as_slice() == [edge].as_slice()
        && all.as_slice() == [edge].as_slice()
        && houses.is_empty();
    check(is_told, "other edges are told")
}

/// Fails if a row that was put isn't returned.
pub(crate) fn check_all<K: Keep>(alloc: Global, keep: &mut K) -> Result<(), Fail> {
    check_owners(alloc, keep)?;
    check_rows(alloc, keep)?;
    check_holder(alloc, keep)?;
    check_edges(alloc, keep)
}
