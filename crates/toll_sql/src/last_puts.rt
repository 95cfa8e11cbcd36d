//! The last of several puts of one sublot.
ghost use Rattle.std.specs.Prelude.{◌≡◌, IsTrue, not, IfOk, IfSome, OnOk, List, ◌∷◌};
ghost use Rattle.std.specs.List.{AllByRecursion};
ghost use Rattle.toll_base.specs.declared.decision.Change.{Change as Changes};
ghost use Rattle.toll_base.specs.Values.{is_name};
ghost use Rattle.toll_sql.specs.LastPuts.{AreNoted, IsSublotValid, is_put_again, key_for, last_puts, sublot_put};
ghost use Rattle.toll_sql.specs.Stores.{IsValidChange};
ghost use Rattle.toll_sql.specs.Valid.{IsStorable, IsSublot};

use crate::encode::{MOST_INT, sublot_values};
use std::alloc::{AllocError, Global};
use std::collections::BTreeSet;
use toll_base::{Change, Name, Row, SublotRow};

/// What names a sublot: its owner, its lot and its name.
#[derive(Clone, Copy, PartialEq, Eq, PartialOrd, Ord)]
pub struct SublotKey {
    pub owner: Name,
    pub lot: Name,
    pub sublot: Name,
}

/// The changes, in order, but no put of a sublot that a later one puts again. Fails if memory runs out.
pub fn last_puts(alloc: Global, changes: &[Change]) -> Result<Vec<Change>, AllocError>
    ensures last { IfOk result (λ last. last.items ≡ last_puts changes.now) }
    ensures valid { OnOk result (AllByRecursion IsSublotValid changes.now) }
{
    let mut last = Vec::with_capacity(alloc, changes.len())?;
    let mut noted = BTreeSet::new(alloc);
    for i in (0..changes.len()).rev() {
        let change = &changes[i];
        if note(&mut noted, change)? {
            last.push(*change)?;
        }
    }
    last.reverse();
    Ok(last)
}

// Notes the sublot that the change puts. Returns false if it was noted before.
fn note(noted: &mut BTreeSet<SublotKey>, change: &Change) -> Result<bool, AllocError>
    ensures is_last { (later : List Changes) → AreNoted later noted.old → IfOk result (λ is_last. is_last ≡ not (is_put_again later (sublot_put change.now))) }
    ensures noted { (later : List Changes) → AreNoted later noted.old → OnOk result (AreNoted (change.now ∷ later) noted.new) }
    ensures valid { OnOk result (IsSublotValid change.now) }
{
    match sublot_put(change) {
        Some(key) => Ok(noted.insert(key)?),
        None => Ok(true),
    }
}

// The sublot that the change puts, if its amount is one that a column can have.
fn sublot_put(change: &Change) -> Option<SublotKey>
    ensures key { result ≡ sublot_put change.now }
    ensures valid { IfSome result (λ _. IsValidChange change.now) }
{
    match change {
        Change::Put(owner, Row::Sublot(row)) if row.amount <= MOST_INT => {
            Some(sublot_key(owner, row))
        },
        _ => None,
    }
}

// What names the sublot.
fn sublot_key(owner: &Name, row: &SublotRow) -> SublotKey
    requires { IsStorable row.now.amount }
    ensures key { result ≡ key_for owner.now row.now }
    ensures valid { IsTrue (is_name owner.now) × IsSublot row.now }
{
    // This call is for the proof alone: a row that has cells is valid.
    let _values = sublot_values(owner, row);
    SublotKey {
        owner: *owner,
        lot: row.lot,
        sublot: row.sublot,
    }
}
