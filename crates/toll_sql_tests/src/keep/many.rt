//! Many rows: groups of 2,000 changes, a trace over 20,000 actuals, and a recall over 64 owners.
use crate::keep::offices::{bare_tables, empty_tables};
use crate::keep::rows::{acme, actual};
use std::alloc::{AllocError, Global};
use std::test::Fail;
use toll_base::{
    Amount, BatchNo, Change, Day, Disposition, LotId, LotRow, MaterialRow, Measure, Move, MoveRow,
    Name, Origin, OwnerKey, OwnerRow, Role, Row, Segment,
};
use toll_keep::{Keep, MemKeep};
use toll_stories::{check, say};
use toll_trace::{Step, Way};

// How many batches there are, how many of an order, and how many actuals of a batch.
const BATCHES: u64 = 100;

const OF_ORDER: u64 = 50;

const OF_BATCH: u64 = 200;

// How many groups of changes there are, and how many changes in each.
const GROUPS: u64 = 10;

const OF_GROUP: u64 = 2_000;

// The name with this number.
fn name_of(alloc: Global, front: &str, number: u64) -> Result<Name, Fail> {
    let name = format!(in alloc; "{front}{number}")?;
    Ok(Name::parse(name.as_bytes())?)
}

// ACME's lot with this number.
fn lot_of(alloc: Global, number: u64) -> Result<LotId, Fail> {
    Ok(LotId {
        owner: acme()?.owner,
        lot: name_of(alloc, "L", number)?,
    })
}

// The batch's actual in this place: the last one produces the next batch's lot, all others consume its own.
fn actual_at(alloc: Global, batch: u64, place: u64) -> Result<Move, Fail> {
    let (role, number) = match place < OF_BATCH - 1 {
        true => (Role::Consumed, batch),
        false => (Role::Produced, batch.saturating_add(1)),
    };
    let lot = lot_of(alloc, number)?;
    Ok(Move::Actual {
        order: name_of(alloc, "O", batch / OF_ORDER)?,
        number: BatchNo::new(batch % OF_ORDER + 1)?,
        segment: Segment::new(1)?,
        role,
        material: lot.lot,
        lot,
        sublot: lot.lot,
    })
}

// The change that puts the movement with this number.
fn change_of(alloc: Global, number: u64) -> Result<Change, Fail> {
    let movement = MoveRow {
        key: name_of(alloc, "K", number)?,
        what: actual_at(alloc, number / OF_BATCH, number % OF_BATCH)?,
        amount: Amount::new(1)?,
        day: Day::new(1)?,
    };
    Ok(Change::Put(acme()?.owner, Row::Move(movement)))
}

// Puts all movements, group by group.
fn put_groups<K: Keep>(alloc: Global, keep: &mut K) -> Result<(), Fail> {
    keep.apply(alloc, &[Change::Owner(acme()?)])?;
    for group in 0..GROUPS {
        let mut changes = Vec::new(alloc);
        for place in 0..OF_GROUP {
            changes.push(change_of(alloc, group * OF_GROUP + place)?)?;
        }
        keep.apply(alloc, &changes)?;
    }
    Ok(())
}

// Whether the steps lead from lot to lot through all batches.
fn is_through_all(alloc: Global, steps: &[Step]) -> Result<bool, Fail> {
    let mut number = 0;
    for step in steps {
        let lot = lot_of(alloc, number)?;
        if step.steps != number || step.lot != lot {
            return Ok(false);
        }
        number = number.saturating_add(1);
    }
    Ok(number == BATCHES + 1)
}

// Fails if a group is refused, or the trace over the actuals isn't the chain of lots.
fn check_traced<K: Keep>(alloc: Global, keep: &mut K) -> Result<(), Fail> {
    put_groups(alloc, keep)?;
    let first = lot_of(alloc, 0)?;
    let steps = keep.trace(alloc, &[first.owner], &first, Way::Forward)?;
    check(is_through_all(alloc, &steps)?, "another trace")
}

#[test]
fn lists_take_2000_changes_at_once_and_trace_20000_actuals(rt: HostRuntime) -> Result<(), Fail> {
    check_traced(rt.alloc(), &mut MemKeep::new(rt.alloc()))
}

#[test]
fn tables_take_2000_changes_at_once_and_trace_20000_actuals(rt: HostRuntime) -> Result<(), Fail> {
    check_traced(rt.alloc(), &mut empty_tables(rt.alloc())?)
}

// The numbers in the names of 64 owners.
const FIRST_OWNER: u64 = 10;

const LAST_OWNER: u64 = 73;

// HOUSE's lot, of which each owner made a lot.
fn lot_of_house() -> Result<LotId, Fail> {
    Ok(LotId {
        owner: Name::house(),
        lot: Name::parse(b"H-1")?,
    })
}

// Adds the changes that put the lot, and a material with its name.
fn add_lot(changes: &mut Vec<Change>, lot: LotId) -> Result<(), Fail> {
    let material = MaterialRow {
        material: lot.lot,
        measure: Measure::parse(b"kg")?,
    };
    let row = LotRow {
        lot: lot.lot,
        material: lot.lot,
        origin: Origin::Receipts,
        disposition: Disposition::Quarantined,
    };
    changes.push(Change::Put(lot.owner, Row::Material(material)))?;
    changes.push(Change::Put(lot.owner, Row::Lot(row)))?;
    Ok(())
}

// Adds the changes that put the owner with this number, and the lot that it made of HOUSE's.
fn add_owner(alloc: Global, changes: &mut Vec<Change>, number: u64) -> Result<(), Fail> {
    let owner = name_of(alloc, "W", number)?;
    let key = OwnerKey::parse(b"OWNERKEY1")?;
    changes.push(Change::Owner(OwnerRow { owner, key }))?;
    let made = LotId {
        owner,
        lot: Name::parse(b"P1")?,
    };
    add_lot(changes, made)?;
    let consumed = actual(b"K1", Role::Consumed, lot_of_house()?)?;
    let produced = actual(b"K2", Role::Produced, made)?;
    changes.push(Change::Put(owner, consumed))?;
    changes.push(Change::Put(owner, produced))?;
    Ok(())
}

// The changes that put HOUSE's lot and the owners.
fn changes_of_owners(alloc: Global) -> Result<Vec<Change>, Fail> {
    let mut changes = Vec::new(alloc);
    add_lot(&mut changes, lot_of_house()?)?;
    for number in FIRST_OWNER..LAST_OWNER + 1 {
        add_owner(alloc, &mut changes, number)?;
    }
    Ok(changes)
}

// The recall of HOUSE's lot.
fn recall_of_all(alloc: Global) -> Result<String, AllocError> {
    let mut text = String::from_str(
        alloc,
        " steps owner            lot              disposition        on-hand        shipped\n     0 HOUSE            H-1              quarantined              0              0\n",
    )?;
    for number in FIRST_OWNER..LAST_OWNER + 1 {
        text.push_str(&format!(in alloc;
            "     1 W{number}              P1               quarantined              0              0\n"
        )?)?;
    }
    Ok(text)
}

// Fails if the recall lacks one of the owners' lots, the first time or the next.
fn check_recalled<K: Keep>(alloc: Global, keep: &mut K) -> Result<(), Fail> {
    keep.apply(alloc, &changes_of_owners(alloc)?)?;
    let wanted = recall_of_all(alloc)?;
    for _ in 0..2 {
        let said = say(alloc, keep, "recall HOUSE H-1")?;
        check(said == wanted, &said)?;
    }
    Ok(())
}

#[test]
fn a_recall_goes_on_to_64_owners(rt: HostRuntime) -> Result<(), Fail> {
    check_recalled(rt.alloc(), &mut MemKeep::new(rt.alloc()))?;
    check_recalled(rt.alloc(), &mut bare_tables(rt.alloc())?)?;
    check_recalled(rt.alloc(), &mut empty_tables(rt.alloc())?)
}
