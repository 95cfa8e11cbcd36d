//! Rows that are put, and what is counted of them.
use std::alloc::Global;
use std::test::Fail;
use toll_base::{
    Amount, BatchNo, BatchRow, Change, Day, Edge, LotId, Move, MoveRow, Name, OwnerKey, OwnerRow,
    Role, Row, Segment, State, UnitRow,
};
use toll_keep::Keep;

/// ACME, with its key.
pub(crate) fn acme() -> Result<OwnerRow, Fail> {
    Ok(OwnerRow {
        owner: Name::parse(b"ACME")?,
        key: OwnerKey::parse(b"ACMEKEY1")?,
    })
}

/// Batch 1 of the order O, on the unit U.
pub(crate) fn batch() -> Result<BatchRow, Fail> {
    Ok(BatchRow {
        order: Name::parse(b"O")?,
        number: BatchNo::new(1)?,
        unit: Name::parse(b"U")?,
        state: State::Idle,
        closed: false,
    })
}

/// That batch consumes or produces this lot of ACME, in segment 1.
pub(crate) fn actual(key: &[u8], role: Role, lot: LotId) -> Result<Row, Fail> {
    actual_in(key, 1, role, lot)
}

/// The same in this segment.
pub(crate) fn actual_in(key: &[u8], segment: u64, role: Role, lot: LotId) -> Result<Row, Fail> {
    let batch = batch()?;
    Ok(Row::Move(MoveRow {
        key: Name::parse(key)?,
        what: Move::Actual {
            order: batch.order,
            number: batch.number,
            segment: Segment::new(segment)?,
            role,
            material: lot.lot,
            lot,
            sublot: lot.lot,
        },
        amount: Amount::new(1)?,
        day: Day::new(0)?,
    }))
}

/// An edge from the lot IN to the lot OUT, both of ACME.
pub(crate) fn edge() -> Result<Edge, Fail> {
    let owner = Name::parse(b"ACME")?;
    Ok(Edge {
        from: LotId {
            owner,
            lot: Name::parse(b"IN")?,
        },
        to: LotId {
            owner,
            lot: Name::parse(b"OUT")?,
        },
    })
}

/// Puts ACME, the unit U, a batch on it, and what it consumed and produced.
pub(crate) fn fill_all<K: Keep>(alloc: Global, keep: &mut K) -> Result<(), Fail> {
    let acme = acme()?;
    let batch = batch()?;
    let unit = UnitRow { unit: batch.unit };
    keep.apply(alloc, &[Change::Owner(acme), Change::Unit(unit)])?;
    fill(alloc, keep, &acme.owner, batch)
}

/// Puts the batch, and what it consumed and produced.
pub(crate) fn fill<K: Keep>(
    alloc: Global,
    keep: &mut K,
    owner: &Name,
    batch: BatchRow,
) -> Result<(), Fail> {
    let edge = edge()?;
    let consumed = actual(b"K1", Role::Consumed, edge.from)?;
    let produced = actual(b"K2", Role::Produced, edge.to)?;
    let changes = [
        Change::Put(*owner, Row::Batch(batch)),
        Change::Put(*owner, consumed),
        Change::Put(*owner, produced),
    ];
    Ok(keep.apply(alloc, &changes)?)
}

/// The batches and the movements of the owner, if it is known.
pub(crate) fn counts<K: Keep>(
    alloc: Global,
    keep: &mut K,
    owner: &Name,
) -> Result<Option<(usize, usize)>, Fail> {
    Ok(
        keep.slice(alloc, owner)?
            .map(|slice| (slice.batches().len(), slice.moves().len())),
    )
}
