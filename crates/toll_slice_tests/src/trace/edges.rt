//! Edges that the actuals of a slice draw.
use crate::rows::{name, put};
use std::alloc::Global;
use std::test::Fail;
use toll_base::{
    Amount, BatchNo, Day, Edge, LotId, Move, MoveRow, Refusal, Role, Row, Segment, Slice, VoidRow,
};
use toll_trace::edges_of;

/// An owner's lot.
type Named = (&'static str, &'static str);

/// An actual: its key, its batch of the order O, its segment, its role, and its lot.
type Recorded = (&'static str, u64, u64, Role, Named);

fn lot_of((owner, lot): Named) -> LotId {
    LotId {
        owner: name(owner),
        lot: name(lot),
    }
}

fn movement((key, number, segment, role, lot): Recorded) -> Result<MoveRow, Refusal> {
    Ok(MoveRow {
        key: name(key),
        what: Move::Actual {
            order: name("O"),
            number: BatchNo::new(number)?,
            segment: Segment::new(segment)?,
            role,
            material: name("M"),
            lot: lot_of(lot),
            sublot: name("S"),
        },
        amount: Amount::new(10)?,
        day: Day::new(2)?,
    })
}

fn put_movement(slice: &mut Slice, recorded: Recorded) -> Result<(), Fail> {
    let movement = movement(recorded)?;
    put(slice, Row::Move(movement))
}

fn record_all(slice: &mut Slice, actuals: &[Recorded]) -> Result<(), Fail> {
    for recorded in actuals {
        put_movement(slice, *recorded)?;
    }
    Ok(())
}

fn void_all(slice: &mut Slice, keys: &[&str]) -> Result<(), Fail> {
    for key in keys {
        put(slice, Row::Void(VoidRow { key: name(key) }))?;
    }
    Ok(())
}

/// Actuals of ACME, the keys of those that are voided, and the lots from which edges then lead to P1.
type Line = (
    &'static [Recorded],
    &'static [&'static str],
    &'static [Named],
);

fn edges(alloc: Global, slice: &mut Slice, line: &Line) -> Result<Vec<Edge>, Fail> {
    record_all(slice, line.0)?;
    void_all(slice, line.1)?;
    Ok(edges_of(alloc, slice)?)
}

/// Whether these are edges from these lots to P1, one of each.
fn lead_to_p1(edges: &[Edge], from: &[Named]) -> bool {
    let to = lot_of(("ACME", "P1"));
    let mut pairs = edges.iter().zip(from);
    edges.len() == from.len()
        && pairs.all(|(edge, named)| edge.from == lot_of(*named) && edge.to == to)
}

/// A batch of two segments: lots A and H-1 are consumed and P1 is produced in the first, B is
/// consumed in the second.
const BATCH: &[Recorded] = &[
    ("K3", 1, 1, Role::Consumed, ("ACME", "A")),
    ("K4", 1, 1, Role::Consumed, ("HOUSE", "H-1")),
    ("K5", 1, 1, Role::Produced, ("ACME", "P1")),
    ("K6", 1, 2, Role::Consumed, ("ACME", "B")),
];

/// Two batches: the first produces P1 twice, in its second segment, after it consumed A and B; the
/// second consumes C.
const TWO_BATCHES: &[Recorded] = &[
    ("K1", 1, 1, Role::Consumed, ("ACME", "A")),
    ("K2", 1, 2, Role::Consumed, ("ACME", "B")),
    ("K3", 1, 2, Role::Produced, ("ACME", "P1")),
    ("K4", 1, 2, Role::Produced, ("ACME", "P1")),
    ("K5", 2, 1, Role::Consumed, ("ACME", "C")),
];

const DRAWN: &[Line] = &[
    (BATCH, &[], &[("ACME", "A"), ("HOUSE", "H-1")]),
    (BATCH, &["K4"], &[("ACME", "A")]),
    (BATCH, &["K5"], &[]),
    (TWO_BATCHES, &[], &[("ACME", "A"), ("ACME", "B")]),
];

#[test]
fn draws_edges_within_a_batch(rt: HostRuntime) -> Result<(), Fail> {
    for line in DRAWN {
        let mut slice = Slice::new(rt.alloc(), name("ACME"));
        let edges = edges(rt.alloc(), &mut slice, line)?;
        assert!(rt; lead_to_p1(&edges, line.2), "where {:?} are voided", line.1);
    }
    Ok(())
}
