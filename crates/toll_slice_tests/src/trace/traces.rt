//! Traces, by both bodies.
use std::alloc::{AllocError, Global};
use std::test::Fail;
use toll_base::{Edge, LotId, Name, Refusal};
use toll_trace::{Graph, Step, Way, plain_trace};

/// A lot of ACME.
fn lot(name: &[u8]) -> Result<LotId, Refusal> {
    Ok(LotId {
        owner: Name::parse(b"ACME")?,
        lot: Name::parse(name)?,
    })
}

/// Edges between lots of ACME with names of one letter.
fn edges_between(alloc: Global, pairs: &[(u8, u8)]) -> Result<Vec<Edge>, Fail> {
    let mut edges = Vec::new(alloc);
    for (from, to) in pairs {
        let from = lot(&[*from])?;
        let to = lot(&[*to])?;
        edges.push(Edge { from, to })?;
    }
    Ok(edges)
}

fn traced(alloc: Global, edges: &[Edge], from: &LotId, way: Way) -> Result<Vec<Step>, AllocError> {
    Graph::build(alloc, edges)?.trace(alloc, from, way)
}

fn is_step(step: &Step, (steps, letter): &(u64, u8)) -> bool {
    step.steps == *steps
        && step.lot.owner.as_bytes() == b"ACME".as_slice()
        && step.lot.lot.as_bytes() == [*letter].as_slice()
}

/// Whether the trace has these steps, each with the letter of its lot.
fn is_trace(trace: &[Step], wanted: &[(u64, u8)]) -> bool {
    let mut pairs = trace.iter().zip(wanted);
    trace.len() == wanted.len() && pairs.all(|(step, reported)| is_step(step, reported))
}

/// Edges, a way, and the steps of the trace that goes this way along them from the lot A.
type Line = (&'static [(u8, u8)], Way, &'static [(u64, u8)]);

/// Whether both bodies answer the steps.
fn is_answered(alloc: Global, line: &Line) -> Result<bool, Fail> {
    let (pairs, way, wanted) = *line;
    let edges = edges_between(alloc, pairs)?;
    let from = lot(b"A")?;
    let is_told = is_trace(&plain_trace(alloc, &edges, &from, way)?, wanted);
    Ok(is_told && is_trace(&traced(alloc, &edges, &from, way)?, wanted))
}

const DIAMOND: &[(u8, u8)] = &[(b'A', b'B'), (b'B', b'C'), (b'C', b'D'), (b'A', b'D')];

const BY_THE_FEWEST_EDGES: &[Line] = &[
    (
        DIAMOND,
        Way::Forward,
        &[(0, b'A'), (1, b'B'), (1, b'D'), (2, b'C')],
    ),
    (DIAMOND, Way::Back, &[(0, b'A')]),
];

#[test]
fn traces_by_the_fewest_edges(rt: HostRuntime) -> Result<(), Fail> {
    for line in BY_THE_FEWEST_EDGES {
        let answered = is_answered(rt.alloc(), line)?;
        assert!(rt; answered, "{line:?}");
    }
    Ok(())
}

const LOOP: &[(u8, u8)] = &[(b'A', b'A')];

const CYCLE: &[(u8, u8)] = &[(b'Q', b'A'), (b'A', b'Q'), (b'Q', b'A')];

const THROUGH_LOOPS_AND_CYCLES: &[Line] = &[
    (&[], Way::Forward, &[(0, b'A')]),
    (&[], Way::Back, &[(0, b'A')]),
    (LOOP, Way::Forward, &[(0, b'A')]),
    (LOOP, Way::Back, &[(0, b'A')]),
    (CYCLE, Way::Forward, &[(0, b'A'), (1, b'Q')]),
    (CYCLE, Way::Back, &[(0, b'A'), (1, b'Q')]),
];

#[test]
fn traces_through_loops_and_cycles(rt: HostRuntime) -> Result<(), Fail> {
    for line in THROUGH_LOOPS_AND_CYCLES {
        let answered = is_answered(rt.alloc(), line)?;
        assert!(rt; answered, "{line:?}");
    }
    Ok(())
}

/// The lot with this number of a ring of a thousand lots.
fn ring_lot(alloc: Global, number: u64) -> Result<LotId, Fail> {
    let name = format!(in alloc; "L-{number}")?;
    Ok(lot(name.as_bytes())?)
}

fn ring_edge(alloc: Global, number: u64) -> Result<Edge, Fail> {
    let from = ring_lot(alloc, number)?;
    let to = ring_lot(alloc, number % 1000 + 1)?;
    Ok(Edge { from, to })
}

fn ring(alloc: Global) -> Result<Vec<Edge>, Fail> {
    let mut edges = Vec::new(alloc);
    for number in 1..1001u64 {
        edges.push(ring_edge(alloc, number)?)?;
    }
    Ok(edges)
}

fn ring_trace(alloc: Global, way: Way) -> Result<Vec<Step>, Fail> {
    let edges = ring(alloc)?;
    let from = ring_lot(alloc, 1)?;
    Ok(traced(alloc, &edges, &from, way)?)
}

/// How far the trace goes round the ring, each lot one step after the one before it.
fn count_round(alloc: Global, trace: &[Step], way: Way) -> Result<u64, Fail> {
    let mut at = 0;
    for step in trace {
        let number = match way {
            Way::Forward => at % 1000 + 1,
            Way::Back => (1000 - at % 1000) % 1000 + 1,
        };
        let lot = ring_lot(alloc, number)?;
        if step.steps != at || step.lot != lot {
            return Ok(at);
        }
        at = at.saturating_add(1);
    }
    Ok(at)
}

/// How many lots the trace has that goes this way round the ring, and how far it goes.
fn go_round(alloc: Global, way: Way) -> Result<(usize, u64), Fail> {
    let trace = ring_trace(alloc, way)?;
    Ok((trace.len(), count_round(alloc, &trace, way)?))
}

#[test]
fn goes_round_a_ring_both_ways(rt: HostRuntime) -> Result<(), Fail> {
    let gone = (
        go_round(rt.alloc(), Way::Forward)?,
        go_round(rt.alloc(), Way::Back)?,
    );
    assert_eq!(rt; gone, ((1000, 1000), (1000, 1000)));
    Ok(())
}
