//! The genealogy of batches, read from the tables.
ghost use Rattle.std.specs.Prelude.{◌≡◌, ◌≢◌, [], Err, map, IfOk, IsTrue};
ghost use Rattle.sqlite.specs.Held.{state};
ghost use Rattle.sqlite.specs.State.{HasCleanDisk};
ghost use Rattle.toll_trace.specs.Edges.{AreEdges, IsEdge};
ghost use Rattle.toll_keep.specs.Holding.{IsEdgeOfSome};
ghost use Rattle.toll_sql.specs.AskedTexts.{all_text};
ghost use Rattle.toll_sql.specs.Asking.{IsLooking};
ghost use Rattle.toll_sql.specs.Cells.{columns_from};
ghost use Rattle.toll_sql.specs.EdgeRows.{AreEdgesOf, AreOwnersEdges, AreEdgesReadFrom, ForAllMoves, ForMoves, HasNoEdge, LacksAtEdge, edge_cells};

use crate::edge_cells::edge_at;
use crate::queries::{all_pairs, owners_pairs};
use crate::store_errors::MemoryLack;
use sqlite::{Alter, Connection, Row};
use std::alloc::Global;
use toll_base::{Edge, Name};
use toll_keep::KeepFault;
use toll_trace::put_in_order;

/// The genealogy of an owner's own batches, in order, each edge once: empty for an unknown owner. Only tests
/// run this join: programs follow edges with [`toll_keep::Keep::trace`].
///
/// Memory and Disk are faults of the store. Damaged is a row that shows no two lots with names. The edges are
/// those of all rows that the store gives, whatever its tables have. They are also those of the movements and
/// voids of this owner, whatever rows the tables have of others.
pub fn read_edges<S: Alter>(
    conn: &mut Connection<S>,
    lack: &mut MemoryLack,
    alloc: Global,
    owner: &Name,
) -> Result<Vec<Edge>, KeepFault>
    ensures looks { IsLooking (state S.Store conn.old) (state S.Store conn.new) result }
    ensures reads { ForMoves owner.now (state S.Store conn.old) (state S.Store conn.new) (λ s. IfOk result (λ edges. AreEdges (IsEdge s) edges.items)) }
    ensures shown { HasCleanDisk (state S.Store conn.new) → IfOk result (λ edges. AreOwnersEdges (state S.Store conn.old).now owner.now edges.items) }
    ensures whole { ForMoves owner.now (state S.Store conn.old) (state S.Store conn.new) (λ _. result ≢ Err KeepFault.Damaged) }
    ensures lack { result ≡ Err KeepFault.Memory → IsTrue lack.new.is_noted }
{
    match owners_pairs(conn, owner) {
        Ok(rows) => edges_shown(alloc, lack, &rows),
        Err(error) => Err(lack.fault_of(error)),
    }
}

/// The genealogy of all batches, in order, each edge once. Only tests run this join.
///
/// Memory and Disk are faults of the store. Damaged is a row that shows no two lots with names. The edges are
/// those of all rows that the store gives, whatever its tables have. They are also those of all movements and
/// voids, whatever other rows the tables have.
pub fn read_all_edges<S: Alter>(
    conn: &mut Connection<S>,
    lack: &mut MemoryLack,
    alloc: Global,
) -> Result<Vec<Edge>, KeepFault>
    ensures looks { IsLooking (state S.Store conn.old) (state S.Store conn.new) result }
    ensures reads { ForAllMoves (state S.Store conn.old) (state S.Store conn.new) (λ c. IfOk result (λ edges. AreEdges (IsEdgeOfSome c) edges.items)) }
    ensures shown { HasCleanDisk (state S.Store conn.new) → IfOk result (λ edges. AreEdgesOf (state S.Store conn.old).now all_text [] edges.items) }
    ensures whole { ForAllMoves (state S.Store conn.old) (state S.Store conn.new) (λ _. result ≢ Err KeepFault.Damaged) }
    ensures lack { result ≡ Err KeepFault.Memory → IsTrue lack.new.is_noted }
{
    match all_pairs(conn) {
        Ok(rows) => edges_shown(alloc, lack, &rows),
        Err(error) => Err(lack.fault_of(error)),
    }
}

// The edges in the rows, in order, each once.
fn edges_shown(alloc: Global, lack: &mut MemoryLack, rows: &[Row]) -> Result<Vec<Edge>, KeepFault>
    ensures read { IfOk result (λ edges. AreEdgesReadFrom rows.now edges.items) }
    ensures damaged { result ≡ Err KeepFault.Damaged → HasNoEdge rows.now }
    ensures lacks { LacksAtEdge rows.now result }
    ensures lack { result ≡ Err KeepFault.Memory → IsTrue lack.new.is_noted }
    ensures disk { result ≢ Err KeepFault.Disk }
    ensures closed { result ≢ Err KeepFault.Closed }
{
    let mut edges = edges_in(alloc, lack, rows)?;
    put_in_order(&mut edges);
    Ok(edges)
}

// The edge of each row.
fn edges_in(alloc: Global, lack: &mut MemoryLack, rows: &[Row]) -> Result<Vec<Edge>, KeepFault>
    ensures read { IfOk result (λ edges. map edge_cells edges.items ≡ map (columns_from 0 4) rows.now) }
    ensures damaged { result ≡ Err KeepFault.Damaged → HasNoEdge rows.now }
    ensures lacks { LacksAtEdge rows.now result }
    ensures lack { result ≡ Err KeepFault.Memory → IsTrue lack.new.is_noted }
    ensures disk { result ≢ Err KeepFault.Disk }
    ensures closed { result ≢ Err KeepFault.Closed }
{
    let mut edges = Vec::new(alloc);
    for row in rows {
        let Some(edge) = edge_at(row) else {
            return Err(KeepFault::Damaged);
        };
        lack.append(&mut edges, edge)?;
    }
    Ok(edges)
}
