//! Edges of genealogy, read from rows.
ghost use Rattle.std.specs.Prelude.{◌≡◌, None, IfSome};
ghost use Rattle.toll_sql.specs.Cells.{columns_from};
ghost use Rattle.toll_sql.specs.EdgeRows.{IsNamedEdge, ShowsNoEdge, edge_cells};

use crate::cells::lot_at;
use sqlite::Row;
use toll_base::Edge;

/// The edge in the row: from the lot in its first two columns to the one in the next two. `None` if the
/// row has no edge.
pub fn edge_at(row: &Row) -> Option<Edge>
    ensures some { IfSome result (λ e. columns_from 0 4 row.now ≡ edge_cells e) }
    ensures valid { IfSome result IsNamedEdge }
    ensures none { result ≡ None → ShowsNoEdge row.now }
{
    Some(Edge {
        from: lot_at(row, 0, 1)?,
        to: lot_at(row, 2, 3)?,
    })
}
