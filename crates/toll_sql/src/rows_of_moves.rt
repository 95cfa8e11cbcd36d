//! Movements and voids in the tables.
ghost use Rattle.toll_sql.specs.Kinds.{move_kind, void_kind};

use crate::cells::{bounded_at, name_at};
use crate::move_cells::move_at;
use crate::stored::StoredRow;
use sqlite::Row as Stored;
use toll_base::{MoveRow, Row, VoidRow};

impl StoredRow for MoveRow {
    ghost kind = { move_kind };

    fn into_row(self) -> Row {
        Row::Move(self)
    }

    fn read(from: &Stored) -> Option<Self> {
        Some(MoveRow {
            key: name_at(from, 1)?,
            what: move_at(from)?,
            amount: bounded_at(from, 11)?,
            day: bounded_at(from, 12)?,
        })
    }
}

impl StoredRow for VoidRow {
    ghost kind = { void_kind };

    fn into_row(self) -> Row {
        Row::Void(self)
    }

    fn read(from: &Stored) -> Option<Self> {
        Some(VoidRow {
            key: name_at(from, 1)?,
        })
    }
}
