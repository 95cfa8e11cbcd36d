//! Orders and batches in the tables.
ghost use Rattle.toll_sql.specs.Kinds.{order_kind, batch_kind};

use crate::cells::{bounded_at, flag_at, name_at, state_at};
use crate::stored::StoredRow;
use sqlite::Row as Stored;
use toll_base::{BatchRow, OrderRow, Row};

impl StoredRow for OrderRow {
    ghost kind = { order_kind };

    fn into_row(self) -> Row {
        Row::Order(self)
    }

    fn read(from: &Stored) -> Option<Self> {
        Some(OrderRow {
            order: name_at(from, 1)?,
            recipe: name_at(from, 2)?,
            batches: bounded_at(from, 3)?,
            cancelled: flag_at(from, 4)?,
        })
    }
}

impl StoredRow for BatchRow {
    ghost kind = { batch_kind };

    fn into_row(self) -> Row {
        Row::Batch(self)
    }

    fn read(from: &Stored) -> Option<Self> {
        Some(BatchRow {
            order: name_at(from, 1)?,
            number: bounded_at(from, 2)?,
            unit: name_at(from, 3)?,
            state: state_at(from, 4)?,
            closed: flag_at(from, 5)?,
        })
    }
}
