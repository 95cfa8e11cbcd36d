//! Lots, sublots and results in the tables.
ghost use Rattle.toll_sql.specs.Kinds.{lot_kind, sublot_kind, result_kind};

use crate::cells::{bounded_at, disposition_at, name_at, number_at, origin_at, value_at};
use crate::stored::StoredRow;
use sqlite::Row as Stored;
use toll_base::{LotRow, ResultRow, Row, SublotRow};

impl StoredRow for LotRow {
    ghost kind = { lot_kind };

    fn into_row(self) -> Row {
        Row::Lot(self)
    }

    fn read(from: &Stored) -> Option<Self> {
        Some(LotRow {
            lot: name_at(from, 1)?,
            material: name_at(from, 2)?,
            origin: origin_at(from, 3, 4)?,
            disposition: disposition_at(from, 5)?,
        })
    }
}

impl StoredRow for SublotRow {
    ghost kind = { sublot_kind };

    fn into_row(self) -> Row {
        Row::Sublot(self)
    }

    fn read(from: &Stored) -> Option<Self> {
        Some(SublotRow {
            lot: name_at(from, 1)?,
            sublot: name_at(from, 2)?,
            amount: number_at(from, 3)?,
        })
    }
}

impl StoredRow for ResultRow {
    ghost kind = { result_kind };

    fn into_row(self) -> Row {
        Row::Result(self)
    }

    fn read(from: &Stored) -> Option<Self> {
        Some(ResultRow {
            lot: name_at(from, 1)?,
            test: name_at(from, 2)?,
            number: number_at(from, 3)?,
            value: value_at(from, 4)?,
            day: bounded_at(from, 5)?,
        })
    }
}
