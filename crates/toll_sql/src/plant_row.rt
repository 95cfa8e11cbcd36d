//! Owners and units in the tables.
ghost use Rattle.std.specs.Prelude.{◌≡◌, ◌≢◌, None, IfSome};
ghost use Rattle.toll_sql.specs.Cells.{columns_from};
ghost use Rattle.toll_sql.specs.Kinds.{PlantKind, owner_kind, unit_kind};
ghost use Rattle.toll_sql.specs.Schema.{width_of};

use crate::cells::{key_at, name_at};
use crate::table_kind::TableKind;
use sqlite::Row as Stored;
use toll_base::{OwnerRow, UnitRow};

/// A row of the plant in a table.
pub trait StoredPlantRow: Copy {
    // The kind of such rows.
    ghost kind: { PlantKind Self };

    /// The table.
    fn table() -> TableKind
        ensures { result ≡ kind.table };

    /// The row that has these cells: `None` if no row has them.
    fn read(from: &Stored) -> Option<Self>
        ensures some { IfSome result (λ x. columns_from 0 (width_of kind.table) from.now ≡ kind.cells x) }
        ensures valid { IfSome result kind.is_valid }
        ensures none { result ≡ None → (x : Self) → kind.is_valid x → from.now ≢ kind.cells x };
}

impl StoredPlantRow for OwnerRow {
    ghost kind = { owner_kind };

    fn table() -> TableKind {
        TableKind::Owners
    }

    fn read(from: &Stored) -> Option<Self> {
        Some(OwnerRow {
            owner: name_at(from, 0)?,
            key: key_at(from, 1)?,
        })
    }
}

impl StoredPlantRow for UnitRow {
    ghost kind = { unit_kind };

    fn table() -> TableKind {
        TableKind::Units
    }

    fn read(from: &Stored) -> Option<Self> {
        Some(UnitRow {
            unit: name_at(from, 0)?,
        })
    }
}
