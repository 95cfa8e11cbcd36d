//! Rows of an owner in a table.
ghost use Rattle.std.specs.Prelude.{◌≡◌, ◌≢◌, None, IfSome};
ghost use Rattle.sqlite.specs.Order.{column};
ghost use Rattle.sqlite.specs.declared.types.Value.TheVariants.{Text};
ghost use Rattle.toll_base.specs.Bytes.{Bytes};
ghost use Rattle.toll_sql.specs.Cells.{columns_from};
ghost use Rattle.toll_sql.specs.Kinds.{RowKind};
ghost use Rattle.toll_sql.specs.Schema.{width_of};

use sqlite::Row as Stored;
use toll_base::Row as AnyRow;

/// A row of an owner in a table.
pub trait StoredRow: Copy {
    // The kind of such rows.
    ghost kind: { RowKind Self };

    /// The row, whatever its kind.
    fn into_row(self) -> AnyRow
        ensures { result ≡ kind.any_row self };

    /// The row that has these cells: `None` if no row has them.
    fn read(from: &Stored) -> Option<Self>
        ensures some { (o : Bytes) → column from.now 0 ≡ Text o → IfSome result (λ x. columns_from 0 (width_of kind.table) from.now ≡ kind.cells o x) }
        ensures valid { IfSome result kind.is_valid }
        ensures none { result ≡ None → (o : Bytes) (x : Self) → kind.is_valid x → from.now ≢ kind.cells o x };
}
