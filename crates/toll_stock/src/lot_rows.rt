//! The rows of one lot, which are next to each other, because rows are in the order of their keys.
ghost use Rattle.std.specs.Prelude.{◌≡◌, filter};
ghost use Rattle.std.specs.List.Sorted.{IsSortedByKey};
ghost use Rattle.toll_stock.specs.Common.{Bytes, bytes_cmp, same_bytes, pair_cmp, IsInKeyOrder};

use toll_base::{Name, ResultRow, Slice, SublotRow};

/// A row of a lot.
trait OfLot: Copy {
    ghost lot_of: { Self → Bytes };

    fn lot(&self) -> Name
        ensures { result ≡ lot_of self.now };
}

impl OfLot for SublotRow {
    ghost lot_of = { λ row. row.lot };

    fn lot(&self) -> Name {
        self.lot
    }
}

impl OfLot for ResultRow {
    ghost lot_of = { λ row. row.lot };

    fn lot(&self) -> Name {
        self.lot
    }
}

/// The sublots of the lot, in the order of their names.
pub fn sublots_of<'a>(slice: &'a Slice, lot: &Name) -> &'a [SublotRow]
    ensures rows { result.now ≡ filter (λ row. same_bytes row.lot lot.now) slice.now.sublots }
    ensures order { IsInKeyOrder pair_cmp (λ row. (row.lot, row.sublot)) slice.now.sublots }
{
    rows_of(slice.sublots(), lot)
}

/// The results of the lot, by their test and number.
pub fn results_of<'a>(slice: &'a Slice, lot: &Name) -> &'a [ResultRow]
    ensures rows { result.now ≡ filter (λ row. same_bytes row.lot lot.now) slice.now.results }
{
    rows_of(slice.results(), lot)
}

// The rows of the lot, found by halving.
fn rows_of<'a, R: OfLot>(rows: &'a [R], lot: &Name) -> &'a [R]
    requires { IsSortedByKey R.lot_of bytes_cmp rows.now }
    ensures { result.now ≡ filter (λ row. same_bytes (R.lot_of row) lot.now) rows.now }
{
    let start = rows.partition_point(|row| row.lot().cmp(lot).is_lt());
    let end = rows.partition_point(|row| row.lot().cmp(lot).is_le());
    &rows[start..end]
}
