//! A lot with its results and its sublots.
ghost use Rattle.std.specs.Prelude.{◌≡◌, true, is_some, IfOk};
ghost use Rattle.toll_answers.specs.Common.{pair_cmp, result_cmp, lot_at, material_at, IsInKeyOrder, History, IsRowsOf, lot_row, IsLawful};
ghost use Rattle.toll_answers.specs.InSlice.{measure_in, IsLotViewIn};
ghost use Rattle.toll_answers.specs.Views.{IsLotViewOf};

use std::alloc::{AllocError, Global};
use toll_base::{LotRow, Measure, Name, ResultRow, Slice, SublotRow};
use toll_stock::{results_of, sublots_of};

/// A lot, the measure of its material, its results by test and number, and its sublots by name.
#[derive(Drop)]
pub struct LotView {
    pub row: LotRow,
    pub measure: Measure,
    pub results: Vec<ResultRow>,
    pub sublots: Vec<SublotRow>,
}

/// The lot of the slice's owner, with its results and its sublots; `None` if the owner has no such
/// lot. It fails only if memory runs out.
pub fn lot_view(alloc: Global, slice: &Slice, lot: &Name) -> Result<Option<LotView>, AllocError>
    ensures in_slice { IfOk result (IsLotViewIn slice.now (lot_at slice.now lot.now)) }
    ensures over { (H : History) → IsLawful H → IsRowsOf H slice.now
        → IfOk result (IsLotViewOf H slice.now.owner (lot_row H slice.now.owner lot.now)) }
{
    view_in_slice(alloc, slice, lot)
}

fn view_in_slice(alloc: Global, slice: &Slice, lot: &Name) -> Result<Option<LotView>, AllocError>
    ensures view { IfOk result (IsLotViewIn slice.now (lot_at slice.now lot.now)) }
    ensures results { IsInKeyOrder result_cmp
        (λ row. (row.lot, row.test, row.number)) slice.now.results }
    ensures sublots { IsInKeyOrder pair_cmp (λ row. (row.lot, row.sublot)) slice.now.sublots }
{
    // For the proof: reading the owner shows the slice's rules and the order of its rows.
    let _owner = slice.owner();
    let _results = slice.results();
    let _sublots = slice.sublots();
    let Some(row) = slice.lot(lot) else {
        return Ok(None);
    };
    let results = results_of(slice, &row.lot).to_vec(alloc)?;
    let sublots = sublots_of(slice, &row.lot).to_vec(alloc)?;
    Ok(Some(LotView {
        row,
        measure: measure_of(slice, &row),
        results,
        sublots,
    }))
}

/// The measure of the lot's material.
pub(crate) fn measure_of(slice: &Slice, row: &LotRow) -> Measure
    requires { is_some (material_at slice.now row.now.material) ≡ true }
    ensures { result ≡ measure_in slice.now row.now.material }
{
    match slice.material(&row.material) {
        Some(material) => material.measure,
        None => unreachable!(),
    }
}
