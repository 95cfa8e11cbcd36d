//! The view of a batch.
ghost use Rattle.std.specs.Prelude.{◌≡◌, ◌≤◌, length, IfOk, if◌then◌else◌};
ghost use Rattle.toll_work.specs.Common.{bytes_cmp, requirement_cmp, IsInKeyOrder, requirement_key};
ghost use Rattle.toll_history.specs.Amounts as amount;
ghost use Rattle.toll_work.specs.BatchView as views;

use std::alloc::{AllocError, Global};
use toll_base::{
    BatchNo, BatchRow, MOST_AMOUNT, MOST_MOVEMENTS, Move, MoveRow, Name, RequirementRow, Slice,
};

/// A requirement of a batch's recipe, and how much of it the batch did: the sum of its standing
/// actuals of the requirement's segment, role, source and material.
#[derive(Clone, Copy)]
pub struct RequirementLine {
    pub row: RequirementRow,
    pub actual: u64,
}

/// A batch, and the requirements of its order's recipe in the order of their keys.
#[derive(Drop)]
pub struct BatchView {
    pub row: BatchRow,
    pub lines: Vec<RequirementLine>,
}

/// The batch, with what it did of each requirement of its order's recipe; `None` if the order or
/// the batch is not known. It fails only if memory runs out.
pub fn batch_view(
    alloc: Global,
    slice: &Slice,
    order: &Name,
    number: BatchNo,
) -> Result<Option<BatchView>, AllocError>
    ensures in_slice { IfOk result (views.IsViewOfSlice slice.now order.now number) }
    ensures over_histories { IfOk result (views.IsViewOfHistories slice.now order.now number) }
{
    view_in_slice(alloc, slice, order, number)
}

fn view_in_slice(
    alloc: Global,
    slice: &Slice,
    order: &Name,
    number: BatchNo,
) -> Result<Option<BatchView>, AllocError>
    ensures view { IfOk result (views.IsViewOfSlice slice.now order.now number) }
    ensures moves { IsInKeyOrder bytes_cmp (λ row. row.key) slice.now.moves }
    ensures requirements { IsInKeyOrder requirement_cmp requirement_key slice.now.requirements }
{
    let _owner = slice.owner();
    let _moves = slice.moves();
    let _requirements = slice.requirements();
    let Some(known) = slice.order(order) else {
        return Ok(None);
    };
    let Some(row) = slice.batch(order, number) else {
        return Ok(None);
    };
    let actuals = standing_actuals(alloc, slice, order, number)?;
    let lines = lines(alloc, slice, &known.recipe, &actuals)?;
    Ok(Some(BatchView { row, lines }))
}

// The actuals of the batch that stand.
fn standing_actuals(
    alloc: Global,
    slice: &Slice,
    order: &Name,
    number: BatchNo,
) -> Result<Vec<MoveRow>, AllocError>
    ensures { IfOk result (λ actuals. actuals.items ≡ views.standing_in slice.now order.now number) }
{
    slice
        .moves()
        .iter()
        .copied()
        .filter(|row| row.is_actual_of(order, number) && !slice.is_voided(&row.key))
        .collect(alloc)
}

// The requirements of the recipe, each with what these actuals did of it.
fn lines(
    alloc: Global,
    slice: &Slice,
    recipe: &Name,
    actuals: &[MoveRow],
) -> Result<Vec<RequirementLine>, AllocError>
    requires { length actuals.now ≤ MOST_MOVEMENTS }
    ensures { IfOk result (λ lines. lines.items ≡ views.lines_in slice.now recipe.now actuals.now) }
{
    slice
        .requirements()
        .iter()
        .copied()
        .filter(|row| row.recipe == *recipe)
        .map(|row| line(row, actuals))
        .collect(alloc)
}

fn line(row: RequirementRow, actuals: &[MoveRow]) -> RequirementLine
    requires { length actuals.now ≤ MOST_MOVEMENTS }
    ensures { result ≡ views.line_for row actuals.now }
{
    RequirementLine {
        row,
        actual: amount_for(&row, actuals),
    }
}

// The sum of the amounts of those that meet the requirement.
fn amount_for(row: &RequirementRow, actuals: &[MoveRow]) -> u64
    requires { length actuals.now ≤ MOST_MOVEMENTS }
    ensures { result ≡ views.amount_for row.now actuals.now }
{
    let mut sum: u64 = 0;
    for actual in actuals {
        sum += amount_of(row, actual);
    }
    sum
}

// The movement's amount, if it meets the requirement.
fn amount_of(row: &RequirementRow, actual: &MoveRow) -> u64
    ensures amount { result ≡ if amount.meets_requirement row.now actual.now.what then actual.now.amount else 0 }
    ensures bound { result ≤ MOST_AMOUNT }
{
    if meets(row, &actual.what) {
        actual.amount.get()
    } else {
        0
    }
}

// Whether it is an actual of the requirement's segment, role, source and material.
fn meets(row: &RequirementRow, what: &Move) -> bool
    ensures { result ≡ amount.meets_requirement row.now what.now }
{
    match what {
        Move::Actual {
            segment,
            role,
            material,
            lot,
            ..
        } => {
            *segment == row.segment
                && *role == row.role
                && lot.owner == row.source
                && *material == row.material
        }
        _ => false,
    }
}
