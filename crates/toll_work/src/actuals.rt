//! Actuals.
ghost use Rattle.std.specs.Prelude.{◌≡◌, true, false, ◌++◌, nat_lt, Some, None, IfOk, IfSome};
ghost use Rattle.toll_work.specs.Common.{same_bytes, changes_of, recipe_at, KeepsRules, is_some_where, Record, by, DecidesWith, DecisionKeepsRules, verdict_of_result, sublot_named, PutsOnlyWith, facts_of, verdict_of_checks, recipe_of_order, tables_for, actuals_full, is_actual};
ghost use Rattle.toll_base.specs.declared.movement.Move.TheVariants as Move;
ghost use Rattle.toll_base.specs.declared.role.Role.TheVariants as Role;
ghost use Rattle.toll_history.specs.Verdict as verdict;
ghost use Rattle.toll_work.specs.ActualPlans.{IsConsumptionPlan, IsProductionPlan, recipe_checks_of, running_checks, source_checks, target_checks, use_checks};

use crate::crossing::crosses;
use std::alloc::{AllocError, Global};
use toll_base::{
    Amount, BatchNo, Change, Decision, Disposition, LotId, LotRow, MOST_ACTUALS, MOST_LOTS,
    MOST_MOVEMENTS, Move, MoveRow, Name, Origin, Refusal, Role, Row, Segment, Slice, State,
};
use toll_history::{decide_known, has_room_in, sublot_gaining, sublot_losing};

/// What a segment of a batch uses.
#[derive(Clone, Copy)]
pub struct ActualUse {
    pub order: Name,
    pub number: BatchNo,
    pub segment: Segment,
    pub material: Name,
    pub lot: LotId,
    pub sublot: Name,
}

/// In which role an actual uses what; `None` of another movement.
pub fn use_of(what: &Move) -> Option<(Role, ActualUse)>
    ensures actual { IfSome result (λ used. what.now ≡ Move.Actual used.1.order used.1.number used.1.segment used.0 used.1.material used.1.lot used.1.sublot) }
    ensures other { result ≡ None → is_actual what.now ≡ false }
{
    match *what {
        Move::Actual {
            order,
            number,
            segment,
            role,
            material,
            lot,
            sublot,
        } => {
            let used = ActualUse {
                order,
                number,
                segment,
                material,
                lot,
                sublot,
            };
            Some((role, used))
        }
        _ => None,
    }
}

/// Records an actual of a batch of `own`'s owner: it consumes from a sublot of the owner's or of
/// HOUSE's, or produces into one of the owner's. If the owner is HOUSE both slices are HOUSE's.
///
/// A known key with equal content is repeated, or [`Refusal::Voided`], with other content
/// [`Refusal::KeyConflict`]. Then [`Refusal::UnknownOrder`], [`Refusal::UnknownBatch`],
/// [`Refusal::BatchClosed`], [`Refusal::BatchIdle`], [`Refusal::BadSegment`],
/// [`Refusal::CrossOwner`] and [`Refusal::NotInRecipe`]. A consumption is then refused as
/// [`Refusal::UnknownLot`], [`Refusal::WrongMaterial`], [`Refusal::NotReleased`],
/// [`Refusal::UnknownSublot`] or [`Refusal::NotEnough`], a production into a known lot as
/// [`Refusal::WrongOrigin`], [`Refusal::WrongMaterial`] or [`Refusal::NotQuarantined`]; and
/// [`Refusal::LimitReached`] at [`MOST_MOVEMENTS`] movements, [`MOST_ACTUALS`] actuals of the batch or
/// [`MOST_LOTS`] lots. It fails only if memory runs out.
pub fn record_actual(
    alloc: Global,
    own: &Slice,
    house: &Slice,
    row: MoveRow,
) -> Result<Decision, AllocError>
    requires { is_actual row.what ≡ true }
    ensures decides { IfOk result (DecidesWith (by own.now.owner (Record row)) own.now house.now) }
    ensures rules { IfOk result (DecisionKeepsRules own.now) }
    ensures house_rules { same_bytes own.now.owner house.now.owner ≡ false → IfOk result (DecisionKeepsRules house.now) }
    ensures own { IfOk result (λ d. PutsOnlyWith own.now.owner (sublot_named row.what) (changes_of d)) }
{
    // The rules hold of HOUSE's slice too.
    let _house = house.owner();
    match use_of(&row.what) {
        Some((Role::Consumed, used)) => plan_consumption(alloc, own, house, &row, &used),
        Some((Role::Produced, used)) => plan_production(alloc, own, &row, &used),
        None => unreachable!(),
    }
}

fn plan_consumption(
    alloc: Global,
    own: &Slice,
    house: &Slice,
    row: &MoveRow,
    used: &ActualUse,
) -> Result<Decision, AllocError>
    ensures plan { IfOk result (IsConsumptionPlan own.now house.now row.now used.now) }
    ensures kept { KeepsRules own.now }
    ensures house_kept { KeepsRules house.now }
{
    let owner = *own.owner();
    let _house = house.owner();
    if let Some(known) = decide_known(own, row) {
        return Ok(known);
    }
    let source = slice_for(own, house, &used.lot.owner);
    if let Err(why) = check_consumption(own, source, used, row.amount) {
        return Ok(Decision::Refuse(why));
    }
    let left = sublot_losing(source, used.lot.lot, used.sublot, row.amount);
    // The movement is the batch's owner's, even if the lot is HOUSE's.
    let recorded = Change::Put(owner, Row::Move(*row));
    Decision::accept_all(
        alloc,
        &[recorded, Change::Put(used.lot.owner, Row::Sublot(left))],
    )
}

fn plan_production(
    alloc: Global,
    own: &Slice,
    row: &MoveRow,
    used: &ActualUse,
) -> Result<Decision, AllocError>
    ensures plan { IfOk result (IsProductionPlan own.now row.now used.now) }
    ensures kept { KeepsRules own.now }
{
    let owner = *own.owner();
    if let Some(repeated) = decide_known(own, row) {
        return Ok(repeated);
    }
    if let Err(why) = check_production(own, used, row.amount) {
        return Ok(Decision::Refuse(why));
    }
    let moved = Change::Put(owner, Row::Move(*row));
    let gaining = sublot_gaining(own, used.lot.lot, used.sublot, row.amount);
    let gained = Change::Put(owner, Row::Sublot(gaining));
    if own.lot(&used.lot.lot).is_some() {
        return Decision::accept_all(alloc, &[moved, gained]);
    }
    let lot = LotRow {
        lot: used.lot.lot,
        material: used.material,
        origin: Origin::Batch {
            order: used.order,
            number: used.number,
        },
        disposition: Disposition::Quarantined,
    };
    Decision::accept_all(alloc, &[moved, Change::Put(owner, Row::Lot(lot)), gained])
}

/// The rows of this owner, which is the owner or HOUSE.
pub fn slice_for<'a>(own: &'a Slice, house: &'a Slice, owner: &Name) -> &'a Slice
    ensures { facts_of result.now ≡ tables_for own.now.owner (facts_of own.now) (facts_of house.now) owner.now }
{
    if *owner == *own.owner() { own } else { house }
}

fn check_consumption(
    own: &Slice,
    source: &Slice,
    used: &ActualUse,
    amount: Amount,
) -> Result<(), Refusal>
    ensures { verdict_of_result result
        ≡ verdict_of_checks (use_checks own.now used.now Role.Consumed ++ source_checks own.now (facts_of source.now) used.now amount) }
{
    check_use(own, used, Role::Consumed)?;
    check_source(own, source, used, amount)
}

fn check_production(own: &Slice, used: &ActualUse, amount: Amount) -> Result<(), Refusal>
    ensures { verdict_of_result result ≡ verdict_of_checks (use_checks own.now used.now Role.Produced ++ target_checks own.now used.now amount) }
{
    check_use(own, used, Role::Produced)?;
    check_target(own, used, amount)
}

// Whether the batch takes actuals, and its recipe this one.
fn check_use(own: &Slice, used: &ActualUse, role: Role) -> Result<(), Refusal>
    ensures { verdict_of_result result ≡ verdict_of_checks (use_checks own.now used.now role) }
{
    let recipe = check_running(own, &used.order, used.number)?;
    check_in_recipe(own, &recipe, used, role)
}

// The recipe of the batch, if it takes actuals.
fn check_running(own: &Slice, order: &Name, number: BatchNo) -> Result<Name, Refusal>
    ensures checks { verdict_of_result result ≡ verdict_of_checks (running_checks own.now order.now number) }
    ensures recipe { IfOk result (λ recipe. recipe ≡ recipe_of_order (facts_of own.now) order.now) }
{
    let Some(known) = own.order(order) else {
        return Err(Refusal::UnknownOrder);
    };
    let Some(batch) = own.batch(order, number) else {
        return Err(Refusal::UnknownBatch);
    };
    if batch.closed {
        return Err(Refusal::BatchClosed);
    }
    if matches!(batch.state, State::Idle) {
        return Err(Refusal::BatchIdle);
    }
    Ok(known.recipe)
}

// Whether the recipe has this use.
fn check_in_recipe(own: &Slice, recipe: &Name, used: &ActualUse, role: Role) -> Result<(), Refusal>
    ensures { verdict_of_result result ≡ verdict_of_checks (recipe_checks_of own.now recipe.now used.now role) }
{
    if is_above(own, recipe, used.segment) {
        return Err(Refusal::BadSegment);
    }
    if crosses(own.owner(), role, &used.lot.owner) {
        return Err(Refusal::CrossOwner);
    }
    let key = (*recipe, used.segment, role, used.lot.owner, used.material);
    if own.requirement(&key).is_none() {
        return Err(Refusal::NotInRecipe);
    }
    Ok(())
}

// Whether the segment is above those of the recipe.
fn is_above(own: &Slice, recipe: &Name, segment: Segment) -> bool
    ensures { result ≡ is_some_where (λ row. nat_lt row.segments segment) (recipe_at own.now recipe.now) }
{
    match own.recipe(recipe) {
        Some(row) => row.segments < segment,
        None => false,
    }
}

// Whether the sublot has what is consumed from it.
fn check_source(
    own: &Slice,
    source: &Slice,
    used: &ActualUse,
    amount: Amount,
) -> Result<(), Refusal>
    ensures { verdict_of_result result ≡ verdict_of_checks (source_checks own.now (facts_of source.now) used.now amount) }
{
    let Some(lot) = source.lot(&used.lot.lot) else {
        return Err(Refusal::UnknownLot);
    };
    if lot.material != used.material {
        return Err(Refusal::WrongMaterial);
    }
    if !matches!(lot.disposition, Disposition::Released) {
        return Err(Refusal::NotReleased);
    }
    if source.sublot(&used.lot.lot, &used.sublot).is_none() {
        return Err(Refusal::UnknownSublot);
    }
    if source.amount_in(&used.lot.lot, &used.sublot) < amount.get() {
        return Err(Refusal::NotEnough);
    }
    if is_full(own, used) {
        return Err(Refusal::LimitReached);
    }
    Ok(())
}

// Whether the sublot takes what is produced into it.
fn check_target(own: &Slice, used: &ActualUse, amount: Amount) -> Result<(), Refusal>
    ensures { verdict_of_result result ≡ verdict_of_checks (target_checks own.now used.now amount) }
{
    if let Some(lot) = own.lot(&used.lot.lot) {
        if !is_made_by(&lot.origin, &used.order, used.number) {
            return Err(Refusal::WrongOrigin);
        }
        if lot.material != used.material {
            return Err(Refusal::WrongMaterial);
        }
        if !matches!(lot.disposition, Disposition::Quarantined) {
            return Err(Refusal::NotQuarantined);
        }
    } else if own.lots().len() >= MOST_LOTS {
        return Err(Refusal::LimitReached);
    }
    if is_full(own, used)
        || own.material(&used.material).is_none()
        || !has_room_in(own, &used.lot.lot, &used.sublot, amount)
    {
        return Err(Refusal::LimitReached);
    }
    Ok(())
}

// Whether one actual more is above a limit.
fn is_full(own: &Slice, used: &ActualUse) -> bool
    ensures { result ≡ actuals_full (facts_of own.now) used.now.order used.now.number }
{
    own.moves().len() >= MOST_MOVEMENTS
        || own.count_actuals(&used.order, used.number) >= MOST_ACTUALS
}

// Whether the lot is of this batch.
fn is_made_by(origin: &Origin, order: &Name, number: BatchNo) -> bool
    ensures { result ≡ verdict.is_made_by order.now number origin.now }
{
    match origin {
        Origin::Receipts => false,
        Origin::Batch {
            order: of,
            number: n,
        } => *of == *order && *n == number,
    }
}
