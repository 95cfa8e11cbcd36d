//! Laws of all lawful histories: what holds of the rows that any accepted commands lead to.

ghost use Rattle.std.specs.List.{All};
ghost use Rattle.std.specs.Prelude.{◌≡◌, ℕ, ◌+◌, ◌-◌, ◌*◌, ◌≤◌, true, false, Some, None, is_some, ◌∷◌, if◌then◌else◌};
ghost use Rattle.toll_base.specs.Bytes.{Bytes, same_bytes};
ghost use Rattle.toll_base.specs.Keys.{RequirementKey};
ghost use Rattle.toll_base.specs.Lots.{lot_id};
ghost use Rattle.toll_base.specs.Words.{total, count, is_some_where};
ghost use Rattle.toll_base.specs.declared.bounded.TheConstants.{MOST_AMOUNT};
ghost use Rattle.toll_base.specs.declared.capacity.TheConstants.{MOST_OWNERS, MOST_STOCK, MOST_UNITS};
ghost use Rattle.toll_base.specs.declared.lot.Disposition.TheVariants.{Quarantined, Released};
ghost use Rattle.toll_base.specs.declared.lot.LotId.{LotId};
ghost use Rattle.toll_base.specs.declared.movement.MoveRow.{MoveRow};
ghost use Rattle.toll_base.specs.declared.rows.TestRow.{TestRow};
ghost use Rattle.toll_history.specs.Command.{Action, Record, Void, Command};
ghost use Rattle.toll_history.specs.Dispositions.{disposition_of, has_open_test, passes_test};
ghost use Rattle.toll_history.specs.History.{History, acts, count_owners, count_units};
ghost use Rattle.toll_history.specs.Laws.{IsWithinLimits, IsLotUndisposed, IsUnmoved, BringsOwn, TakesKnown, Agrees, has_this_key, coming, going, is_taken_in, records_or_voids, gives_from, IsCleared, IsKnownMaterial, IsOfActual, IsQuarantined, PassesEach, IfReleased, IfStands, IfRecorded, IsTakenBack, ComesQuarantined, IsMoved, IsMovedBack, KeepsSublots};
ghost use Rattle.toll_history.specs.Movements.{Movement, Made, made_by, brought, taken, stock, count_movements, sublot_known, lot_made, movements, standing, movement_of, voided_in};
ghost use Rattle.toll_history.specs.OwnerFacts.{lot_row, sublot_row};
ghost use Rattle.toll_history.specs.Verdict.{Accepted, IsLawful, is_actual, verdict};
ghost use Rattle.toll_history.specs.Work.{material_of, requirement_of, test_of};

/// Of no sublot is more taken than was brought into it.
pub fn no_stock_is_taken_below_zero()
    ensures { (H : History) (id : LotId) (sub : Bytes) → IsLawful H
        → taken H id sub ≤ brought H id sub }
{}

/// What is brought into a sublot is at most 1,000,000,000 for each movement of the lot's owner, of
/// which there are at most 20,000.
pub fn amounts_are_bounded()
    ensures brought { (H : History) (id : LotId) (sub : Bytes) → IsLawful H
        → brought H id sub ≤ MOST_AMOUNT * count_movements (acts id.owner H) }
    ensures stock { (H : History) (id : LotId) (sub : Bytes) → IsLawful H
        → stock H id sub ≤ MOST_STOCK }
{}

/// An owner has no more rows of each kind than the office keeps, and the plant no more owners and
/// units.
pub fn counts_are_limited()
    ensures owned { (H : History) (o : Bytes) → IsLawful H → IsWithinLimits H o }
    ensures owners { (H : History) → IsLawful H → count_owners H ≤ MOST_OWNERS }
    ensures units { (H : History) → IsLawful H → count_units H ≤ MOST_UNITS }
{}

/// Nothing was brought into a sublot that is not known, and a known sublot is of a known lot.
pub fn known_sublots_are_of_known_lots()
    ensures unknown { (H : History) (id : LotId) (sub : Bytes) → sublot_known H id sub ≡ false
        → brought H id sub ≡ 0 }
    ensures known { (H : History) (id : LotId) (sub : Bytes) → IsLawful H
        → sublot_known H id sub ≡ true → is_some (lot_made H id) ≡ true }
{}

/// Each movement brings into sublots of its owner, and takes from known sublots of its owner or of
/// HOUSE.
pub fn movements_keep_to_their_owners_lots()
    ensures brings { (H : History) → IsLawful H → All (BringsOwn H) (movements H) }
    ensures takes { (H : History) → IsLawful H → All (TakesKnown H) (movements H) }
{}

/// A requirement names a material of its source, and a lot is of a material of its owner.
pub fn lots_are_of_known_materials()
    ensures required { (H : History) (o : Bytes) (k : RequirementKey) → IsLawful H
        → is_some (requirement_of (acts o H) k) ≡ true → IsKnownMaterial H k.3 k.4 }
    ensures made { (H : History) (id : LotId) (made : Made) → IsLawful H → lot_made H id ≡ Some made
        → IsKnownMaterial H id.owner made.material }
{}

/// Each movement is the one that its owner and its key find, and no other has that key.
pub fn keys_are_unique()
    ensures found { (H : History) → IsLawful H
        → All (λ m. movement_of (acts m.0 H) m.1.key ≡ Some m.1) (movements H) }
    ensures once { (H : History) (o key : Bytes) → IsLawful H
        → count (has_this_key key) (acts o H)
        ≡ (if is_some (movement_of (acts o H) key) then 1 else 0) }
{}

/// A voided key has a movement, which is an actual.
pub fn voided_keys_are_of_actuals()
    ensures { (H : History) (o key : Bytes) → IsLawful H → voided_in (acts o H) key ≡ true
        → IsOfActual H o key }
{}

/// A void takes back exactly the movement with its key, in any sum over the standing movements.
pub fn a_void_takes_back_its_movement()
    ensures { (H : History) (o key : Bytes) (row : MoveRow) → IsLawful H
        → IfStands H o key row (IsTakenBack H o key row) }
{}

/// A lot that is not known has no results, and was neither released nor rejected.
pub fn unknown_lots_are_untouched()
    ensures untouched { (H : History) (o l : Bytes) → IsLawful H → lot_made H (lot_id o l) ≡ None
        → IsLotUndisposed (acts o H) l }
    ensures quarantined { (H : History) (o l : Bytes) → IsLawful H → lot_made H (lot_id o l) ≡ None
        → IsQuarantined (acts o H) l }
{}

/// Of a released lot no test of its material is open: the latest value of each is there, and within
/// its limits.
pub fn released_lots_pass_their_tests()
    ensures none { (H : History) (o l : Bytes) (made : Made) → IsLawful H
        → IfReleased H o l made (has_open_test (acts o H) made.material l ≡ false) }
    ensures each { (H : History) (o l : Bytes) (made : Made) → IsLawful H
        → IfReleased H o l made (PassesEach (acts o H) l made) }
{}

/// A lot comes from receipts or from one batch, never both, and is of one material: each movement
/// into it agrees with its first.
pub fn a_lot_has_one_origin()
    ensures { (H : History) → IsLawful H → All (Agrees H) (movements H) }
{}

/// Material goes to a shipment or a batch only out of a lot that is released, and of which no test
/// is open.
pub fn material_is_given_from_cleared_lots()
    ensures { (H : History) (o : Bytes) (row : MoveRow) (id : LotId) → IsLawful H
        → IfRecorded H o row (gives_from id o row.what ≡ true → IsCleared H id) }
{}

/// Material comes only into a lot that is new or quarantined, and leaves it quarantined, of the
/// material and the origin that the movement says.
pub fn material_comes_into_quarantined_lots()
    ensures { (H : History) (o : Bytes) (row : MoveRow) (l : Bytes) (made : Made) → IsLawful H
        → IfRecorded H o row (ComesQuarantined H o row l made) }
{}

/// A sublot holds more by what a movement brings and less by what it takes, a void turns that round,
/// and no other action changes movements, lots or stock.
pub fn stock_changes_by_what_is_moved()
    ensures recorded { (H : History) (o : Bytes) (row : MoveRow) (id : LotId) (sub : Bytes)
        → IsLawful H → IsMoved H o row id sub }
    ensures voided { (H : History) (o key : Bytes) (row : MoveRow) (id : LotId) (sub : Bytes)
        → IsLawful H → IfStands H o key row (IsMovedBack H o key row id sub) }
    ensures unmoved { (H : History) (c : Command) → records_or_voids c.action ≡ false
        → IsUnmoved H c }
{}

/// An accepted command leaves each sublot of another owner as it is, except for those of HOUSE from which it
/// takes, or to which a void gives back.
pub fn commands_keep_the_sublots_of_others()
    ensures { (H : History) (c : Command) (o : Bytes) → IsLawful H → verdict H c ≡ Accepted
        → same_bytes o c.owner ≡ false → KeepsSublots H c o }
{}
