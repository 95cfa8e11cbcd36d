//! The parts of a movement, one for each column of the table of movements.
ghost use Rattle.std.specs.Prelude.{◌≡◌, [], ℕ, IsTrue};
ghost use Rattle.toll_base.specs.Values.{is_name};
ghost use Rattle.toll_sql.specs.Encode as stored;
ghost use Rattle.toll_sql.specs.Valid.{IsMove, IsLotId, IsStorable};

use toll_base::{Move, Name, Role};

/// The parts of a movement. A part that its kind doesn't have is `''` or 0.
#[derive(Clone, Copy)]
pub struct MoveParts<'a> {
    pub kind: u64,
    pub lot_owner: &'a [u8],
    pub lot: &'a [u8],
    pub sublot: &'a [u8],
    pub target: &'a [u8],
    pub material: &'a [u8],
    pub order: &'a [u8],
    pub number: u64,
    pub segment: u64,
}

impl<'a> MoveParts<'a> {
    /// The parts of a movement of this owner.
    pub fn of(owner: &'a Name, what: &'a Move) -> Self
        ensures kind { result.kind ≡ stored.kind_number what.now }
        ensures lot_owner { result.lot_owner.now ≡ (stored.move_lot owner.now what.now).owner }
        ensures lot { result.lot.now ≡ (stored.move_lot owner.now what.now).lot }
        ensures sublot { result.sublot.now ≡ stored.move_sublot what.now }
        ensures target { result.target.now ≡ stored.move_target what.now }
        ensures material { result.material.now ≡ stored.move_material what.now }
        ensures order { result.order.now ≡ stored.move_order what.now }
        ensures number { result.number ≡ stored.move_number what.now }
        ensures segment { result.segment ≡ stored.move_segment what.now }
        ensures storable { IsStorable result.kind × IsStorable result.number × IsStorable result.segment }
        ensures valid { IsMove what.now }
    {
        match what {
            Move::Receive {
                material,
                lot,
                sublot,
            } => MoveParts {
                material: material.as_bytes(),
                ..MoveParts::taken(0, owner, lot, sublot)
            },
            Move::Split {
                lot,
                sublot,
                target,
            } => MoveParts {
                target: target.as_bytes(),
                ..MoveParts::taken(1, owner, lot, sublot)
            },
            Move::Ship { lot, sublot } => MoveParts::taken(2, owner, lot, sublot),
            Move::Scrap { lot, sublot } => MoveParts::taken(3, owner, lot, sublot),
            Move::Actual {
                order,
                number,
                segment,
                role,
                material,
                lot,
                sublot,
            } => MoveParts {
                order: order.as_bytes(),
                number: number.get(),
                segment: segment.get(),
                material: material.as_bytes(),
                ..MoveParts::taken(actual_kind(*role), &lot.owner, &lot.lot, sublot)
            },
        }
    }

    // A movement with only a lot and a sublot.
    fn taken(kind: u64, owner: &'a Name, lot: &'a Name, sublot: &'a Name) -> Self
        ensures kind { result.kind ≡ kind }
        ensures lot_owner { result.lot_owner.now ≡ owner.now }
        ensures lot { result.lot.now ≡ lot.now }
        ensures sublot { result.sublot.now ≡ sublot.now }
        ensures target { result.target.now ≡ [] }
        ensures material { result.material.now ≡ [] }
        ensures order { result.order.now ≡ [] }
        ensures number { result.number ≡ 0 }
        ensures segment { result.segment ≡ 0 }
        ensures valid { IsLotId (record { owner = owner.now; lot = lot.now }) × IsTrue (is_name sublot.now) }
    {
        MoveParts {
            kind,
            lot_owner: owner.as_bytes(),
            lot: lot.as_bytes(),
            sublot: sublot.as_bytes(),
            target: b"",
            material: b"",
            order: b"",
            number: 0,
            segment: 0,
        }
    }
}

fn actual_kind(role: Role) -> u64
    ensures { result ≡ stored.actual_kind role }
{
    match role {
        Role::Consumed => 4,
        Role::Produced => 5,
    }
}
