//! Recalls.
ghost use Rattle.std.specs.Prelude.{◌≡◌, false};
ghost use Rattle.toll_answers.specs.Common.{Bytes, same_bytes, house_name, LotId, History, IsLawful};
ghost use Rattle.toll_answers.specs.Agreement.{IfPartsAgree, IsRecallFromHouse, RecallsAgree};
ghost use Rattle.toll_answers.specs.declared.genealogy.recall.RecallLine.{RecallLine};

use toll_base::Disposition;
use toll_stock::Totals;
use toll_trace::Step;

/// A lot of a recall: its step from the lot that is recalled, its disposition, and how much of it is
/// on hand and was shipped.
#[derive(Clone, Copy)]
pub struct RecallLine {
    pub step: Step,
    pub disposition: Disposition,
    pub totals: Totals,
}

/// The recall of a lot of HOUSE has, of an owner's lots, exactly those on the owner's forward traces from
/// the lots of HOUSE that HOUSE's own edges reach, each with the least sum of steps.
pub fn recalls_within_an_owner_are_the_owners()
    ensures { (H : History) (o : Bytes) (lot : LotId) → IsLawful H → lot.owner ≡ house_name
        → IsRecallFromHouse H o lot }
{}

/// Two lawful histories in which the commands of HOUSE and of an owner are the same give the recalls
/// of a lot of HOUSE equal lines of that owner's lots: the steps, the dispositions and the totals.
pub fn recalls_agree_where_their_parts_do()
    ensures { (G H : History) (o : Bytes) (lot : LotId) → IsLawful G → IsLawful H
        → same_bytes o house_name ≡ false → IfPartsAgree G H o (RecallsAgree G H o lot) }
{}
