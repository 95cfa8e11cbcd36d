//! Movements that are known.
ghost use Rattle.std.specs.Prelude.{◌≡◌, ◌++◌, List, IfSome, Some, None};
ghost use Rattle.toll_base.specs.Slice.{move_at};
ghost use Rattle.toll_base.specs.declared.decision.Change as change;
ghost use Rattle.toll_history.specs.Decision.{IsDecided};
ghost use Rattle.toll_history.specs.OwnerFacts.{facts_of};
ghost use Rattle.toll_history.specs.Verdict.{Checks, key_checks};

use toll_base::{Decision, Move, MoveRow, Refusal, Slice};

/// The decision on a movement whose key is known; `None` if it isn't.
///
/// An equal movement is [`Refusal::Voided`] if it was voided, otherwise repeated; any other is a
/// [`Refusal::KeyConflict`].
pub fn decide_known(slice: &Slice, row: &MoveRow) -> Option<Decision>
    ensures known { IfSome result (λ d. (rest : Checks) (changes : List change.Change)
        → IsDecided (key_checks (facts_of slice.now) row.now ++ rest) changes d) }
    ensures unknown { result ≡ None → move_at slice.now row.now.key ≡ None }
{
    // The lookup of movements needs their type named.
    let _what: &Move = &row.what;
    let known = slice.movement(&row.key)?;
    Some(if !row.is_same(&known) {
        Decision::Refuse(Refusal::KeyConflict)
    } else if slice.is_voided(&row.key) {
        Decision::Refuse(Refusal::Voided)
    } else {
        Decision::Repeated
    })
}
