//! Worked examples: what the definitions say of them, computed.
#![tactic(auto, unfolding(crate::specs::History::part, crate::specs::History::acts, crate::specs::Movements::stock, crate::specs::Movements::sublot_known, crate::specs::Movements::lot_made, crate::specs::Movements::count_lots, crate::specs::Movements::count_sublots, crate::specs::Movements::material_used, crate::specs::Holders::holder, crate::specs::Verdict::checks))]

ghost use Rattle.std.specs.Prelude.{◌≡◌, [], ◌∷◌, codes};
ghost use Rattle.toll_base.specs.Lots.{lot_id};
ghost use Rattle.toll_base.specs.Values.{house_name};
ghost use Rattle.toll_base.specs.declared.lot.Disposition.TheVariants.{Quarantined, Released, Rejected};
ghost use Rattle.toll_base.specs.declared.refusal.Refusal.TheVariants.{OrderStarted};
ghost use Rattle.toll_base.specs.declared.state.State.TheVariants.{Running, Pausing, Paused, Holding};
ghost use Rattle.toll_base.specs.declared.state_command.StateCommand.TheVariants.{Done, Hold, Pause};
ghost use Rattle.toll_history.specs.Command.{CancelOrder, Reject, Void, by};
ghost use Rattle.toll_history.specs.Dispositions.{disposition_of};
ghost use Rattle.toll_history.specs.History.{acts};
ghost use Rattle.toll_history.specs.Movements.{stock};
ghost use Rattle.toll_history.specs.Verdict.{Refused};
ghost use Rattle.toll_history.specs.Worked.{HaveVerdicts, history_after, verdicts, accepted_verdicts, batch_states, acme, setup_one, setup_two, product_consumed, tested_lot, failed_lot, one_batch, one_product, with_two_actuals, held_unit, states_gone_through, stock_used_up, results_and_releases, product_consumed_once_released, sublots_used_up, order_cancelled, plants_refusals, actuals_voided};

/// Every command of the two setups is accepted.
pub fn setups_are_accepted()
    ensures one { verdicts [] setup_one ≡ accepted_verdicts setup_one }
    ensures two { verdicts [] setup_two ≡ accepted_verdicts setup_two }
{}

/// A unit that another owner's batch holds is busy.
pub fn a_held_unit_is_busy()
    ensures { HaveVerdicts one_batch held_unit }
{}

/// A batch goes through its states by the commands to it, is closed once, and is its order's last.
pub fn batches_go_through_their_states()
    ensures states { batch_states (acts acme one_batch) (codes "O") 1 (Pause ∷ Done ∷ Hold ∷ [])
        ≡ Running ∷ Pausing ∷ Paused ∷ Holding ∷ [] }
    ensures verdicts { HaveVerdicts one_batch states_gone_through }
{}

/// A movement that comes again is repeated, with another amount it is in conflict, and no more than
/// is there is consumed.
pub fn stock_is_used_up()
    ensures verdicts { HaveVerdicts one_batch stock_used_up }
    ensures before { stock one_batch (lot_id acme (codes "A")) (codes "S1") ≡ 100 }
    ensures house { stock one_product (lot_id house_name (codes "H-1")) (codes "S") ≡ 0 }
{}

/// A lot is released while the latest result of each test is within its limits, the ends included.
pub fn a_release_needs_the_latest_results()
    ensures { HaveVerdicts [] results_and_releases }
{}

/// A lot is released until a result is out of the limits, and rejected for good.
pub fn dispositions_follow_the_results()
    ensures before { disposition_of (acts acme one_batch) (codes "P") (codes "P1") ≡ Quarantined }
    ensures passed { disposition_of (acts acme tested_lot) (codes "M") (codes "A") ≡ Released }
    ensures failed { disposition_of (acts acme failed_lot) (codes "M") (codes "A") ≡ Quarantined }
    ensures rejected { disposition_of (acts acme (history_after failed_lot
        (by acme (Reject (codes "A")) ∷ []))) (codes "M") (codes "A") ≡ Rejected }
{}

/// A lot is consumed when it is known and released, and no sooner.
pub fn a_product_is_consumed_once_released()
    ensures { HaveVerdicts product_consumed product_consumed_once_released }
{}

/// A sublot is split, and scrapped and shipped to its end.
pub fn sublots_are_split_scrapped_and_shipped()
    ensures { HaveVerdicts one_batch sublots_used_up }
{}

/// An order is cancelled once, before its first batch, and answers a repeated order all the same.
pub fn orders_are_cancelled_before_they_start()
    ensures cancelled { HaveVerdicts [] order_cancelled }
    ensures started { verdicts one_batch (by acme (CancelOrder (codes "O")) ∷ [])
        ≡ Refused OrderStarted ∷ [] }
{}

/// Refusals of recipes, requirements, owners and units.
pub fn refusals_of_the_plants_commands()
    ensures { HaveVerdicts one_batch plants_refusals }
{}

/// A void gives a consumption's amount back, keeps its key, and needs the batch to be open.
pub fn actuals_are_voided()
    ensures verdicts { HaveVerdicts with_two_actuals actuals_voided }
    ensures given_back { stock (history_after with_two_actuals
        (by acme (Void (codes "K2")) ∷ [])) (lot_id acme (codes "A")) (codes "S1") ≡ 100 }
    ensures produced { stock with_two_actuals (lot_id acme (codes "P1")) (codes "S1") ≡ 30 }
    ensures house { stock (history_after one_product
        (by acme (Void (codes "K4")) ∷ [])) (lot_id house_name (codes "H-1")) (codes "S") ≡ 10 }
{}
