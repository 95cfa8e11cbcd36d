//! What the office means: commands and histories, stock, lots and batches as sums and lasts over
//! them, verdicts, the laws of every lawful history, and what a decision owes.
#![tactic(auto)]

mod isolation;
mod known;
mod laws;
mod sublot_amounts;
mod sublot_room;
mod worked;

pub use isolation::{commands_keep_the_tables_of_others, tables_come_from_the_owners_part};
pub use known::decide_known;
pub use laws::{
    a_lot_has_one_origin, a_void_takes_back_its_movement, amounts_are_bounded,
    commands_keep_the_sublots_of_others, counts_are_limited, keys_are_unique,
    known_sublots_are_of_known_lots, lots_are_of_known_materials,
    material_comes_into_quarantined_lots, material_is_given_from_cleared_lots,
    movements_keep_to_their_owners_lots, no_stock_is_taken_below_zero,
    released_lots_pass_their_tests, stock_changes_by_what_is_moved, unknown_lots_are_untouched,
    voided_keys_are_of_actuals,
};
pub use sublot_amounts::{sublot_gaining, sublot_losing};
pub use sublot_room::has_room_in;
pub use worked::{
    a_held_unit_is_busy, a_product_is_consumed_once_released, a_release_needs_the_latest_results,
    actuals_are_voided, batches_go_through_their_states, dispositions_follow_the_results,
    orders_are_cancelled_before_they_start, refusals_of_the_plants_commands, setups_are_accepted,
    stock_is_used_up, sublots_are_split_scrapped_and_shipped,
};
