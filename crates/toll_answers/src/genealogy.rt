//! Genealogy over histories: which lots an owner's batches, and those of all, join; traces and recalls
//! over them; and the laws that tie what an owner sees to what the plant sees.

mod recall;
mod traces;
mod worked;

pub use recall::{
    RecallLine, recalls_agree_where_their_parts_do, recalls_within_an_owner_are_the_owners,
};
pub use traces::{
    a_movement_stands_unless_it_is_voided, edges_of_a_slice_are_the_owners,
    lots_of_edges_are_known, plants_traces_within_an_owner_are_the_owners,
};
pub use worked::{
    edges_of_a_batch, setups_of_genealogy_are_accepted, traces_go_by_the_owners_batches,
    traces_of_a_batch, traces_of_a_circle,
};
