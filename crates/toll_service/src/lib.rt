//! A server's answers at its two listeners, over any keep: owners' requests, and the plant's calls in frames.
//! What clients ask, side by side, is a run of events. The same holds over an office in a file, which is
//! opened under its lock and stays open while no other program changes it.
#![tactic(auto)]

mod answering;
mod damage;
mod doing;
mod keep_service;
mod laws;
mod office_path;
mod office_service;
mod office_serving;
mod office_session;
mod open_office;
mod operation;
mod party;
mod pending_import;
mod plant;
mod reading_ahead;
mod reserved_refusal;
mod reserved_reply;
mod stopped_import;
mod turn_result;
mod words;

pub use answering::answer_at;
pub use doing::{answer_once, with_keep};
pub use keep_service::KeepService;
pub use laws::{
    turns_between_two_openings_are_a_run, turns_of_a_request_are_all_of_it,
    turns_over_a_keep_are_a_run,
};
pub use office_path::{KeepOpener, OfficePath};
pub use office_service::OfficeService;
pub use office_serving::{Announcing, serve_file, serve_keep};
pub use party::Party;
pub use pending_import::PendingImport;
pub use reserved_refusal::fault_response;
pub use toll_wire::Out;
pub use turn_result::TurnResult;
pub use words::{do_file, do_words};
