//! Owners' requests over HTTP, from bytes to bytes, and runs of events: what a target, a method and a body
//! ask for, and the bodies of requests and replies.
#![tactic(auto)]

mod answering;
mod bodies;
mod event;
mod holding;
mod laws;
mod outgoing;
mod reply;
mod routes;
mod run;
mod together;

pub use answering::{answer, answer_with_router, reply_by_router};
pub use bodies::{
    batch_body, error_body, lot_body, order_body, orders_body, refusal_body, requested_order,
    stock_body, trace_body,
};
pub use event::{Answer, Event};
pub use holding::{HeldReply, hold_with_router};
pub use laws::{
    a_part_alone_gives_one_list_of_replies, an_owners_traces_are_replied_byte_for_byte,
    answers_are_determined, any_two_keeps_answer_alike, bytes_say_one_thing,
    every_run_has_its_parts, recalls_print_the_same_lines_of_an_owner,
    replies_are_those_that_the_owners_part_gives_alone,
    requests_of_some_owners_are_a_run_of_their_own, runs_are_private,
    runs_with_the_same_part_give_the_same_replies, the_plants_traces_are_printed,
};
pub use outgoing::Out;
pub use routes::{
    OfficeRouter, a_request_asks_for_one_thing, a_request_has_its_address,
    each_request_has_its_route, route_request,
};
pub use run::run_events;
pub use together::{GroupEnd, answer_together};
pub use toll_protocol::{ReadFault, WriteFault, read_request, write_whole as write_reply};
