//! Many connections side by side, and one service that answers their requests one after another. A `Network`
//! gives the streams, the clock and the waiting, so all decisions here are proved over any network.
#![tactic(auto)]

mod connection;
mod connection_state;
mod connections;
mod event_loop;
mod expiry;
mod filter;
mod laws;
mod listener;
mod network;
mod poll;
mod request_buffer;
mod service;
mod step_result;
mod ticket;

pub use connection::{Connection, MOST_MILLISECONDS, TurnOutcome};
pub use connection_state::ConnectionState;
pub use event_loop::{ServingEnd, serve};
pub use laws::{limits_are_those_defined, what_is_served_is_served_in_rounds};
pub use listener::Listener;
pub use network::{Accepted, MOST_OPEN_CONNECTIONS, MOST_READY, Network, NetworkFault};
pub use poll::Poll;
pub use request_buffer::RequestBuffer;
pub use service::Service;
pub use step_result::StepResult;
pub use ticket::Ticket;
pub use toll_protocol::Stream;
