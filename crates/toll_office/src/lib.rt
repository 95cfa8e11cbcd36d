//! The program on files and sockets, over any opener of offices: what its words ask for. The office in a file
//! is opened under its lock for a command, an import, or owners on sockets. For owners it stays open between
//! requests while no other program changes it.
#![tactic(auto)]

mod descriptors;
mod one_connection;
mod plant_listener;
mod programs;
mod readiness;
mod resolving;
mod socket_connector;
mod socket_file;
mod socket_stream;
mod sockets;
mod timed;

pub use descriptors::connections_within;
pub use one_connection::{Served, serve_one};
pub use programs::run;
pub use sockets::Sockets;
