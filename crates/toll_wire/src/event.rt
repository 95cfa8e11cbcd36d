//! Events, and the answers to them.
use crate::outgoing::Out;
use toll_desk::{PlantCmd, PlantReply};

/// An event of the office.
#[derive(Drop)]
pub enum Event {
    /// The bytes of an owner's request.
    Owner(Vec<u8>),
    /// A command of the plant.
    Plant(PlantCmd),
}

/// The answer to an event.
#[derive(Drop)]
pub enum Answer {
    /// The reply to a request.
    Bytes(Out),
    /// The reply to a command of the plant.
    Plant(PlantReply),
}
