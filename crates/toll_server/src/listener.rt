//! The two listeners of a server.

/// The listener at which a connection was accepted.
#[derive(Clone, Copy, Debug, PartialEq, Eq)]
pub enum Listener {
    /// For owners, which ask over HTTP.
    Owners,
    /// For the plant, which asks by frames.
    Plant,
}
