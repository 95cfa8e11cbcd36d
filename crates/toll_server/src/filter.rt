//! Selections of the open connections.
ghost use Rattle.std.specs.Prelude.{◌≡◌, ◌↔◌, IsTrue};
ghost use Rattle.toll_server.specs.Connections.{IsIncluded, is_included};

use crate::connection::Connection;
use crate::connection_state::ConnectionState;
use crate::listener::Listener;

/// A selection of the open connections.
#[derive(Clone, Copy, Debug, PartialEq, Eq)]
pub enum Filter {
    /// Connections whose requests are not whole.
    Reading,
    /// The same, of those that were accepted at this listener.
    ReadingAt(Listener),
    /// Connections whose requests are whole.
    Submitted,
    /// Connections that wait for a turn of the service.
    Queued,
    /// Connections whose time may be over: all that don't wait for a turn.
    Timed,
    /// Connections that were accepted at the owners' listener.
    Owners,
}

impl Filter {
    /// Whether the selection includes this connection.
    pub fn includes<S, T, P>(self, connection: &Connection<S, T, P>) -> bool
        ensures includes { IsTrue result ↔ IsIncluded self connection.now }
        ensures answer { result ≡ is_included self connection.now }
    {
        match self {
            Filter::Reading => matches!(connection.state, ConnectionState::Reading),
            Filter::ReadingAt(listener) => {
                matches!(connection.state, ConnectionState::Reading)
                    && connection.request.listener() == listener
            }
            Filter::Submitted => !matches!(connection.state, ConnectionState::Reading),
            Filter::Queued => matches!(
                connection.state,
                ConnectionState::Queued(_) | ConnectionState::Working(_, _)
            ),
            Filter::Timed => !matches!(
                connection.state,
                ConnectionState::Queued(_) | ConnectionState::Working(_, _)
            ),
            Filter::Owners => connection.request.listener() == Listener::Owners,
        }
    }
}
