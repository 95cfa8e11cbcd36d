//! The party whose turn a request takes.
ghost use Rattle.std.specs.Prelude.{◌≡◌, option_map};
ghost use Rattle.toll_protocol.specs.Parsed.{parse_outcome};
ghost use Rattle.toll_server.specs.RequestBuffers.{bytes_received, listener_of};
ghost use Rattle.toll_service.specs.Parties.{IsBy, claimed_owner, party_named};

use toll_base::Name;
use toll_protocol::{Failure, HttpRequest};
use toll_server::RequestBuffer;

/// The parties whose requests a server answers in turn: the plant, each owner that a request claims, and all
/// clients that claim no owner.
#[derive(Clone, Copy, Debug, PartialEq, Eq)]
pub enum Party {
    Plant,
    Owner(Name),
    Nobody,
}

impl Party {
    /// The party whose turn a request takes. The owner that a request claims is believed here: its key is checked in
    /// the turn.
    pub fn of(request: &RequestBuffer) -> Self
        ensures { IsBy (listener_of request.now) (bytes_received request.now) result }
    {
        match request {
            RequestBuffer::Plant(_) => Party::Plant,
            RequestBuffer::Owner(http) => claimed_in(http.parsed()),
        }
    }
}

// The party of the owner that a request claims.
fn claimed_in(parsed: Result<HttpRequest<'_>, Failure>) -> Party
    ensures { result ≡ party_named (claimed_owner (parse_outcome parsed.entry)) }
{
    match parsed {
        Ok(http) => named(http.owner),
        Err(_) => Party::Nobody,
    }
}

// The party of this owner, if these bytes are a name.
fn named(owner: Option<&[u8]>) -> Party
    ensures { result ≡ party_named (option_map (λ bytes. bytes.now) owner.entry) }
{
    match owner {
        Some(bytes) => match Name::parse(bytes) {
            Ok(name) => Party::Owner(name),
            Err(_) => Party::Nobody,
        },
        None => Party::Nobody,
    }
}
