//! The routes of the office, and the requests that are asked for there.
ghost use Rattle.std.specs.Prelude.{◌≡◌};
ghost use Rattle.toll_wire.specs.Routes.{request_from};
ghost use Rattle.toll_wire.specs.Routing.{kind_for};

use crate::routes::parts::Parts;
use crate::routes::values::Values;
use toll_base::Request;
use toll_protocol::Verb;

/// A route: the pattern of its paths, and what is served there.
#[derive(Clone, Copy)]
pub struct Route {
    pub pattern: &'static str,
    pub endpoint: Endpoint,
}

/// What is served at a route: the parts of its paths, and the kind of request that each method asks for
/// there, if it asks for any.
#[derive(Clone, Copy)]
pub struct Endpoint {
    pub parts: Parts,
    pub get: Option<RequestKind>,
    pub post: Option<RequestKind>,
}

impl Endpoint {
    /// The kind of request that this method asks for here, if it asks for any.
    pub fn kind_for(&self, verb: Verb) -> Option<RequestKind>
        ensures { result ≡ kind_for verb self.now }
    {
        match verb {
            Verb::Get => self.get,
            Verb::Post => self.post,
        }
    }
}

/// Every route of the office.
pub static ROUTES: [Route; 11] = [
    Route {
        pattern: "/orders",
        endpoint: Endpoint {
            parts: Parts::Nothing,
            get: Some(RequestKind::Orders),
            post: Some(RequestKind::Place),
        },
    },
    Route {
        pattern: "/orders/{order}",
        endpoint: Endpoint {
            parts: Parts::Name,
            get: Some(RequestKind::Order),
            post: None,
        },
    },
    Route {
        pattern: "/orders/{order}/cancel",
        endpoint: Endpoint {
            parts: Parts::Name,
            get: None,
            post: Some(RequestKind::Cancel),
        },
    },
    Route {
        pattern: "/batches/{order}/{n}",
        endpoint: Endpoint {
            parts: Parts::NameAndNumber,
            get: Some(RequestKind::Batch),
            post: None,
        },
    },
    Route {
        pattern: "/stock",
        endpoint: Endpoint {
            parts: Parts::Nothing,
            get: Some(RequestKind::Stock),
            post: None,
        },
    },
    Route {
        pattern: "/lots/{lot}",
        endpoint: Endpoint {
            parts: Parts::Name,
            get: Some(RequestKind::Lot),
            post: None,
        },
    },
    Route {
        pattern: "/lots/{lot}/release",
        endpoint: Endpoint {
            parts: Parts::Name,
            get: None,
            post: Some(RequestKind::Release),
        },
    },
    Route {
        pattern: "/lots/{lot}/reject",
        endpoint: Endpoint {
            parts: Parts::Name,
            get: None,
            post: Some(RequestKind::Reject),
        },
    },
    Route {
        pattern: "/trace/back/{lot}",
        endpoint: Endpoint {
            parts: Parts::Name,
            get: Some(RequestKind::Back),
            post: None,
        },
    },
    Route {
        pattern: "/trace/forward/{lot}",
        endpoint: Endpoint {
            parts: Parts::Name,
            get: Some(RequestKind::Forward),
            post: None,
        },
    },
    Route {
        pattern: "/trace/house/{lot}",
        endpoint: Endpoint {
            parts: Parts::Name,
            get: Some(RequestKind::HouseForward),
            post: None,
        },
    },
];

/// The kind of owners' requests that a method asks for at a route.
#[derive(Clone, Copy)]
pub enum RequestKind {
    Orders,
    Order,
    /// An order is to be placed: the body has it.
    Place,
    Cancel,
    Batch,
    Stock,
    Lot,
    Release,
    Reject,
    Back,
    Forward,
    HouseForward,
}

/// The request with these values: `None` if they are not its values, and for [`RequestKind::Place`], whose
/// values are in the body.
pub fn request_from(kind: RequestKind, values: Values) -> Option<Request>
    ensures { result ≡ request_from kind values }
{
    match (kind, values) {
        (RequestKind::Orders, Values::Nothing) => Some(Request::Orders),
        (RequestKind::Order, Values::Name(order)) => Some(Request::Order(order)),
        (RequestKind::Cancel, Values::Name(order)) => Some(Request::Cancel(order)),
        (RequestKind::Batch, Values::NameAndNumber(order, number)) => {
            Some(Request::Batch { order, number })
        }
        (RequestKind::Stock, Values::Nothing) => Some(Request::Stock),
        (RequestKind::Lot, Values::Name(lot)) => Some(Request::Lot(lot)),
        (RequestKind::Release, Values::Name(lot)) => Some(Request::Release(lot)),
        (RequestKind::Reject, Values::Name(lot)) => Some(Request::Reject(lot)),
        (RequestKind::Back, Values::Name(lot)) => Some(Request::Back(lot)),
        (RequestKind::Forward, Values::Name(lot)) => Some(Request::Forward(lot)),
        (RequestKind::HouseForward, Values::Name(lot)) => Some(Request::HouseForward(lot)),
        _ => None,
    }
}
