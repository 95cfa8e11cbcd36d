//! The routes of the office: what a target, a method and a body ask for.

mod laws;
mod office_router;
mod parts;
mod path;
mod route;
mod routing;
mod values;

pub use laws::{
    a_request_asks_for_one_thing, a_request_has_its_address, each_request_has_its_route,
};
pub use office_router::OfficeRouter;
pub use routing::route_request;
