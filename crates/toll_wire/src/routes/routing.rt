//! The request behind a method, a target and a body.
ghost use Rattle.std.specs.Prelude.{◌≡◌, IfOk};
ghost use Rattle.toll_wire.specs.Routing.{MakesRequest, IsAsking, IsPlacing, ValuesFit, other_of};

use crate::bodies::requested_order;
use crate::routes::office_router::OfficeRouter;
use crate::routes::path::{endpoint_of, path_of};
use crate::routes::route::{RequestKind, request_from};
use crate::routes::values::Values;
use std::alloc::{AllocError, Global};
use toll_base::Request;
use toll_protocol::{Failure, Verb};

/// The request that this method, target and body ask for, or the check that they fail once the key is right:
/// [`Failure::NoRoute`] if the target's path has no route or a part of it is no value,
/// [`Failure::MethodNotAllowed`] if the route is served with the other method alone, and
/// [`Failure::BadRequest`] if an order is to be placed and the body asks for none. All other bodies are
/// ignored. An outer `Err` means that there was no memory.
pub fn route_request(
    alloc: Global,
    router: &mut OfficeRouter,
    verb: Verb,
    target: &[u8],
    body: &[u8],
) -> Result<Result<Request, Failure>, AllocError>
    ensures { IfOk result (IsAsking verb target.now body.now) }
{
    let router = router.built(alloc)?;
    let Some((endpoint, values)) = endpoint_of(router, path_of(target)) else {
        return Ok(Err(Failure::NoRoute));
    };
    match endpoint.kind_for(verb) {
        Some(kind) => request_of_kind(alloc, kind, values, body),
        None => Ok(Err(Failure::MethodNotAllowed(other_of(verb)))),
    }
}

// The method, of the two, that this isn't.
fn other_of(verb: Verb) -> Verb
    ensures { result ≡ other_of verb }
{
    match verb {
        Verb::Get => Verb::Post,
        Verb::Post => Verb::Get,
    }
}

// The request of this kind with values that make one, as those of each route do.
fn request_of_kind(
    alloc: Global,
    kind: RequestKind,
    values: Values,
    body: &[u8],
) -> Result<Result<Request, Failure>, AllocError>
    requires { ValuesFit kind values }
    ensures { IfOk result (MakesRequest kind values body.now) }
{
    match kind {
        RequestKind::Place => placing(alloc, body),
        kind => Ok(Ok(request_from(kind, values).unwrap())),
    }
}

// The request for the order that a body asks for.
fn placing(alloc: Global, body: &[u8]) -> Result<Result<Request, Failure>, AllocError>
    ensures { IfOk result (IsPlacing body.now) }
{
    match requested_order(alloc, body)? {
        Some(placing) => Ok(Ok(Request::Place(placing))),
        None => Ok(Err(Failure::BadRequest)),
    }
}
