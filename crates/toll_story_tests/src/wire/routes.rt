//! What leads nowhere, and methods that are not served.
use crate::wire::answers::{check_bytes, office};
use crate::wire::requests::request;
use std::alloc::Global;
use std::test::Fail;
use toll_keep::MemKeep;
use toll_stories::{WITH_ACME, WITH_ORDER, check, check_chapter, check_said, reply_said};
use toll_wire::{OfficeRouter, reply_by_router};

const NOWHERE: &str = r#"
> ACME ACMEKEY1 GET /nowhere
= 404 {"error":"NoRoute"}
> ACME ACMEKEY1 GET /lots/abc
= 404 {"error":"NoRoute"}
> ACME ACMEKEY1 GET /batches/O-1/0
= 404 {"error":"NoRoute"}
> ACME ACMEKEY1 GET /batches/O-1/01
= 404 {"error":"NoRoute"}
> ACME ACMEKEY1 GET /batches/O-1/100
= 404 {"error":"NoRoute"}
> ACME ACMEKEY1 GET http://127.0.0.1/stock
= 404 {"error":"NoRoute"}
> ACME ACMEKEY1 POST /lots/A/release/
= 404 {"error":"NoRoute"}
> ACME ACMEKEY1 GET /trace/aside/A
= 404 {"error":"NoRoute"}
"#;

const SOMEWHERE: &str = r#"
> ACME ACMEKEY1 GET /batches/O-1/1
= 404 {"code":22,"error":"UnknownBatch"}
> ACME ACMEKEY1 GET /batches/O-1/99
= 404 {"code":22,"error":"UnknownBatch"}
> ACME ACMEKEY1 GET /lots/ABC
= 404 {"code":27,"error":"UnknownLot"}
> ACME ACMEKEY1 GET /stock?x=1
= 200 {"lots":[]}
> ACME ACMEKEY1 PUT /stock
= 501
> ACME ACMEKEY1 get /stock
= 501
> ACME ACMEKEY1 POST /stock
= 405 {"error":"MethodNotAllowed"}
"#;

const WITHOUT_THE_KEY: &str = r#"
> ACME ACMEKEY2 GET /nowhere
= 403 {"error":"Forbidden"}
> ACME ACMEKEY2 POST /stock
= 403 {"error":"Forbidden"}
> ACME ACMEKEY2 POST /orders {"order":"O-1"}
= 403 {"error":"Forbidden"}
> ACME ACMEKEY2 GET /stock
= 403 {"error":"Forbidden"}
> ACME ACMEKEY2 PUT /stock
= 501
"#;

#[test]
fn a_path_of_no_route_leads_nowhere(rt: HostRuntime) -> Result<(), Fail> {
    check_said(
        rt.alloc(),
        &[WITH_ACME, WITH_ORDER, NOWHERE, SOMEWHERE, WITHOUT_THE_KEY],
    )
}

/// Paths that look like those of a route.
const ODD_PATHS: &str = r#"
> ACME ACMEKEY1 GET /orders/
= 404 {"error":"NoRoute"}
> ACME ACMEKEY1 GET //
= 404 {"error":"NoRoute"}
> ACME ACMEKEY1 POST /orders//cancel
= 404 {"error":"NoRoute"}
> ACME ACMEKEY1 GET /lots/%41
= 404 {"error":"NoRoute"}
> ACME ACMEKEY1 GET /batches/A/01
= 404 {"error":"NoRoute"}
> ACME ACMEKEY1 GET /batches/A/1/
= 404 {"error":"NoRoute"}
> ACME ACMEKEY1 GET *
= 404 {"error":"NoRoute"}
> ACME ACMEKEY1 GET ?
= 404 {"error":"NoRoute"}
> ACME ACMEKEY1 GET /orders/{order}
= 404 {"error":"NoRoute"}
> ACME ACMEKEY1 GET /lots/{lot}
= 404 {"error":"NoRoute"}
"#;

#[test]
fn odd_paths_lead_nowhere(rt: HostRuntime) -> Result<(), Fail> {
    check_said(rt.alloc(), &[WITH_ACME, ODD_PATHS])
}

const GET_ALONE: &str =
    "HTTP/1.1 405 Method Not Allowed\r\ncontent-type: application/json\r\ncontent-length: 28\r\nallow: GET\r\nconnection: close\r\n\r\n{\"error\":\"MethodNotAllowed\"}";

const POST_ALONE: &str =
    "HTTP/1.1 405 Method Not Allowed\r\ncontent-type: application/json\r\ncontent-length: 28\r\nallow: POST\r\nconnection: close\r\n\r\n{\"error\":\"MethodNotAllowed\"}";

/// A method that a route doesn't serve, and the reply to it. `/orders` serves both.
const OTHER_METHODS: &[(&str, &str)] = &[
    ("POST /orders/O-1", GET_ALONE),
    ("GET /orders/O-1/cancel", POST_ALONE),
    ("POST /batches/O-1/1", GET_ALONE),
    ("POST /stock", GET_ALONE),
    ("POST /lots/A", GET_ALONE),
    ("GET /lots/A/release", POST_ALONE),
    ("GET /lots/A/reject", POST_ALONE),
    ("POST /trace/back/A", GET_ALONE),
    ("POST /trace/forward/A", GET_ALONE),
    ("POST /trace/house/A", GET_ALONE),
    (
        "PUT /stock",
        "HTTP/1.1 501 Not Implemented\r\ncontent-length: 0\r\nconnection: close\r\n\r\n",
    ),
];

#[test]
fn another_method_is_refused(rt: HostRuntime) -> Result<(), Fail> {
    let mut keep = office(rt.alloc())?;
    for row in OTHER_METHODS {
        let (line, wanted) = *row;
        check_bytes(rt.alloc(), &mut keep, (line, ""), wanted.as_bytes())?;
    }
    Ok(())
}

const NO_ROUTE: &str = "404 {\"error\":\"NoRoute\"}";

const UNKNOWN_LOT: &str = "404 {\"code\":27,\"error\":\"UnknownLot\"}";

const UNKNOWN_ORDER: &str = "404 {\"code\":18,\"error\":\"UnknownOrder\"}";

/// A method and a path, and the reply.
type Routed = (&'static str, &'static str);

/// A request of each route, and what is said to it.
const EVERY_ROUTE: &[Routed] = &[
    (
        "GET /orders",
        "200 {\"orders\":[{\"batches\":2,\"order\":\"O-1\",\"recipe\":\"R-1\",\"status\":\"open\"}]}",
    ),
    ("POST /orders", "400 {\"error\":\"BadRequest\"}"),
    (
        "GET /orders/O-1",
        "200 {\"batches\":2,\"order\":\"O-1\",\"recipe\":\"R-1\",\"status\":\"open\"}",
    ),
    ("POST /orders/O-2/cancel", UNKNOWN_ORDER),
    (
        "GET /batches/O-1/1",
        "404 {\"code\":22,\"error\":\"UnknownBatch\"}",
    ),
    ("GET /stock", "200 {\"lots\":[]}"),
    ("GET /lots/A", UNKNOWN_LOT),
    ("POST /lots/A/release", UNKNOWN_LOT),
    ("POST /lots/A/reject", UNKNOWN_LOT),
    ("GET /trace/back/A", UNKNOWN_LOT),
    ("GET /trace/forward/A", UNKNOWN_LOT),
    ("GET /trace/house/A", UNKNOWN_LOT),
];

/// Paths that miss a route by little.
const NEAR_MISSES: &[Routed] = &[
    ("GET /", NO_ROUTE),
    ("GET /order", NO_ROUTE),
    ("GET /orders/O-1/", NO_ROUTE),
    ("POST /orders/O-2/cancels", NO_ROUTE),
    ("POST /orders/O-2/cancel/O-2", NO_ROUTE),
    ("GET /batches/O-1", NO_ROUTE),
    ("GET /stocks", NO_ROUTE),
    ("GET /stock/A", NO_ROUTE),
    ("GET /lots", NO_ROUTE),
    ("POST /lots/A/accept", NO_ROUTE),
    ("GET /trace/A", NO_ROUTE),
    ("GET /trace/back/", NO_ROUTE),
    ("GET /trace/house/A/B", NO_ROUTE),
];

// Fails if one of ACME's requests, all by this router, has another reply.
fn check_routed(
    alloc: Global,
    router: &mut OfficeRouter,
    keep: &mut MemKeep,
    lines: &[Routed],
) -> Result<(), Fail> {
    for row in lines {
        let (line, wanted) = *row;
        let bytes = request(alloc, line, "")?;
        let out = reply_by_router(alloc, router, keep, &bytes);
        let said = reply_said(alloc, out.bytes())?;
        check(said.as_str() == wanted, line)?;
    }
    Ok(())
}

#[test]
fn one_router_serves_all_routes(rt: HostRuntime) -> Result<(), Fail> {
    let mut keep = office(rt.alloc())?;
    check_chapter(rt.alloc(), &mut keep, WITH_ORDER)?;
    let mut router = OfficeRouter::new();
    for lines in &[EVERY_ROUTE, NEAR_MISSES, EVERY_ROUTE, NEAR_MISSES] {
        check_routed(rt.alloc(), &mut router, &mut keep, lines)?;
    }
    Ok(())
}
