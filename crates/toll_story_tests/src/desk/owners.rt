//! The plant's calls and owners' over a keep that once has no memory.
use std::alloc::Global;
use std::test::Fail;
use toll_base::{BatchNo, Name, Placing};
use toll_desk::{Reply, Request, owner_do};
use toll_keep::{Keep, KeepFault, MemKeep};
use toll_stories::{Refused, Refusing, WITH_ACME, check, check_said_over};

fn placing() -> Result<Request, Fail> {
    Ok(Request::Place(Placing {
        order: Name::parse(b"O-1")?,
        recipe: Name::parse(b"R-1")?,
        batches: BatchNo::new(2)?,
    }))
}

// Whether ACME's order is refused for lack of memory.
fn is_refused<K: Keep>(alloc: Global, keep: &mut K, request: &Request) -> bool {
    let reply = owner_do(alloc, keep, b"ACME", b"ACMEKEY1", request);
    matches!(reply, Reply::Fault(KeepFault::Memory))
}

// Whether ACME's order is placed.
fn is_placed<K: Keep>(alloc: Global, keep: &mut K, request: &Request) -> bool {
    let reply = owner_do(alloc, keep, b"ACME", b"ACMEKEY1", request);
    matches!(reply, Reply::Order(_))
}

// Whether ACME has so many orders.
fn has_orders<K: Keep>(alloc: Global, keep: &mut K, count: usize) -> bool {
    match owner_do(alloc, keep, b"ACME", b"ACMEKEY1", &Request::Orders) {
        Reply::Orders(rows) => rows.len() == count,
        _ => false,
    }
}

#[test]
fn an_order_without_memory_is_not_placed(rt: HostRuntime) -> Result<(), Fail> {
    let mut keep = MemKeep::new(rt.alloc());
    check_said_over(rt.alloc(), &mut keep, &[WITH_ACME])?;
    let mut keep = Refusing::new(keep, Refused::Apply);
    let request = placing()?;
    let is_so = is_refused(rt.alloc(), &mut keep, &request)
        && has_orders(rt.alloc(), &mut keep, 0)
        && is_placed(rt.alloc(), &mut keep, &request)
        && has_orders(rt.alloc(), &mut keep, 1);
    check(is_so, "answered otherwise")
}

const NOT_ADDED_WITHOUT_MEMORY: &str = r#"
owner-add ACME ACMEKEY1
= fault Memory
> ACME ACMEKEY1 GET /orders
= 403 {"error":"Forbidden"}
owner-add ACME ACMEKEY1
> ACME ACMEKEY1 GET /orders
= 200 {"orders":[]}
"#;

#[test]
fn an_owner_without_memory_is_not_added(rt: HostRuntime) -> Result<(), Fail> {
    let mut keep = Refusing::new(MemKeep::new(rt.alloc()), Refused::Apply);
    check_said_over(rt.alloc(), &mut keep, &[NOT_ADDED_WITHOUT_MEMORY])
}
