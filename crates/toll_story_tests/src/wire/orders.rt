//! Bodies that ask for orders.
use std::test::Fail;
use toll_stories::{WITH_ACME, check_said};

const LAST_MEMBER_COUNTS: &str = r#"
> ACME ACMEKEY1 POST /orders {"order":"O-9","recipe":"R-1","batches":2,"order":"O-1"}
= 200 {"batches":2,"order":"O-1","recipe":"R-1","status":"open"}
> ACME ACMEKEY1 POST /orders {"day":[1],"order":"O-2","recipe":"R-1","batches":99,"batch":null}
= 200 {"batches":99,"order":"O-2","recipe":"R-1","status":"open"}
> ACME ACMEKEY1 GET /orders/O-9
= 404 {"code":18,"error":"UnknownOrder"}
"#;

#[test]
fn members_of_a_body_are_taken_by_name(rt: HostRuntime) -> Result<(), Fail> {
    check_said(rt.alloc(), &[WITH_ACME, LAST_MEMBER_COUNTS])
}

const NOT_ASKED: &str = r#"
> ACME ACMEKEY1 POST /orders {"order":"O-1"}
= 400 {"error":"BadRequest"}
> ACME ACMEKEY1 POST /orders {"order":"O-1","recipe":"R-1","batches":2.0}
= 400 {"error":"BadRequest"}
> ACME ACMEKEY1 POST /orders {"order":"O-1","recipe":"R-1","batches":2e0}
= 400 {"error":"BadRequest"}
> ACME ACMEKEY1 POST /orders {"order":"O-1","recipe":"R-1","batches":"2"}
= 400 {"error":"BadRequest"}
> ACME ACMEKEY1 POST /orders {"order":"O-1","recipe":"R-1","batches":0}
= 400 {"error":"BadRequest"}
> ACME ACMEKEY1 POST /orders {"order":"O-1","recipe":"R-1","batches":100}
= 400 {"error":"BadRequest"}
> ACME ACMEKEY1 POST /orders {"order":"o-1","recipe":"R-1","batches":2}
= 400 {"error":"BadRequest"}
> ACME ACMEKEY1 POST /orders ["O-1","R-1",2]
= 400 {"error":"BadRequest"}
> ACME ACMEKEY1 POST /orders {"order":"O-1","recipe":"R-1","batches":2
= 400 {"error":"BadRequest"}
> ACME ACMEKEY1 POST /orders
= 400 {"error":"BadRequest"}
> ACME ACMEKEY1 GET /orders
= 200 {"orders":[]}
"#;

#[test]
fn a_body_that_asks_for_no_order_is_bad(rt: HostRuntime) -> Result<(), Fail> {
    check_said(rt.alloc(), &[WITH_ACME, NOT_ASKED])
}
