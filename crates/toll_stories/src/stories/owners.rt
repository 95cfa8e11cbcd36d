//! Stories of owners and their orders.
use crate::{Story, WITH_ACME};

const PLACED_ONCE: &str = r#"
> ACME ACMEKEY1 GET /orders
= 200 {"orders":[]}
> ACME ACMEKEY1 GET /stock
= 200 {"lots":[]}
> ACME ACMEKEY1 POST /orders {"order":"O-1","recipe":"R-1","batches":2}
= 200 {"batches":2,"order":"O-1","recipe":"R-1","status":"open"}
> ACME ACMEKEY1 GET /orders
= 200 {"orders":[{"batches":2,"order":"O-1","recipe":"R-1","status":"open"}]}
> ACME ACMEKEY1 POST /orders {"order":"O-1","recipe":"R-1","batches":2}
= 200 {"batches":2,"order":"O-1","recipe":"R-1","status":"open"}
> ACME ACMEKEY1 POST /orders {"order":"O-1","recipe":"R-1","batches":3}
= 409 {"code":17,"error":"OrderExists"}
> ACME ACMEKEY1 GET /orders
= 200 {"orders":[{"batches":2,"order":"O-1","recipe":"R-1","status":"open"}]}
> ACME ACMEKEY1 GET /orders/O-1
= 200 {"batches":2,"order":"O-1","recipe":"R-1","status":"open"}
> ACME ACMEKEY1 GET /orders/O-2
= 404 {"code":18,"error":"UnknownOrder"}
"#;

const OF_ONE_NAME: &str = r#"
owner-add BOLT BOLTKEY1
recipe-add BOLT R-9 1
> ACME ACMEKEY1 POST /orders {"order":"O-1","recipe":"R-1","batches":2}
= 200 {"batches":2,"order":"O-1","recipe":"R-1","status":"open"}
> BOLT BOLTKEY1 POST /orders {"order":"O-1","recipe":"R-9","batches":7}
= 200 {"batches":7,"order":"O-1","recipe":"R-9","status":"open"}
> ACME ACMEKEY1 GET /orders/O-1
= 200 {"batches":2,"order":"O-1","recipe":"R-1","status":"open"}
> BOLT BOLTKEY1 POST /orders/O-1/cancel
= 200 {"batches":7,"order":"O-1","recipe":"R-9","status":"cancelled"}
> ACME ACMEKEY1 GET /orders
= 200 {"orders":[{"batches":2,"order":"O-1","recipe":"R-1","status":"open"}]}
> BOLT BOLTKEY1 GET /orders/O-1
= 200 {"batches":7,"order":"O-1","recipe":"R-9","status":"cancelled"}
"#;

const ADDED_ONCE: &str = r#"
owner-add ACME ACMEKEY1
= refused OwnerExists
owner-add HOUSE HOUSEKEY1
= refused OwnerExists
owner-add BOLT BOLT
= refused BadName
recipe-add ACME R-1 2
= refused RecipeExists
recipe-add BOLT R-1 2
= refused UnknownOwner
unit-add U1
unit-add U1
= refused UnitExists
"#;

const AN_ORDER_IS_PLACED_ONCE: Story = &[WITH_ACME, PLACED_ONCE];

const OWNERS_HAVE_ORDERS_OF_ONE_NAME: Story = &[WITH_ACME, OF_ONE_NAME];

const AN_OWNER_IS_ADDED_ONCE: Story = &[WITH_ACME, ADDED_ONCE];

pub const OWNERS: &[Story] = &[
    AN_ORDER_IS_PLACED_ONCE,
    OWNERS_HAVE_ORDERS_OF_ONE_NAME,
    AN_OWNER_IS_ADDED_ONCE,
];
