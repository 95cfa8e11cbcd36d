//! Stories of orders, batches and units.
use crate::{Story, WITH_BATCH, WITH_RECIPE};

const UNIT_IS_HELD: &str = r#"
recipe-add BOLT R 1
> BOLT BOLTKEY1 POST /orders {"order":"O","recipe":"R","batches":1}
= 200 {"batches":1,"order":"O","recipe":"R","status":"open"}
open BOLT O U1
= refused UnitBusy
> BOLT BOLTKEY1 GET /batches/O/1
= 404 {"code":22,"error":"UnknownBatch"}
open BOLT O U9
= refused UnknownUnit
"#;

const CANCELLED: &str = r#"
> ACME ACMEKEY1 POST /orders/O/cancel
= 409 {"code":20,"error":"OrderStarted"}
> ACME ACMEKEY1 GET /orders/O
= 200 {"batches":1,"order":"O","recipe":"R","status":"open"}
> ACME ACMEKEY1 POST /orders/O-9/cancel
= 404 {"code":18,"error":"UnknownOrder"}
> ACME ACMEKEY1 POST /orders {"order":"O-1","recipe":"R","batches":2}
= 200 {"batches":2,"order":"O-1","recipe":"R","status":"open"}
> ACME ACMEKEY1 POST /orders/O-1/cancel
= 200 {"batches":2,"order":"O-1","recipe":"R","status":"cancelled"}
> ACME ACMEKEY1 POST /orders {"order":"O-1","recipe":"R","batches":2}
= 200 {"batches":2,"order":"O-1","recipe":"R","status":"cancelled"}
> ACME ACMEKEY1 POST /orders/O-1/cancel
= 409 {"code":19,"error":"OrderCancelled"}
open ACME O-1 U1
= refused OrderCancelled
> ACME ACMEKEY1 POST /orders {"order":"B","recipe":"R","batches":99}
= 200 {"batches":99,"order":"B","recipe":"R","status":"open"}
orders ACME
: B                R                99 open
: O                R                 1 open
: O-1              R                 2 cancelled
"#;

const ORDERS_OF_HOUSE: &str = r#"
order HO NONE 1
= refused UnknownRecipe
recipe-add HOUSE HB 1
order HO HB 1
order HO HB 1
= repeated
cancel HO
cancel HO
= refused OrderCancelled
release H-1
= refused UnknownLot
reject H-1
= refused UnknownLot
"#;

const REQUIREMENTS: &str = r#"
require ACME R 1 consumed BOLT M 1
= refused RecipeInUse
recipe-add ACME R2 1
require ACME R2 1 consumed BOLT M 1
= refused CrossOwner
require ACME R2 1 produced HOUSE M 1
= refused CrossOwner
require ACME R2 2 consumed ACME M 1
= refused BadSegment
require ACME R2 1 consumed ACME N 1
= refused UnknownMaterial
"#;

const A_UNIT_IS_HELD_WHOEVER_HOLDS_IT: Story = &[WITH_RECIPE, WITH_BATCH, UNIT_IS_HELD];

const AN_ORDER_IS_CANCELLED_BEFORE_ITS_FIRST_BATCH: Story = &[WITH_RECIPE, WITH_BATCH, CANCELLED];

const HOUSE_ORDERS_AS_OWNERS_DO: Story = &[WITH_RECIPE, WITH_BATCH, ORDERS_OF_HOUSE, REQUIREMENTS];

pub const BATCHES: &[Story] = &[
    A_UNIT_IS_HELD_WHOEVER_HOLDS_IT,
    AN_ORDER_IS_CANCELLED_BEFORE_ITS_FIRST_BATCH,
    HOUSE_ORDERS_AS_OWNERS_DO,
];
