//! Stories of movements.
use crate::{Story, WITH_BATCH, WITH_RECIPE};

// A batch of `O` consumes the 100 of `M` in lot `A`, once.
const CONSUMED_ONCE: &str = r#"
actual K2 ACME O 1 1 consumed M ACME A S1 100 11
actual K2 ACME O 1 1 consumed M ACME A S1 100 11
= repeated
actual K2 ACME O 1 1 consumed M ACME A S1 99 11
= refused KeyConflict
actual K3 ACME O 1 1 consumed M ACME A S1 1 11
= refused NotEnough
"#;

const ALL_CONSUMED: &str = r#"
> ACME ACMEKEY1 GET /lots/A
= 200 {"disposition":"released","lot":"A","material":"M","measure":"kg","origin":"receipts","results":[],"sublots":[{"amount":0,"sublot":"S1"}]}
> ACME ACMEKEY1 GET /batches/O/1
= 200 {"batch":1,"closed":false,"order":"O","requirements":[{"actual":100,"material":"M","owner":"ACME","required":100,"segment":1,"use":"consumed"},{"actual":0,"material":"P","owner":"ACME","required":90,"segment":1,"use":"produced"}],"state":"running","unit":"U1"}
"#;

// The product may be consumed in segment 2.
const CONSUMED_AGAIN: &str = r#"
require ACME R 2 consumed ACME P 1
"#;

const PRODUCT_CONSUMED: &str = r#"
actual K2 ACME O 1 2 consumed P ACME P1 S1 1 11
= refused UnknownLot
actual K3 ACME O 1 1 produced P ACME P1 S1 30 11
actual K2 ACME O 1 2 consumed P ACME P1 S1 1 11
= refused NotReleased
receive ACME K9 P P1 S1 1 11
= refused WrongOrigin
actual K9 ACME O 1 1 produced P ACME A S1 1 11
= refused WrongOrigin
actual K9 ACME O 1 3 consumed M ACME A S1 1 11
= refused BadSegment
actual K3 ACME O 1 1 produced P ACME P1 S1 30 11
= repeated
> ACME ACMEKEY1 POST /lots/P1/release
= 200 {"disposition":"released","lot":"P1","material":"P","measure":"kg","origin":"O/1","results":[],"sublots":[{"amount":30,"sublot":"S1"}]}
actual K2 ACME O 1 2 consumed P ACME P1 S1 1 11
actual K3 ACME O 1 1 produced P ACME P1 S1 30 11
= repeated
> ACME ACMEKEY1 GET /stock
= 200 {"lots":[{"amount":100,"disposition":"released","lot":"A","material":"M","measure":"kg"},{"amount":29,"disposition":"released","lot":"P1","material":"P","measure":"kg"}]}
"#;

const SPLIT_AND_SHIPPED: &str = r#"
split ACME K4 A S1 S2 30 12
split ACME K5 A S1 S1 1 12
= refused SameSublot
scrap ACME K6 A S2 30 12
stock ACME
: A                S1               M                released                70 kg
: A                S2               M                released                 0 kg
ship ACME K7 A S1 70 12
recall ACME A
:  steps owner            lot              disposition        on-hand        shipped
:      0 ACME             A                released                 0             70
ship ACME K8 A S1 1 12
= refused NotEnough
ship ACME K8 A S3 1 12
= refused UnknownSublot
batch ACME O 1
: O/1 running U1 open
:  1 consumed ACME             M                       100              0
:  1 produced ACME             P                        90              0
batch ACME O 2
= refused UnknownBatch
stock BOLT
=
orders BOLT
=
stock NOBODY
= refused UnknownOwner
receive ACME K9 M A S1 0 12
= refused BadAmount
receive ACME K9 M A S1 1000000001 12
= refused BadAmount
receive ACME K9 M A S1 1 12
= refused NotQuarantined
"#;

const IN_STOCK: &str = r#"
actual K2 ACME O 1 1 consumed M ACME A S1 40 11
actual K3 ACME O 1 1 produced P ACME P1 S1 30 11
> ACME ACMEKEY1 GET /stock
= 200 {"lots":[{"amount":60,"disposition":"released","lot":"A","material":"M","measure":"kg"},{"amount":30,"disposition":"quarantined","lot":"P1","material":"P","measure":"kg"}]}
> ACME ACMEKEY1 GET /lots/P1
= 200 {"disposition":"quarantined","lot":"P1","material":"P","measure":"kg","origin":"O/1","results":[],"sublots":[{"amount":30,"sublot":"S1"}]}
> BOLT BOLTKEY1 GET /stock
= 200 {"lots":[]}
> BOLT BOLTKEY1 GET /lots/A
= 404 {"code":27,"error":"UnknownLot"}
"#;

const A_BATCH_CONSUMES_WHAT_THERE_IS: Story = &[
    WITH_RECIPE,
    WITH_BATCH,
    CONSUMED_ONCE,
    ALL_CONSUMED,
];

const A_PRODUCT_IS_CONSUMED_ONCE_IT_IS_RELEASED: Story = &[
    WITH_RECIPE,
    CONSUMED_AGAIN,
    WITH_BATCH,
    PRODUCT_CONSUMED,
];

const MATERIAL_IS_SPLIT_SCRAPPED_AND_SHIPPED: Story = &[WITH_RECIPE, WITH_BATCH, SPLIT_AND_SHIPPED];

const WHAT_IS_IN_STOCK_IS_LISTED: Story = &[WITH_RECIPE, WITH_BATCH, IN_STOCK];

pub const MOVEMENTS: &[Story] = &[
    A_BATCH_CONSUMES_WHAT_THERE_IS,
    A_PRODUCT_IS_CONSUMED_ONCE_IT_IS_RELEASED,
    MATERIAL_IS_SPLIT_SCRAPPED_AND_SHIPPED,
    WHAT_IS_IN_STOCK_IS_LISTED,
];
