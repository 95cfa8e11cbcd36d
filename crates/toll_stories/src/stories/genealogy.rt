//! Stories of traces and recalls.
use crate::{A_CONSUMED, P1_PRODUCED, RELEASED_AND_PLACED, Story, WITH_HOUSE};

const TRACED: &str = r#"
> ACME ACMEKEY1 GET /trace/back/P1
= 200 {"lots":[{"lot":"P1","owner":"ACME","steps":0},{"lot":"A","owner":"ACME","steps":1},{"lot":"H-1","owner":"HOUSE","steps":1}]}
trace ACME P1 back
:      0 ACME             P1
:      1 ACME             A
:      1 HOUSE            H-1
> ACME ACMEKEY1 GET /trace/forward/B
= 200 {"lots":[{"lot":"B","owner":"ACME","steps":0}]}
> ACME ACMEKEY1 GET /trace/forward/A
= 200 {"lots":[{"lot":"A","owner":"ACME","steps":0},{"lot":"P1","owner":"ACME","steps":1}]}
> ACME ACMEKEY1 GET /trace/house/H-1
= 200 {"lots":[{"lot":"H-1","owner":"HOUSE","steps":0},{"lot":"P1","owner":"ACME","steps":1}]}
> ACME ACMEKEY1 GET /trace/house/H-9
= 404 {"code":27,"error":"UnknownLot"}
> ACME ACMEKEY1 GET /trace/back/H-1
= 404 {"code":27,"error":"UnknownLot"}
trace ACME H-1 back
= refused UnknownLot
trace ACME P1 sideways
= refused BadName
"#;

// Recipe R1 makes `P` of `Q`, and R2 makes `Q` of `P`.
const WITH_TWO_RECIPES: &str = r#"
owner-add ACME ACMEKEY1
unit-add U1
unit-add U2
material-add ACME P kg
material-add ACME Q kg
recipe-add ACME R1 1
require ACME R1 1 consumed ACME Q 10
require ACME R1 1 produced ACME P 10
recipe-add ACME R2 1
require ACME R2 1 consumed ACME P 10
require ACME R2 1 produced ACME Q 10
"#;

// An order by each of the two recipes.
const BOTH_PLACED: &str = r#"
> ACME ACMEKEY1 POST /orders {"order":"X","recipe":"R1","batches":1}
= 200 {"batches":1,"order":"X","recipe":"R1","status":"open"}
> ACME ACMEKEY1 POST /orders {"order":"Y","recipe":"R2","batches":1}
= 200 {"batches":1,"order":"Y","recipe":"R2","status":"open"}
"#;

// Batches of `X` by R1 and of `Y` by R2 run.
const BOTH_RUN: &str = r#"
open ACME X U1
open ACME Y U2
do ACME X 1 start
do ACME Y 1 start
"#;

const IN_A_CIRCLE: &str = r#"
actual K1 ACME X 1 1 produced P ACME P1 S 10 1
> ACME ACMEKEY1 POST /lots/P1/release
= 200 {"disposition":"released","lot":"P1","material":"P","measure":"kg","origin":"X/1","results":[],"sublots":[{"amount":10,"sublot":"S"}]}
actual K2 ACME Y 1 1 consumed P ACME P1 S 10 1
actual K3 ACME Y 1 1 produced Q ACME Q1 S 10 1
> ACME ACMEKEY1 POST /lots/Q1/release
= 200 {"disposition":"released","lot":"Q1","material":"Q","measure":"kg","origin":"Y/1","results":[],"sublots":[{"amount":10,"sublot":"S"}]}
actual K4 ACME X 1 1 consumed Q ACME Q1 S 10 1
> ACME ACMEKEY1 GET /trace/back/P1
= 200 {"lots":[{"lot":"P1","owner":"ACME","steps":0},{"lot":"Q1","owner":"ACME","steps":1}]}
> ACME ACMEKEY1 GET /trace/forward/P1
= 200 {"lots":[{"lot":"P1","owner":"ACME","steps":0},{"lot":"Q1","owner":"ACME","steps":1}]}
"#;

// Materials `W` and `V` of HOUSE's, a recipe of HOUSE's, and one of ACME's that makes `P` of `V` and
// may take `W` too.
const WITH_HOUSE_RECIPE: &str = r#"
owner-add ACME ACMEKEY1
unit-add U1
unit-add U2
material-add HOUSE W kg
material-add HOUSE V kg
material-add ACME P kg
recipe-add HOUSE HR 2
require HOUSE HR 1 consumed HOUSE W 10
require HOUSE HR 2 consumed HOUSE W 10
require HOUSE HR 1 produced HOUSE V 10
recipe-add ACME R 1
require ACME R 1 consumed HOUSE V 4
require ACME R 1 consumed HOUSE W 4
require ACME R 1 produced ACME P 5
"#;

const WITH_BOTH_BATCHES: &str = r#"
order HO HR 1
open HOUSE HO U1
do HOUSE HO 1 start
> ACME ACMEKEY1 POST /orders {"order":"O","recipe":"R","batches":1}
= 200 {"batches":1,"order":"O","recipe":"R","status":"open"}
open ACME O U2
do ACME O 1 start
"#;

const TEN_RECEIVED: &str = r#"
receive HOUSE K1 W H-1 S 10 1
release H-1
"#;

const TWENTY_RECEIVED: &str = r#"
receive HOUSE K1 W H-1 S 20 1
release H-1
"#;

const CONSUMED_IN_SEGMENT_1: &str = r#"
actual K2 HOUSE HO 1 1 consumed W HOUSE H-1 S 10 2
"#;

const CONSUMED_IN_SEGMENT_2: &str = r#"
actual K2 HOUSE HO 1 2 consumed W HOUSE H-1 S 10 2
"#;

const H2_PRODUCED: &str = r#"
actual K3 HOUSE HO 1 1 produced V HOUSE H-2 S 10 2
release H-2
actual K1 ACME O 1 1 consumed V HOUSE H-2 S 4 3
actual K2 ACME O 1 1 produced P ACME P1 S 5 3
"#;

const RECALLED_THROUGH_H2: &str = r#"
> ACME ACMEKEY1 GET /trace/house/H-1
= 404 {"code":27,"error":"UnknownLot"}
> ACME ACMEKEY1 GET /trace/back/P1
= 200 {"lots":[{"lot":"P1","owner":"ACME","steps":0},{"lot":"H-2","owner":"HOUSE","steps":1}]}
> ACME ACMEKEY1 GET /trace/house/H-2
= 200 {"lots":[{"lot":"H-2","owner":"HOUSE","steps":0},{"lot":"P1","owner":"ACME","steps":1}]}
trace ACME P1 back
:      0 ACME             P1
:      1 HOUSE            H-2
:      2 HOUSE            H-1
recall HOUSE H-1
:  steps owner            lot              disposition        on-hand        shipped
:      0 HOUSE            H-1              released                 0              0
:      1 HOUSE            H-2              released                 6              0
:      2 ACME             P1               quarantined              5              0
"#;

const SHIPPED_IN_PARTS: &str = r#"
ship HOUSE K4 H-2 S 2 4
ship HOUSE K5 H-1 S 1 4
ship HOUSE K6 H-2 S 3 4
ship HOUSE K7 H-1 S 6 5
> ACME ACMEKEY1 POST /lots/P1/release
= 200 {"disposition":"released","lot":"P1","material":"P","measure":"kg","origin":"O/1","results":[],"sublots":[{"amount":5,"sublot":"S"}]}
ship ACME K3 P1 S 4 5
recall HOUSE H-1
:  steps owner            lot              disposition        on-hand        shipped
:      0 HOUSE            H-1              released                 3              7
:      1 HOUSE            H-2              released                 1              5
:      2 ACME             P1               released                 1              4
"#;

const NOT_RECALLED: &str = r#"
recall HOUSE H-1
:  steps owner            lot              disposition        on-hand        shipped
:      0 HOUSE            H-1              released                 0              0
recall HOUSE H-2
:  steps owner            lot              disposition        on-hand        shipped
:      0 HOUSE            H-2              released                 6              0
:      1 ACME             P1               quarantined              5              0
recall HOUSE H-3
= refused UnknownLot
"#;

const RECALLED_BOTH_WAYS: &str = r#"
actual K3 ACME O 1 1 consumed W HOUSE H-1 S 4 3
recall HOUSE H-1
:  steps owner            lot              disposition        on-hand        shipped
:      0 HOUSE            H-1              released                 6              0
:      1 ACME             P1               quarantined              5              0
:      1 HOUSE            H-2              released                 6              0
"#;

const TRACES_GO_BY_SEGMENTS: Story = &[
    WITH_HOUSE,
    RELEASED_AND_PLACED,
    A_CONSUMED,
    P1_PRODUCED,
    TRACED,
];

const A_TRACE_ROUND_A_CIRCLE_ENDS: Story = &[WITH_TWO_RECIPES, BOTH_PLACED, BOTH_RUN, IN_A_CIRCLE];

const A_RECALL_GOES_ON_FROM_HOUSE_TO_OWNERS: Story = &[
    WITH_HOUSE_RECIPE,
    WITH_BOTH_BATCHES,
    TEN_RECEIVED,
    CONSUMED_IN_SEGMENT_1,
    H2_PRODUCED,
    RECALLED_THROUGH_H2,
];

const SHIPMENTS_OF_EACH_RECALLED_LOT_ARE_ADDED_UP: Story = &[
    WITH_HOUSE_RECIPE,
    WITH_BOTH_BATCHES,
    TWENTY_RECEIVED,
    CONSUMED_IN_SEGMENT_1,
    H2_PRODUCED,
    SHIPPED_IN_PARTS,
];

const WHAT_IS_CONSUMED_LATER_IS_NOT_RECALLED: Story = &[
    WITH_HOUSE_RECIPE,
    WITH_BOTH_BATCHES,
    TEN_RECEIVED,
    CONSUMED_IN_SEGMENT_2,
    H2_PRODUCED,
    NOT_RECALLED,
];

const A_RECALL_GOES_THE_SHORTEST_WAY: Story = &[
    WITH_HOUSE_RECIPE,
    WITH_BOTH_BATCHES,
    TWENTY_RECEIVED,
    CONSUMED_IN_SEGMENT_1,
    H2_PRODUCED,
    RECALLED_BOTH_WAYS,
];

pub const GENEALOGY: &[Story] = &[
    TRACES_GO_BY_SEGMENTS,
    A_TRACE_ROUND_A_CIRCLE_ENDS,
    A_RECALL_GOES_ON_FROM_HOUSE_TO_OWNERS,
    SHIPMENTS_OF_EACH_RECALLED_LOT_ARE_ADDED_UP,
    WHAT_IS_CONSUMED_LATER_IS_NOT_RECALLED,
    A_RECALL_GOES_THE_SHORTEST_WAY,
];
