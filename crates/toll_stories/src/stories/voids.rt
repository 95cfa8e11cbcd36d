//! Stories of actuals that are taken back.
use crate::{
    A_CONSUMED, CONSUMED_AND_PRODUCED, P1_PRODUCED, RELEASED_AND_PLACED, Story, WITH_BATCH,
    WITH_HOUSE, WITH_RECIPE,
};

// Then the consumption is voided, once.
const CONSUMPTION_VOIDED: &str = r#"
void ACME K3
= refused NotEnough
void ACME K2
void ACME K2
= refused Voided
"#;

const AS_IF_NOT_CONSUMED: &str = r#"
stock ACME
: A                S1               M                released               100 kg
: P1               S1               P                quarantined             30 kg
> ACME ACMEKEY1 GET /stock
= 200 {"lots":[{"amount":100,"disposition":"released","lot":"A","material":"M","measure":"kg"},{"amount":30,"disposition":"quarantined","lot":"P1","material":"P","measure":"kg"}]}
> ACME ACMEKEY1 GET /trace/back/P1
= 200 {"lots":[{"lot":"P1","owner":"ACME","steps":0}]}
trace ACME A forward
:      0 ACME             A
> ACME ACMEKEY1 GET /batches/O/1
= 200 {"batch":1,"closed":false,"order":"O","requirements":[{"actual":0,"material":"M","owner":"ACME","required":100,"segment":1,"use":"consumed"},{"actual":50,"material":"P","owner":"ACME","required":90,"segment":1,"use":"produced"}],"state":"running","unit":"U1"}
"#;

const KEYS_STAY_TAKEN: &str = r#"
actual K2 ACME O 1 1 consumed M ACME A S1 40 11
= refused Voided
actual K2 ACME O 1 1 consumed M ACME A S1 41 11
= refused KeyConflict
void ACME K1
= refused UnknownKey
void ACME K9
= refused UnknownKey
do ACME O 1 stop
do ACME O 1 done
close ACME O 1
void ACME K3
= refused BatchClosed
void ACME K2
= refused Voided
"#;

const GIVEN_BACK_TO_HOUSE: &str = r#"
stock HOUSE
: H-1              S                W                released                 0 kg
void ACME K4
> ACME ACMEKEY1 GET /trace/house/H-1
= 404 {"code":27,"error":"UnknownLot"}
> ACME ACMEKEY1 GET /trace/back/P1
= 200 {"lots":[{"lot":"P1","owner":"ACME","steps":0},{"lot":"A","owner":"ACME","steps":1}]}
stock HOUSE
: H-1              S                W                released                10 kg
"#;

const A_VOIDED_CONSUMPTION_GIVES_BACK: Story = &[
    WITH_RECIPE,
    WITH_BATCH,
    CONSUMED_AND_PRODUCED,
    CONSUMPTION_VOIDED,
    AS_IF_NOT_CONSUMED,
    KEYS_STAY_TAKEN,
];

const A_VOID_GIVES_BACK_TO_HOUSE: Story = &[
    WITH_HOUSE,
    RELEASED_AND_PLACED,
    A_CONSUMED,
    P1_PRODUCED,
    GIVEN_BACK_TO_HOUSE,
];

pub const VOIDS: &[Story] = &[A_VOIDED_CONSUMPTION_GIVES_BACK, A_VOID_GIVES_BACK_TO_HOUSE];
