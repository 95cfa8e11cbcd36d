//! Stories of lots, their tests and their dispositions.
use crate::Story;

const TESTED: &str = r#"
owner-add ACME ACMEKEY1
material-add ACME ABCDEFGHIJKLMNOPQ kg
= refused BadName
material-add ACME M kg
test-add ACME M PH 8 M5
= refused BadAmount
test-add ACME M PH M5 008
test-add ACME M PH M5 8
= refused TestExists
receive ACME K1 M A S 10 1
receive ACME K1 M A S 10 1
= repeated
receive ACME K1 M A S 9 1
= refused KeyConflict
receive ACME K1 M A S 10 2
= refused KeyConflict
> ACME ACMEKEY1 POST /lots/A/release
= 409 {"code":36,"error":"TestsOpen"}
result ACME A PH M6 1
> ACME ACMEKEY1 POST /lots/A/release
= 409 {"code":36,"error":"TestsOpen"}
result ACME A PH 8 1
> ACME ACMEKEY1 POST /lots/A/release
= 200 {"disposition":"released","lot":"A","material":"M","measure":"kg","origin":"receipts","results":[{"day":1,"test":"PH","value":-6},{"day":1,"test":"PH","value":8}],"sublots":[{"amount":10,"sublot":"S"}]}
"#;

const OUT_OF_LIMITS: &str = r#"
result ACME A PH 9 2
> ACME ACMEKEY1 GET /lots/A
= 200 {"disposition":"quarantined","lot":"A","material":"M","measure":"kg","origin":"receipts","results":[{"day":1,"test":"PH","value":-6},{"day":1,"test":"PH","value":8},{"day":2,"test":"PH","value":9}],"sublots":[{"amount":10,"sublot":"S"}]}
> ACME ACMEKEY1 POST /lots/A/release
= 409 {"code":36,"error":"TestsOpen"}
ship ACME K9 A S 1 3
= refused NotReleased
test-add ACME M PH2 0 1
= refused MaterialInUse
> ACME ACMEKEY1 POST /lots/A/reject
= 200 {"disposition":"rejected","lot":"A","material":"M","measure":"kg","origin":"receipts","results":[{"day":1,"test":"PH","value":-6},{"day":1,"test":"PH","value":8},{"day":2,"test":"PH","value":9}],"sublots":[{"amount":10,"sublot":"S"}]}
> ACME ACMEKEY1 POST /lots/A/reject
= 409 {"code":42,"error":"Rejected"}
result ACME A PH 8 3
= refused Rejected
> ACME ACMEKEY1 GET /lots/B
= 404 {"code":27,"error":"UnknownLot"}
"#;

// Three lots, two of whose names begin alike, with results and sublots.
const NAMED_ALIKE: &str = r#"
owner-add ACME ACMEKEY1
material-add ACME M kg
material-add ACME P l
test-add ACME M PH 0 9
test-add ACME M TASTE 0 9
test-add ACME P PH 0 9
receive ACME K1 P A S1 40 1
receive ACME K2 P A S2 2 1
receive ACME K3 M AB S1 7 1
receive ACME K4 M B S1 1000000000 0
result ACME A PH 1 2
result ACME AB PH 3 2
result ACME AB PH 4 3
result ACME AB TASTE 5 3
result ACME B PH M1000000000 9999999
> ACME ACMEKEY1 GET /stock
= 200 {"lots":[{"amount":42,"disposition":"quarantined","lot":"A","material":"P","measure":"l"},{"amount":7,"disposition":"quarantined","lot":"AB","material":"M","measure":"kg"},{"amount":1000000000,"disposition":"quarantined","lot":"B","material":"M","measure":"kg"}]}
> ACME ACMEKEY1 GET /lots/A
= 200 {"disposition":"quarantined","lot":"A","material":"P","measure":"l","origin":"receipts","results":[{"day":2,"test":"PH","value":1}],"sublots":[{"amount":40,"sublot":"S1"},{"amount":2,"sublot":"S2"}]}
> ACME ACMEKEY1 GET /lots/AB
= 200 {"disposition":"quarantined","lot":"AB","material":"M","measure":"kg","origin":"receipts","results":[{"day":2,"test":"PH","value":3},{"day":3,"test":"PH","value":4},{"day":3,"test":"TASTE","value":5}],"sublots":[{"amount":7,"sublot":"S1"}]}
> ACME ACMEKEY1 GET /lots/B
= 200 {"disposition":"quarantined","lot":"B","material":"M","measure":"kg","origin":"receipts","results":[{"day":9999999,"test":"PH","value":-1000000000}],"sublots":[{"amount":1000000000,"sublot":"S1"}]}
"#;

const A_LOT_IS_RELEASED_WHILE_ITS_TESTS_PASS: Story = &[TESTED, OUT_OF_LIMITS];

const A_LOT_IS_SHOWN_WITH_ITS_OWN_ROWS: Story = &[NAMED_ALIKE];

pub const LOTS: &[Story] = &[
    A_LOT_IS_RELEASED_WHILE_ITS_TESTS_PASS,
    A_LOT_IS_SHOWN_WITH_ITS_OWN_ROWS,
];
