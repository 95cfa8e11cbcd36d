//! Runs over an office whose files stop, and what shows the office before and after each.
use crate::stop::disks::empty_files;
use crate::stop::refused::check_refused;
use crate::stop::runs::{Adopting, Making, Telling};
use crate::stop::stops::check_stops;
use std::test::Fail;
use toll_stories::{
    A_CONSUMED, CONSUMED_AND_PRODUCED, P1_PRODUCED, RELEASED_AND_PLACED, Story, WITH_ACME,
    WITH_BATCH, WITH_HOUSE, WITH_PRODUCT_OF_HOUSE, WITH_RECIPE, WITH_RECIPE_OF_HOUSE,
};

#[test]
fn a_stop_leaves_no_tables_or_an_empty_office(rt: HostRuntime) -> Result<(), Fail> {
    check_stops(rt.alloc(), &Making, &empty_files(rt.alloc()))
}

// ACME places an order by that recipe.
const PLACING: Telling = Telling {
    story: &[WITH_ACME],
    line: (
        "> ACME ACMEKEY1 POST /orders {\"order\":\"O-1\",\"recipe\":\"R-1\",\"batches\":2}",
        "200 {\"batches\":2,\"order\":\"O-1\",\"recipe\":\"R-1\",\"status\":\"open\"}",
    ),
    fault: "503 {\"error\":\"Unavailable\"}",
    before: r#"
> ACME ACMEKEY1 GET /orders
= 200 {"orders":[]}
"#,
    after: r#"
> ACME ACMEKEY1 GET /orders
= 200 {"orders":[{"batches":2,"order":"O-1","recipe":"R-1","status":"open"}]}
"#,
};

// The batch consumes all that HOUSE has.
const CONSUMING: Telling = Telling {
    story: &[WITH_HOUSE, RELEASED_AND_PLACED, A_CONSUMED],
    line: (
        "actual K4 ACME O 1 1 consumed W HOUSE H-1 S 10 2",
        "accepted",
    ),
    fault: "fault Disk",
    before: r#"
stock HOUSE
: H-1              S                W                released                10 kg
batch ACME O 1
: O/1 running U1 open
:  1 consumed ACME             M                        10             10
:  1 consumed HOUSE            W                        10              0
:  1 produced ACME             P                        10              0
:  2 consumed ACME             M                        10              0
"#,
    after: r#"
stock HOUSE
: H-1              S                W                released                 0 kg
batch ACME O 1
: O/1 running U1 open
:  1 consumed ACME             M                        10             10
:  1 consumed HOUSE            W                        10             10
:  1 produced ACME             P                        10              0
:  2 consumed ACME             M                        10              0
"#,
};

// The batch of ACME is opened.
const OPENING: Telling = Telling {
    story: &[WITH_RECIPE_OF_HOUSE, WITH_PRODUCT_OF_HOUSE],
    line: ("open ACME O U2", "accepted"),
    fault: "fault Disk",
    before: r#"
> ACME ACMEKEY1 GET /batches/O/1
= 404 {"code":22,"error":"UnknownBatch"}
batch ACME O 1
= refused UnknownBatch
"#,
    after: r#"
> ACME ACMEKEY1 GET /batches/O/1
= 200 {"batch":1,"closed":false,"order":"O","requirements":[{"actual":0,"material":"V","owner":"HOUSE","required":4,"segment":1,"use":"consumed"},{"actual":0,"material":"P","owner":"ACME","required":5,"segment":1,"use":"produced"}],"state":"idle","unit":"U2"}
batch ACME O 1
: O/1 idle U2 open
:  1 consumed HOUSE            V                         4              0
:  1 produced ACME             P                         5              0
"#,
};

// A batch that consumed HOUSE's `H-1`, of which nothing is left.
const WITH_H1_CONSUMED: Story = &[WITH_HOUSE, RELEASED_AND_PLACED, A_CONSUMED, P1_PRODUCED];

const H1_CONSUMED: &str = r#"
stock HOUSE
: H-1              S                W                released                 0 kg
> ACME ACMEKEY1 GET /trace/house/H-1
= 200 {"lots":[{"lot":"H-1","owner":"HOUSE","steps":0},{"lot":"P1","owner":"ACME","steps":1}]}
"#;

// The batch gives back what it consumed of HOUSE's.
const VOIDING: Telling = Telling {
    story: WITH_H1_CONSUMED,
    line: ("void ACME K4", "accepted"),
    fault: "fault Disk",
    before: H1_CONSUMED,
    after: r#"
stock HOUSE
: H-1              S                W                released                10 kg
> ACME ACMEKEY1 GET /trace/house/H-1
= 404 {"code":27,"error":"UnknownLot"}
"#,
};

// The batch gives back what it consumed of ACME's.
const VOIDING_OWN: Telling = Telling {
    story: &[WITH_RECIPE, WITH_BATCH, CONSUMED_AND_PRODUCED],
    line: ("void ACME K2", "accepted"),
    fault: "fault Disk",
    before: r#"
stock ACME
: A                S1               M                released                60 kg
: P1               S1               P                quarantined             30 kg
"#,
    after: r#"
stock ACME
: A                S1               M                released               100 kg
: P1               S1               P                quarantined             30 kg
"#,
};

const RUNS: &[Telling] = &[PLACING, CONSUMING, OPENING, VOIDING];

#[test]
fn a_stop_leaves_the_rows_from_before_or_after(rt: HostRuntime) -> Result<(), Fail> {
    for run in RUNS {
        check_stops(rt.alloc(), run, &run.files(rt.alloc())?)?;
    }
    Ok(())
}

#[test]
fn a_stop_leaves_what_an_owner_consumed_or_gives_it_back(rt: HostRuntime) -> Result<(), Fail> {
    check_stops(rt.alloc(), &VOIDING_OWN, &VOIDING_OWN.files(rt.alloc())?)
}

// The office of version 1 in which HOUSE's `H-1` was consumed.
const ADOPTING: Adopting = Adopting {
    story: WITH_H1_CONSUMED,
    rows: H1_CONSUMED,
};

#[test]
fn a_stop_leaves_version_1_or_version_2_with_its_rows(rt: HostRuntime) -> Result<(), Fail> {
    check_stops(rt.alloc(), &ADOPTING, &ADOPTING.files(rt.alloc())?)
}

// An owner is shown into which lots HOUSE's `H-1` went.
const TRACING: Telling = Telling {
    story: WITH_H1_CONSUMED,
    line: (
        "> ACME ACMEKEY1 GET /trace/house/H-1",
        "200 {\"lots\":[{\"lot\":\"H-1\",\"owner\":\"HOUSE\",\"steps\":0},{\"lot\":\"P1\",\"owner\":\"ACME\",\"steps\":1}]}",
    ),
    fault: "503 {\"error\":\"Unavailable\"}",
    before: H1_CONSUMED,
    after: H1_CONSUMED,
};

#[test]
fn a_refused_call_of_a_keep_leaves_the_rows_from_before(rt: HostRuntime) -> Result<(), Fail> {
    for run in RUNS {
        check_refused(rt.alloc(), run)?;
    }
    Ok(())
}

#[test]
fn a_refused_call_of_a_void_or_a_trace_changes_nothing(rt: HostRuntime) -> Result<(), Fail> {
    check_refused(rt.alloc(), &VOIDING_OWN)?;
    check_refused(rt.alloc(), &TRACING)
}
