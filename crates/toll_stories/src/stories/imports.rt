//! Stories of files that are imported.
use crate::{Refused, Refusing, Story, WITH_BATCH, WITH_RECIPE, check_said_over};
use std::alloc::Global;
use std::test::Fail;
use toll_keep::Keep;

/// Three records, of which the last repeats the first.
pub const IMPORTED: &str = r#"
records
+ K2,ACME,O,1,1,consumed,M,ACME,A,S1,40,11
+ K3,ACME,O,1,1,produced,P,ACME,P1,S1,30,11
+ K2,ACME,O,1,1,consumed,M,ACME,A,S1,40,11
:      1 accepted
:      2 accepted
:      3 repeated
: accepted 2 repeated 1 refused 0 bad 0 fault 0
stock ACME
: A                S1               M                released                60 kg
: P1               S1               P                quarantined             30 kg
"#;

const IMPORTED_AGAIN: &str = r#"
records
+ K2,ACME,O,1,1,consumed,M,ACME,A,S1,40,11
+ K3,ACME,O,1,1,produced,P,ACME,P1,S1,30,11
+ K2,ACME,O,1,1,consumed,M,ACME,A,S1,40,11
:      1 repeated
:      2 repeated
:      3 repeated
: accepted 0 repeated 3 refused 0 bad 0 fault 0
stock ACME
: A                S1               M                released                60 kg
: P1               S1               P                quarantined             30 kg
"#;

// One group puts each of two sublots several times.
const OF_ONE_SUBLOT: &str = r#"
records
+ K2,ACME,O,1,1,consumed,M,ACME,A,S1,40,11
+ K3,ACME,O,1,1,produced,P,ACME,P1,S1,30,11
+ K4,ACME,O,1,1,consumed,M,ACME,A,S1,10,11
+ K5,ACME,O,1,1,produced,P,ACME,P1,S2,1,11
+ K6,ACME,O,1,1,consumed,M,ACME,A,S1,50,11
+ K7,ACME,O,1,1,produced,P,ACME,P1,S1,2,11
:      1 accepted
:      2 accepted
:      3 accepted
:      4 accepted
:      5 accepted
:      6 accepted
: accepted 6 repeated 0 refused 0 bad 0 fault 0
stock ACME
: A                S1               M                released                 0 kg
: P1               S1               P                quarantined             32 kg
: P1               S2               P                quarantined              1 kg
"#;

const VOIDED_BETWEEN: &str = r#"
void ACME K2
records
+ K2,ACME,O,1,1,consumed,M,ACME,A,S1,40,11
+ K3,ACME,O,1,1,produced,P,ACME,P1,S1,30,11
+ K2,ACME,O,1,1,consumed,M,ACME,A,S1,40,11
:      1 refused 41 Voided
:      2 repeated
:      3 refused 41 Voided
: accepted 0 repeated 1 refused 2 bad 0 fault 0
"#;

// The product may be consumed in segment 2.
const CONSUMED_AGAIN: &str = r#"
require ACME R 2 consumed ACME P 1
"#;

const REFUSED_AND_LATER_ACCEPTED: &str = r#"
records
+ K2,ACME,O,1,2,consumed,P,ACME,P1,S1,1,11
+ K3,ACME,O,1,1,produced,P,ACME,P1,S1,30,11
:      1 refused 27 UnknownLot
:      2 accepted
: accepted 1 repeated 0 refused 1 bad 0 fault 0
records
+ K2,ACME,O,1,2,consumed,P,ACME,P1,S1,1,11
+ K3,ACME,O,1,1,produced,P,ACME,P1,S1,30,11
:      1 refused 31 NotReleased
:      2 repeated
: accepted 0 repeated 1 refused 1 bad 0 fault 0
> ACME ACMEKEY1 POST /lots/P1/release
= 200 {"disposition":"released","lot":"P1","material":"P","measure":"kg","origin":"O/1","results":[],"sublots":[{"amount":30,"sublot":"S1"}]}
records
+ K2,ACME,O,1,2,consumed,P,ACME,P1,S1,1,11
+ K3,ACME,O,1,1,produced,P,ACME,P1,S1,30,11
:      1 accepted
:      2 repeated
: accepted 1 repeated 1 refused 0 bad 0 fault 0
"#;

// Nothing of the file stands if its changes are refused: the first record that would have changed something
// met the fault, whether it is the first of the file, one in its middle, or the last.
const REFUSED_AT_THE_FIRST: &str = r#"
records
+ K2,ACME,O,1,1,consumed,M,ACME,A,S1,40,11
+ K3,ACME,O,1,1,produced,P,ACME,P1,S1,30,11
:      1 fault Memory
: accepted 0 repeated 0 refused 0 bad 0 fault 1
stock ACME
: A                S1               M                released               100 kg
"#;

const REFUSED_IN_THE_MIDDLE: &str = r#"
records
+ K2,ACME,O,1,1,consumed
+ -K2,ACME,O,1,1,consumed,M,ACME,A,S1,40,11
+ K2,ACME,O,1,1,consumed,M,ACME,A,S1,40,11
+ K3,ACME,O,1,1,produced,P,ACME,P1,S1,30,11
:      1 bad-record
:      2 refused 1 BadName
:      3 fault Memory
: accepted 0 repeated 0 refused 1 bad 1 fault 1
stock ACME
: A                S1               M                released               100 kg
"#;

/// One record.
pub const K2_IMPORTED: &str = r#"
records
+ K2,ACME,O,1,1,consumed,M,ACME,A,S1,40,11
:      1 accepted
: accepted 1 repeated 0 refused 0 bad 0 fault 0
"#;

const REFUSED_AT_THE_LAST: &str = r#"
records
+ K2,ACME,O,1,1,consumed,M,ACME,A,S1,40,11
+ K2,ACME,O,1,1,consumed
+ K3,ACME,O,1,1,produced,P,ACME,P1,S1,30,11
:      1 repeated
:      2 bad-record
:      3 fault Memory
: accepted 0 repeated 1 refused 0 bad 1 fault 1
stock ACME
: A                S1               M                released                60 kg
"#;

const LAST_IMPORTED: &str = r#"
records
+ K2,ACME,O,1,1,consumed,M,ACME,A,S1,40,11
+ K2,ACME,O,1,1,consumed
+ K3,ACME,O,1,1,produced,P,ACME,P1,S1,30,11
:      1 repeated
:      2 bad-record
:      3 accepted
: accepted 1 repeated 1 refused 0 bad 1 fault 0
stock ACME
: A                S1               M                released                60 kg
: P1               S1               P                quarantined             30 kg
"#;

const A_FILE_THAT_WAS_IMPORTED_CHANGES_NOTHING_AGAIN: Story = &[
    WITH_RECIPE,
    WITH_BATCH,
    IMPORTED,
    IMPORTED_AGAIN,
];

const THE_LAST_OF_SEVERAL_PUTS_COUNTS: Story = &[WITH_RECIPE, WITH_BATCH, OF_ONE_SUBLOT];

const A_VOIDED_ACTUAL_IS_REFUSED_WHEN_IT_IS_IMPORTED_AGAIN: Story = &[
    WITH_RECIPE,
    WITH_BATCH,
    IMPORTED,
    VOIDED_BETWEEN,
];

const A_REFUSED_RECORD_MAY_BE_IMPORTED_LATER: Story = &[
    WITH_RECIPE,
    CONSUMED_AGAIN,
    WITH_BATCH,
    REFUSED_AND_LATER_ACCEPTED,
];

pub const IMPORTS: &[Story] = &[
    A_FILE_THAT_WAS_IMPORTED_CHANGES_NOTHING_AGAIN,
    THE_LAST_OF_SEVERAL_PUTS_COUNTS,
    A_VOIDED_ACTUAL_IS_REFUSED_WHEN_IT_IS_IMPORTED_AGAIN,
    A_REFUSED_RECORD_MAY_BE_IMPORTED_LATER,
];

/// What is said before, and what over the same keep when it refuses the first change.
pub type RefusedStory = (Story, Story);

/// Imports of which the first change is refused.
pub const REFUSED_IMPORTS: &[RefusedStory] = &[
    (
        &[WITH_RECIPE, WITH_BATCH],
        &[REFUSED_AT_THE_FIRST, IMPORTED],
    ),
    (
        &[WITH_RECIPE, WITH_BATCH],
        &[REFUSED_IN_THE_MIDDLE, IMPORTED],
    ),
    (
        &[WITH_RECIPE, WITH_BATCH, K2_IMPORTED],
        &[REFUSED_AT_THE_LAST, LAST_IMPORTED],
    ),
];

/// Fails if another reply is given along such a story, over this keep.
pub fn check_refused_import<K: Keep + Drop>(
    alloc: Global,
    mut keep: K,
    story: &RefusedStory,
) -> Result<(), Fail> {
    let (before, refused) = *story;
    check_said_over(alloc, &mut keep, before)?;
    check_said_over::<Refusing<K>>(alloc, &mut Refusing::new(keep, Refused::Apply), refused)
}
