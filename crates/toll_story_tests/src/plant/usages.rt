//! How commands are written, as words that are none report it.
use std::alloc::Global;
use toll_plant::{WordsFault, command_of};
use toll_stories::text_of;

const RESULT: &str = "usage: toll --db FILE result OWNER LOT TEST VALUE DAY
No value is empty, is help or begins with a dash: a negative one is written M5.
";

const OWNER_ADD: &str = "usage: toll --db FILE owner-add OWNER KEY
No value is empty, is help or begins with a dash: a negative one is written M5.
";

const MATERIAL_ADD: &str = "usage: toll --db FILE material-add OWNER MATERIAL MEASURE
No value is empty, is help or begins with a dash: a negative one is written M5.
";

const ALL: &str = "usage: one of these commands and questions
       toll --db FILE owner-add OWNER KEY
       toll --db FILE unit-add UNIT
       toll --db FILE material-add OWNER MATERIAL MEASURE
       toll --db FILE test-add OWNER MATERIAL TEST LOW HIGH
       toll --db FILE recipe-add OWNER RECIPE SEGMENTS
       toll --db FILE require OWNER RECIPE SEGMENT USE SOURCE MATERIAL AMOUNT
       toll --db FILE order ORDER RECIPE BATCHES
       toll --db FILE cancel ORDER
       toll --db FILE open OWNER ORDER UNIT
       toll --db FILE do OWNER ORDER BATCH COMMAND
       toll --db FILE close OWNER ORDER BATCH
       toll --db FILE receive OWNER KEY MATERIAL LOT SUBLOT AMOUNT DAY
       toll --db FILE split OWNER KEY LOT SUBLOT TARGET AMOUNT DAY
       toll --db FILE ship OWNER KEY LOT SUBLOT AMOUNT DAY
       toll --db FILE scrap OWNER KEY LOT SUBLOT AMOUNT DAY
       toll --db FILE result OWNER LOT TEST VALUE DAY
       toll --db FILE release LOT
       toll --db FILE reject LOT
       toll --db FILE actual KEY OWNER ORDER BATCH SEGMENT USE MATERIAL LOT-OWNER LOT SUBLOT AMOUNT DAY
       toll --db FILE void OWNER KEY
       toll --db FILE orders OWNER
       toll --db FILE stock OWNER
       toll --db FILE batch OWNER ORDER BATCH
       toll --db FILE trace OWNER LOT WAY
       toll --db FILE recall OWNER LOT
";

const USAGES: &[(&[&str], &str)] = &[
    (&["result", "BERG", "DR-1", "PH", "-5", "204"], RESULT),
    (&["result"], RESULT),
    (&["result", "BERG", "DR-1", "PH", "5"], RESULT),
    (&["owner-add", "ACME"], OWNER_ADD),
    (&["owner-add", "ACME", "ACMEKEY1", "MORE"], OWNER_ADD),
    (&["owner-add", "ACME", "help"], OWNER_ADD),
    (&["owner-add", "-ACME", "ACMEKEY1"], OWNER_ADD),
    (&["owner-add", "", "ACMEKEY1"], OWNER_ADD),
    (&["owner-add", "--", "ACME", "ACMEKEY1"], OWNER_ADD),
    (&["material-add", "ACME", "M", "help"], MATERIAL_ADD),
    (&["results", "BERG"], ALL),
    (&["frob", "X"], ALL),
    (&["help"], ALL),
    (&[], ALL),
];

// Whether the answer to these words is this usage.
fn is_told(alloc: Global, words: &[&str], usage: &str) -> bool {
    match command_of(alloc, words) {
        Err(WordsFault::Usage(text)) => text_of(&text) == usage,
        _ => false,
    }
}

#[test]
fn words_that_are_no_command_get_a_usage(rt: HostRuntime) {
    for row in USAGES {
        let (words, usage) = *row;
        assert!(rt; is_told(rt.alloc(), words, usage), "at {words:?}");
    }
}
