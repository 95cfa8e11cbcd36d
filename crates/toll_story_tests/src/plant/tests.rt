//! Values that can't be read.
use std::alloc::Global;
use toll_base::Refusal;
use toll_desk::PlantCmd;
use toll_plant::command_of;

const BAD_NAMES: &[&[&str]] = &[
    &["owner-add", "acme", "ACMEKEY1"],
    &["owner-add", "ACME", "SHORT"],
    &["owner-add", "ABCDEFGHIJKLMNOPQ", "ACMEKEY1"],
    &["recipe-add", "ACME", "r", "0"],
    &["receive", "acme", "K1", "M", "A", "S", "0", "1"],
    &["trace", "ACME", "P1", "sideways"],
    &["trace", "ACME", "P1", "Back"],
    &["require", "ACME", "R", "1", "eaten", "ACME", "M", "1"],
    &["do", "ACME", "O", "1", "jump"],
    &["material-add", "ACME", "ABCDEFGHIJKLMNOPQ", "kg"],
    &["material-add", "ACME", "M", "kilograms"],
];

const BAD_NUMBERS: &[&[&str]] = &[
    &["recipe-add", "ACME", "R", "M5"],
    &["recipe-add", "ACME", "R", "0"],
    &["recipe-add", "ACME", "R", "51"],
    &["recipe-add", "ACME", "R", "00000000001"],
    &["order", "O", "R", "100"],
    &["test-add", "ACME", "M", "PH", "8", "M5"],
    &["test-add", "ACME", "M", "PH", "M0", "8"],
    &["test-add", "ACME", "M", "PH", "M00", "8"],
    &["test-add", "ACME", "M", "PH", "M1000000001", "8"],
    &["test-add", "ACME", "M", "PH", "0", "1000000001"],
    &["receive", "ACME", "K1", "M", "A", "S", "M5", "1"],
    &["receive", "ACME", "K1", "M", "A", "S", "0", "1"],
    &["receive", "ACME", "K1", "M", "A", "S", "1000000001", "1"],
    &["receive", "ACME", "K1", "M", "A", "S", "1", "10000000"],
];

// Why the first value of these words that can't be read is refused.
fn refusal_of(alloc: Global, words: &[&str]) -> Option<Refusal> {
    match command_of(alloc, words) {
        Ok(PlantCmd::Unread(why)) => Some(why),
        _ => None,
    }
}

#[test]
fn the_first_value_that_can_not_be_read_is_refused(rt: HostRuntime) {
    for words in BAD_NAMES {
        assert!(rt;
            refusal_of(rt.alloc(), words) == Some(Refusal::BadName),
            "at {words:?}"
        );
    }
    for words in BAD_NUMBERS {
        assert!(rt;
            refusal_of(rt.alloc(), words) == Some(Refusal::BadAmount),
            "at {words:?}"
        );
    }
}
