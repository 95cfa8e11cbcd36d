//! Long files that are imported, and faults on the way.
use std::alloc::{AllocError, Global};
use std::test::Fail;
use toll_keep::{Keep, MemKeep};
use toll_plant::{GROUP_RECORDS, MOST_FILE_BYTES};
use toll_stories::{
    HEADER, IMPORTED, K2_IMPORTED, Refused, Refusing, WITH_BATCH, WITH_RECIPE, check_said_over,
    say_to_file,
};

// A file of one record more than a group: this one, others that give no command, and that one.
fn long_file(alloc: Global, first: &str, last: &str) -> Result<String, AllocError> {
    let mut file = format!(in alloc; "{HEADER}{first}\n")?;
    for _ in 1..GROUP_RECORDS {
        file.push_str("none\n")?;
    }
    file.push_str(last)?;
    Ok(file)
}

const FIRST: &str = "K2,ACME,O,1,1,consumed,M,ACME,A,S1,40,11";

const LAST: &str = "K3,ACME,O,1,1,produced,P,ACME,P1,S1,30,11";

// Fails if the answer to the long file doesn't end with this.
fn check_long<K: Keep>(alloc: Global, keep: &mut K, wanted: &str) -> Result<(), Fail> {
    let said = say_to_file(alloc, keep, long_file(alloc, FIRST, LAST)?.as_bytes())?;
    if said.ends_with(wanted) {
        return Ok(());
    }
    Err(said.into())
}

#[test]
fn groups_before_a_refused_one_stand(rt: HostRuntime) -> Result<(), Fail> {
    let mut keep = MemKeep::new(rt.alloc());
    check_said_over(
        rt.alloc(),
        &mut keep,
        &[WITH_RECIPE, WITH_BATCH, K2_IMPORTED],
    )?;
    let mut keep = Refusing::new(keep, Refused::Apply);
    check_long(
        rt.alloc(),
        &mut keep,
        "   500 bad-record\n   501 fault Memory\naccepted 0 repeated 1 refused 0 bad 499 fault 1\n",
    )?;
    check_long(
        rt.alloc(),
        &mut keep,
        "   501 accepted\naccepted 1 repeated 1 refused 0 bad 499 fault 0\n",
    )
}

// How many records the longest of these files has.
const MANY: u64 = 12_000;

// A file with so many records that give no command.
fn bad_file(alloc: Global) -> Result<String, AllocError> {
    let mut file = String::from_str(alloc, HEADER)?;
    for _ in 0..MANY {
        file.push_str("x\n")?;
    }
    Ok(file)
}

// What is said to it: a line for each record, and their number.
fn bad_lines(alloc: Global) -> Result<String, AllocError> {
    let mut lines = String::new(alloc);
    for number in 1..MANY + 1 {
        lines.push_str(&format!(in alloc; "{number:>6} bad-record\n")?)?;
    }
    lines.push_str(&format!(in alloc; "accepted 0 repeated 0 refused 0 bad {MANY} fault 0\n")?)?;
    Ok(lines)
}

// Whether all lines are reported of a file of this many bad records.
fn is_told_whole(alloc: Global) -> Result<bool, AllocError> {
    let file = bad_file(alloc)?;
    let said = say_to_file(alloc, &mut MemKeep::new(alloc), file.as_bytes())?;
    Ok(said == bad_lines(alloc)?)
}

#[test]
fn each_record_of_a_long_file_has_its_line(rt: HostRuntime) -> Result<(), Fail> {
    let is_told = is_told_whole(rt.alloc())?;
    assert!(rt; is_told);
    Ok(())
}

// A file as long as one may be, whose first record is no header.
#[test]
fn a_long_file_without_its_header_is_no_want_of_memory(rt: HostRuntime) -> Result<(), Fail> {
    let file = vec![in rt.alloc(); b'x'; MOST_FILE_BYTES]?;
    let said = say_to_file(rt.alloc(), &mut MemKeep::new(rt.alloc()), &file)?;
    assert!(&rt; said.as_str() == "BadHeader", "{said}");
    Ok(())
}

const FAULTY: &str = r#"
records
+ K2,ACME,O,1,1,consumed
+ K2,ACME,O,1,1,consumed,M,ACME,A,S1,40,11
+ K3,ACME,O,1,1,produced,P,ACME,P1,S1,30,11
:      1 bad-record
:      2 fault Memory
: accepted 0 repeated 0 refused 0 bad 1 fault 1
"#;

#[test]
fn a_fault_ends_an_import(rt: HostRuntime) -> Result<(), Fail> {
    let mut keep = MemKeep::new(rt.alloc());
    check_said_over(rt.alloc(), &mut keep, &[WITH_RECIPE, WITH_BATCH])?;
    let mut keep = Refusing::new(keep, Refused::Apply);
    check_said_over(rt.alloc(), &mut keep, &[FAULTY, IMPORTED])
}
