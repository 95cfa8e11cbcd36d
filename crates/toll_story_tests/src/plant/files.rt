//! How files are read.
use std::alloc::{AllocError, Global};
use std::test::Fail;
use toll_keep::MemKeep;
use toll_plant::MOST_FILE_BYTES;
use toll_stories::{
    HEADER, WITH_BATCH, WITH_RECIPE, check, check_said, check_said_over, say_to_file,
};

// One file: with a byte order mark, with CR LF, with no last line end, with quotes, and with empty lines.
const WRITTEN: [&str; 5] = [
    "\u{feff}key,owner,order,batch,segment,use,material,lot_owner,lot,sublot,amount,day\nK2,ACME,O,1,1,consumed,M,ACME,A,S1,40,11\nK3,ACME,O,1,1,produced,P,ACME,P1,S1,30,11\nK2,ACME,O,1,1,consumed,M,ACME,A,S1,40,11\n",
    "key,owner,order,batch,segment,use,material,lot_owner,lot,sublot,amount,day\r\nK2,ACME,O,1,1,consumed,M,ACME,A,S1,40,11\r\nK3,ACME,O,1,1,produced,P,ACME,P1,S1,30,11\r\nK2,ACME,O,1,1,consumed,M,ACME,A,S1,40,11\r\n",
    "key,owner,order,batch,segment,use,material,lot_owner,lot,sublot,amount,day\nK2,ACME,O,1,1,consumed,M,ACME,A,S1,40,11\nK3,ACME,O,1,1,produced,P,ACME,P1,S1,30,11\nK2,ACME,O,1,1,consumed,M,ACME,A,S1,40,11",
    "\"key\",owner,order,batch,segment,use,material,lot_owner,lot,sublot,amount,\"day\"\n\"K2\",ACME,O,1,1,consumed,M,ACME,A,S1,40,11\nK3,ACME,O,1,1,\"produced\",P,ACME,P1,S1,30,11\nK2,ACME,O,1,1,consumed,M,ACME,A,S1,40,\"11\"\n",
    "\n\r\nkey,owner,order,batch,segment,use,material,lot_owner,lot,sublot,amount,day\n\nK2,ACME,O,1,1,consumed,M,ACME,A,S1,40,11\n\nK3,ACME,O,1,1,produced,P,ACME,P1,S1,30,11\nK2,ACME,O,1,1,consumed,M,ACME,A,S1,40,11\n\n",
];

const READ_ALIKE: &str =
    "     1 accepted\n     2 accepted\n     3 repeated\naccepted 2 repeated 1 refused 0 bad 0 fault 0\n";

// Fails if something else is said to the file, over this keep.
fn check_file(alloc: Global, keep: &mut MemKeep, file: &str, wanted: &str) -> Result<(), Fail> {
    let said = say_to_file(alloc, keep, file.as_bytes())?;
    check(said.as_str() == wanted, file)
}

#[test]
fn a_file_is_read_alike_however_it_is_written(rt: HostRuntime) -> Result<(), Fail> {
    for file in WRITTEN {
        let mut keep = MemKeep::new(rt.alloc());
        check_said_over(rt.alloc(), &mut keep, &[WITH_RECIPE, WITH_BATCH])?;
        check_file(rt.alloc(), &mut keep, file, READ_ALIKE)?;
    }
    Ok(())
}

/// Files, each with what is said to it.
const HEADERS: &[(&str, &str)] = &[
    (
        "key,owner,order,batch,segment,use,material,lot_owner,lot,sublot,amount,day\n",
        "accepted 0 repeated 0 refused 0 bad 0 fault 0\n",
    ),
    ("", "BadHeader"),
    ("\n\n", "BadHeader"),
    (
        "key,owner,order,batch,segment,use,material,lot_owner,lot,sublot,day,amount\nK2,ACME,O,1,1,consumed,M,ACME,A,S1,11,40\n",
        "BadHeader",
    ),
    (
        "key,owner,order,batch,segment,use,material,lot_owner,lot,sublot,amount\n",
        "BadHeader",
    ),
    (
        "key,owner,order,batch,segment,use,material,lot_owner,lot,sublot,amount,day,\n",
        "BadHeader",
    ),
    (
        "Key,owner,order,batch,segment,use,material,lot_owner,lot,sublot,amount,day\n",
        "BadHeader",
    ),
    (
        "\u{feff}\u{feff}key,owner,order,batch,segment,use,material,lot_owner,lot,sublot,amount,day\n",
        "BadHeader",
    ),
    ("K2,ACME,O,1,1,consumed,M,ACME,A,S1,40,11\n", "BadHeader"),
];

#[test]
fn a_file_needs_its_header(rt: HostRuntime) -> Result<(), Fail> {
    for row in HEADERS {
        let (file, wanted) = *row;
        check_file(rt.alloc(), &mut MemKeep::new(rt.alloc()), file, wanted)?;
    }
    Ok(())
}

// Eleven fields, thirteen, and none but an empty quoted one; and all else as it is without them.
const BAD_RECORDS: &str = r#"
records
+ K2,ACME,O,1,1,consumed,M,ACME,A,S1,40
+ K2,ACME,O,1,1,consumed,M,ACME,A,S1,40,11
+ ""
+ K3,ACME,O,1,1,produced,P,ACME,P1,S1,30,11
+ K3,ACME,O,1,1,produced,P,ACME,P1,S1,30,11,
+ K2,ACME,O,1,1,consumed,M,ACME,A,S1,40,11
:      1 bad-record
:      2 accepted
:      3 bad-record
:      4 accepted
:      5 bad-record
:      6 repeated
: accepted 2 repeated 1 refused 0 bad 3 fault 0
"#;

// A comma in quotes, an empty name, a dash, the word `help`, an empty amount, an amount of words, and the
// first of two values that can't be read.
const UNREAD: &str = r#"
records
+ "K2,K3",ACME,O,1,1,consumed,M,ACME,A,S1,40,11
+ K2,ACME,O,1,1,consumed,,ACME,A,S1,40,11
+ -K2,ACME,O,1,1,consumed,M,ACME,A,S1,40,11
+ help,ACME,O,1,1,consumed,M,ACME,A,S1,40,11
+ K2,ACME,O,1,1,consumed,M,ACME,A,S1,,11
+ K2,ACME,O,1,1,consumed,M,ACME,A,S1,forty,11
+ K2,ACME,O,0,1,eaten,M,ACME,A,S1,40,11
:      1 refused 1 BadName
:      2 refused 1 BadName
:      3 refused 1 BadName
:      4 refused 1 BadName
:      5 refused 2 BadAmount
:      6 refused 2 BadAmount
:      7 refused 2 BadAmount
: accepted 0 repeated 0 refused 7 bad 0 fault 0
"#;

#[test]
fn records_that_are_no_actuals_change_nothing(rt: HostRuntime) -> Result<(), Fail> {
    check_said(rt.alloc(), &[WITH_RECIPE, WITH_BATCH, UNREAD, BAD_RECORDS])
}

#[test]
fn a_key_that_is_no_text_is_refused(rt: HostRuntime) -> Result<(), Fail> {
    let file =
        b"key,owner,order,batch,segment,use,material,lot_owner,lot,sublot,amount,day\nK\xff,ACME,O,1,1,consumed,M,ACME,A,S1,40,11\n";
    let said = say_to_file(rt.alloc(), &mut MemKeep::new(rt.alloc()), file)?;
    assert!(&rt;
        said.as_str()
            == "     1 refused 1 BadName\naccepted 0 repeated 0 refused 1 bad 0 fault 0\n",
        "{said}"
    );
    Ok(())
}

// The header, and empty lines up to this size.
fn lines_of_size(alloc: Global, size: usize) -> Result<Vec<u8>, AllocError> {
    let mut file = Vec::new(alloc);
    file.extend_from_slice(HEADER.as_bytes())?;
    file.resize(size, b'\n')?;
    Ok(file)
}

// What is said to a file of this size.
fn say_to_size(alloc: Global, size: usize) -> Result<String, AllocError> {
    let file = lines_of_size(alloc, size)?;
    say_to_file(alloc, &mut MemKeep::new(alloc), &file)
}

const SIZES: &[(usize, &str)] = &[
    (
        MOST_FILE_BYTES,
        "accepted 0 repeated 0 refused 0 bad 0 fault 0\n",
    ),
    (1_048_577, "TooLong"),
];

#[test]
fn a_file_has_a_limit(rt: HostRuntime) -> Result<(), Fail> {
    for line in SIZES {
        let (size, wanted) = *line;
        let said = say_to_size(rt.alloc(), size)?;
        assert!(&rt; said.as_str() == wanted, "{size}: {said}");
    }
    Ok(())
}
