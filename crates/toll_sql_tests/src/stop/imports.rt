//! A file of two groups that is imported while the files of the office stop.
use crate::stop::runs::{Run, RunResult, files_of, told_of};
use crate::stop::stops::check_stops;
use sqlite::{Alter, Connection};
use std::alloc::{AllocError, Global};
use std::test::Fail;
use toll_keep::{CachedKeep, Keep};
use toll_plant::GROUP_RECORDS;
use toll_sql::SqlKeep;
use toll_stories::{HEADER, RELEASED_AND_PLACED, WITH_HOUSE, are_said, check_chapter, say_to_file};

// The first record of each of two groups changes something, and no other does.
fn file_of_two_groups(alloc: Global) -> Result<String, AllocError> {
    let mut file = format!(in alloc; "{HEADER}K3,ACME,O,1,1,consumed,M,ACME,A,S,10,2\n")?;
    for _ in 1..GROUP_RECORDS {
        file.push_str("none\n")?;
    }
    file.push_str("K4,ACME,O,1,1,consumed,W,HOUSE,H-1,S,10,2\n")?;
    Ok(file)
}

const BATCH_RUNS: &str = r#"
open ACME O U1
do ACME O 1 start
"#;

// What shows the office before the import, after its first group, and after both.
const NONE_STANDS: &str = r#"
batch ACME O 1
: O/1 running U1 open
:  1 consumed ACME             M                        10              0
:  1 consumed HOUSE            W                        10              0
:  1 produced ACME             P                        10              0
:  2 consumed ACME             M                        10              0
"#;

const ONE_STANDS: &str = r#"
stock HOUSE
: H-1              S                W                released                10 kg
batch ACME O 1
: O/1 running U1 open
:  1 consumed ACME             M                        10             10
:  1 consumed HOUSE            W                        10              0
:  1 produced ACME             P                        10              0
:  2 consumed ACME             M                        10              0
"#;

const BOTH_STAND: &str = r#"
stock HOUSE
: H-1              S                W                released                 0 kg
batch ACME O 1
: O/1 running U1 open
:  1 consumed ACME             M                        10             10
:  1 consumed HOUSE            W                        10             10
:  1 produced ACME             P                        10              0
:  2 consumed ACME             M                        10              0
"#;

// Whether both groups stand. Fails if it is neither that, nor the first alone, nor none.
fn both_stand<K: Keep>(alloc: Global, keep: &mut K) -> Result<bool, Fail> {
    if are_said(alloc, keep, NONE_STANDS)? {
        return Ok(false);
    }
    if are_said(alloc, keep, ONE_STANDS)? {
        return Ok(false);
    }
    check_chapter(alloc, keep, BOTH_STAND)?;
    Ok(true)
}

// The end of the file's report if all was done, and if a fault ended it.
const DONE: &str = "accepted 2 repeated 0 refused 0 bad 499 fault 0\n";

const FAULT: &str = "fault 1\n";

fn told_by(said: &str) -> RunResult {
    if said.ends_with(DONE) {
        RunResult::Done
    } else if said.ends_with(FAULT) {
        RunResult::Fault
    } else {
        RunResult::Other
    }
}

// The outcome of the file.
fn import<K: Keep>(alloc: Global, keep: &mut K) -> Result<RunResult, AllocError> {
    let said = say_to_file(alloc, keep, file_of_two_groups(alloc)?.as_bytes())?;
    Ok(told_by(said.as_str()))
}

// The file is imported.
struct Importing;

impl Run for Importing {
    fn go<S: Alter + Drop>(
        &self,
        alloc: Global,
        conn: Connection<S>,
    ) -> (Connection<S>, RunResult) {
        match SqlKeep::adopt(alloc, conn) {
            Ok(keep) => {
                let mut keep = CachedKeep::new(alloc, keep);
                let reported = import(alloc, &mut keep).unwrap_or(RunResult::Other);
                (keep.inside().into_connection(), reported)
            }
            Err((fault, conn)) => (conn, told_of(fault)),
        }
    }

    fn is_after<S: Alter + Drop>(&self, alloc: Global, conn: Connection<S>) -> Result<bool, Fail> {
        match SqlKeep::adopt(alloc, conn) {
            Ok(mut keep) => both_stand(alloc, &mut keep),
            Err((fault, _)) => Err(fault.into()),
        }
    }
}

#[test]
fn a_stop_during_an_import_leaves_whole_groups(rt: HostRuntime) -> Result<(), Fail> {
    let files = files_of(rt.alloc(), &[WITH_HOUSE, RELEASED_AND_PLACED, BATCH_RUNS])?;
    check_stops(rt.alloc(), &Importing, &files)
}
