//! What is done to an office while its files stop.
use crate::stop::disks::{Disks, connect, disconnect, empty_files};
use sqlite::{Alter, Connection};
use std::alloc::Global;
use std::test::Fail;
use toll_keep::{CachedKeep, Keep};
use toll_sql::{OpenFault, SqlKeep};
use toll_stories::{Story, are_said, check_chapter, check_said_over, say};

/// The outcome of a run.
#[derive(Clone, Copy, PartialEq, Eq)]
pub enum RunResult {
    /// It was done.
    Done,
    /// A fault of the disk was reported.
    Fault,
    /// Another result was reported.
    Other,
}

/// Something that is done to an office.
pub trait Run {
    /// Does it to the office in this store, and hands the store back.
    fn go<S: Alter + Drop>(&self, alloc: Global, conn: Connection<S>) -> (Connection<S>, RunResult);

    /// Whether the office in this store is the one from after it, and not the one from before. Fails if it is
    /// neither.
    fn is_after<S: Alter + Drop>(&self, alloc: Global, conn: Connection<S>) -> Result<bool, Fail>;
}

/// The outcome of a run whose office isn't opened.
pub fn told_of(fault: OpenFault) -> RunResult {
    match fault {
        OpenFault::Disk => RunResult::Fault,
        _ => RunResult::Other,
    }
}

/// The tables of the office are made. Before it there are none, and after it there is no owner.
pub struct Making;

impl Run for Making {
    fn go<S: Alter + Drop>(
        &self,
        _alloc: Global,
        conn: Connection<S>,
    ) -> (Connection<S>, RunResult) {
        match SqlKeep::create(conn) {
            Ok(keep) => (keep.into_connection(), RunResult::Done),
            Err((fault, conn)) => (conn, told_of(fault)),
        }
    }

    fn is_after<S: Alter + Drop>(&self, alloc: Global, conn: Connection<S>) -> Result<bool, Fail> {
        match SqlKeep::adopt(alloc, conn) {
            Ok(mut keep) => check_empty(alloc, &mut keep),
            Err((OpenFault::NotOurs, _)) => Ok(false),
            Err((fault, _)) => Err(fault.into()),
        }
    }
}

// Fails if there is an owner or a unit.
fn check_empty<K: Keep>(alloc: Global, keep: &mut K) -> Result<bool, Fail> {
    if keep.owners(alloc)?.is_empty() && keep.units(alloc)?.is_empty() {
        return Ok(true);
    }
    Err("a new office has rows".into())
}

/// The tables of an office of version 1 are adopted, and are of version 2 then.
pub struct Adopting {
    /// The lines that the office was given.
    pub story: Story,
    /// What shows it.
    pub rows: &'static str,
}

impl Adopting {
    /// The files of the office.
    pub fn files(&self, alloc: Global) -> Result<Disks, Fail> {
        match connect(alloc, empty_files(alloc)) {
            Ok(conn) => Ok(disconnect(first_version(alloc, conn, self.story)?)),
            Err(_) => Err("no store".into()),
        }
    }
}

// The store of a new office of version 1 that was given these chapters.
fn first_version<S: Alter + Drop>(
    alloc: Global,
    conn: Connection<S>,
    story: &[&str],
) -> Result<Connection<S>, Fail> {
    as_version_1(told_to_new(alloc, conn, story)?)
}

// What version 2 has and version 1 has not is taken away.
fn as_version_1<S: Alter + Drop>(mut conn: Connection<S>) -> Result<Connection<S>, Fail> {
    for statement in ["DROP TABLE voids", "UPDATE meta SET value = 1"] {
        conn.execute(statement, &[])?;
    }
    Ok(conn)
}

impl Run for Adopting {
    fn go<S: Alter + Drop>(
        &self,
        alloc: Global,
        conn: Connection<S>,
    ) -> (Connection<S>, RunResult) {
        match SqlKeep::adopt(alloc, conn) {
            Ok(keep) => (keep.into_connection(), RunResult::Done),
            Err((fault, conn)) => (conn, told_of(fault)),
        }
    }

    fn is_after<S: Alter + Drop>(
        &self,
        alloc: Global,
        mut conn: Connection<S>,
    ) -> Result<bool, Fail> {
        let row = conn.query_row("SELECT value FROM meta", &[])?;
        let version: i64 = row.get(0)?;
        match SqlKeep::adopt(alloc, conn) {
            Ok(mut keep) => {
                check_chapter::<SqlKeep<S>>(alloc, &mut keep, self.rows)?;
                Ok(version == 2)
            }
            Err((fault, _)) => Err(fault.into()),
        }
    }
}

/// A line that is given to an office.
pub struct Telling {
    /// The lines that the office was given before.
    pub story: Story,
    /// The line, and the answer to it if no file stops.
    pub line: (&'static str, &'static str),
    /// The answer to the line if a file stops.
    pub fault: &'static str,
    /// What shows the office from before.
    pub before: &'static str,
    /// What shows the office from after.
    pub after: &'static str,
}

impl Telling {
    /// The files of the office that is given the line.
    pub fn files(&self, alloc: Global) -> Result<Disks, Fail> {
        files_of(alloc, self.story)
    }

    // The outcome of the line.
    fn say<K: Keep>(&self, alloc: Global, keep: &mut K) -> RunResult {
        let (requested, done) = self.line;
        match say(alloc, keep, requested) {
            Ok(said) if said.as_str() == done => RunResult::Done,
            Ok(said) if said.as_str() == self.fault => RunResult::Fault,
            _ => RunResult::Other,
        }
    }

    // Whether this is the office from after it. Fails if it is neither that nor the one from before.
    fn shows_after<K: Keep>(&self, alloc: Global, keep: &mut K) -> Result<bool, Fail> {
        if are_said(alloc, keep, self.before)? {
            return Ok(false);
        }
        check_chapter(alloc, keep, self.after)?;
        Ok(true)
    }
}

/// The files of a new office that was given these chapters.
pub fn files_of(alloc: Global, story: &[&str]) -> Result<Disks, Fail> {
    match connect(alloc, empty_files(alloc)) {
        Ok(conn) => Ok(disconnect(told_to_new(alloc, conn, story)?)),
        Err(_) => Err("no store".into()),
    }
}

// The store of a new office that was given these chapters.
fn told_to_new<S: Alter + Drop>(
    alloc: Global,
    conn: Connection<S>,
    story: &[&str],
) -> Result<Connection<S>, Fail> {
    match SqlKeep::create(conn) {
        Ok(mut keep) => match check_said_over::<SqlKeep<S>>(alloc, &mut keep, story) {
            Ok(()) => Ok(keep.into_connection()),
            Err(fail) => Err(fail),
        },
        Err((fault, _)) => Err(fault.into()),
    }
}

impl Run for Telling {
    fn go<S: Alter + Drop>(
        &self,
        alloc: Global,
        conn: Connection<S>,
    ) -> (Connection<S>, RunResult) {
        match SqlKeep::adopt(alloc, conn) {
            Ok(keep) => {
                let mut keep = CachedKeep::new(alloc, keep);
                let reported = self.say(alloc, &mut keep);
                (keep.inside().into_connection(), reported)
            }
            Err((fault, conn)) => (conn, told_of(fault)),
        }
    }

    fn is_after<S: Alter + Drop>(&self, alloc: Global, conn: Connection<S>) -> Result<bool, Fail> {
        match SqlKeep::adopt(alloc, conn) {
            Ok(mut keep) => self.shows_after(alloc, &mut keep),
            Err((fault, _)) => Err(fault.into()),
        }
    }
}
