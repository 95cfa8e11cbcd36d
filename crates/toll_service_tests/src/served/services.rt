//! An office in a file: when it is opened anew, and when its lock is kept.
use crate::served::imports::import_of_records;
use crate::served::{ADD_AGAIN, ADD_OWNER, Client, MOST_TURNS, received};
use std::alloc::Global;
use std::cell::Cell;
use std::fs::{File, OpenOptions};
use std::io::Write;
use std::test::Fail;
use std::{fs, io};
use toll_files::{Lease, LeftFiles, OfficeFault, PathFiles, take_lock};
use toll_keep::MemKeep;
use toll_server::{Listener, Poll, RequestBuffer, Service};
use toll_service::{KeepOpener, OfficePath, OfficeService};

/// How often an office was opened, and closed.
#[derive(Drop)]
struct Counts {
    opened: Cell<u64>,
    closed: Cell<u64>,
}

impl Counts {
    fn new() -> Self {
        Counts {
            opened: Cell::new(0),
            closed: Cell::new(0),
        }
    }
}

// Counts one more.
fn add_one(count: &Cell<u64>) {
    count.set(count.get().saturating_add(1));
}

/// Opens offices without rows in memory, each in the place of that of a file.
#[derive(Drop)]
struct Shelf<'a> {
    counts: &'a Counts,
}

impl KeepOpener<MemKeep> for Shelf<'_> {
    ghost use Rattle.std.specs.Prelude.{⊤};

    ghost is_opened = { λ _. ⊤ };

    fn lock(&mut self, rt: &HostRuntime, path: &str) -> Result<Lease, OfficeFault> {
        take_lock(rt, path)
    }

    fn is_unchanged(
        &mut self,
        rt: &HostRuntime,
        path: &str,
        lease: &Lease,
        left: &LeftFiles,
    ) -> Result<bool, OfficeFault> {
        left.is_unchanged(&PathFiles { rt, path }, lease)
    }

    fn open(
        &mut self,
        rt: &HostRuntime,
        _path: &str,
        _lease: &Lease,
    ) -> Result<MemKeep, OfficeFault> {
        add_one(&self.counts.opened);
        Ok(MemKeep::new(rt.alloc()))
    }

    fn close(&mut self, _keep: MemKeep, _lease: &Lease) {
        add_one(&self.counts.closed);
    }
}

// Takes the file away, and what lies beside it.
fn remove(rt: &HostRuntime, path: &str) -> Result<(), Fail> {
    for ending in &["", "-wal", ".lock"] {
        let name = format!(in rt.alloc(); "{path}{ending}")?;
        let _ = fs::remove_file(rt, name.as_str());
    }
    Ok(())
}

// A file that is open for reading and writing.
fn open_file(rt: &HostRuntime, path: &str) -> io::Result<File> {
    OpenOptions::new()
        .read(true)
        .write(true)
        .create(true)
        .open(rt, path)
}

// Whether the response to this client is exactly this.
fn is_expected<O: Service>(alloc: Global, office: &mut O, visit: &Client<'_>) -> bool {
    let Ok(request) = received(alloc, visit.listener, visit.bytes) else {
        return false;
    };
    match office.answer(alloc, &request) {
        Poll::Ready(bytes) => bytes.as_slice() == visit.expected,
        Poll::Pending(_) => false,
    }
}

// The number of turns of an import after which another process finds the file locked.
fn locked_turns<O: Service>(
    rt: &HostRuntime,
    office: &mut O,
    path: &str,
    requested: &RequestBuffer,
) -> usize {
    let mut poll = office.answer(rt.alloc(), requested);
    let mut locked = 0usize;
    for _ in 0..MOST_TURNS {
        let Poll::Pending(task) = poll else {
            return locked;
        };
        if take_lock(rt, path).is_err() {
            locked = locked.saturating_add(1);
        }
        poll = office.resume(rt.alloc(), task);
    }
    locked
}

// The office's desk at this path.
fn desk_at<'a>(
    rt: &'a HostRuntime,
    path: &'a str,
    counts: &'a Counts,
) -> OfficeService<'a, MemKeep, Shelf<'a>> {
    OfficeService::new(OfficePath {
        rt,
        path,
        opener: Shelf { counts },
    })
}

// Whether two clients with the same request each find a new office.
fn are_apart(rt: &HostRuntime, path: &str, counts: &Counts) -> bool {
    let mut desk = desk_at(rt, path, counts);
    let is_first = is_expected(rt.alloc(), &mut desk, &ADD_OWNER);
    let is_new = is_expected(rt.alloc(), &mut desk, &ADD_OWNER);
    desk.close();
    is_first && is_new
}

#[test]
fn an_office_whose_file_is_not_there_is_opened_for_each_request(
    rt: HostRuntime,
) -> Result<(), Fail> {
    let counts = Counts::new();
    let are_apart = are_apart(&rt, "not_there.db", &counts);
    remove(&rt, "not_there.db")?;
    assert!(rt; are_apart);
    assert_eq!(rt; (counts.opened.get(), counts.closed.get()), (2, 2));
    Ok(())
}

// Whether the second client finds the office of the first; and the third, before which the file was written,
// a new one.
fn is_new_once_written(rt: &HostRuntime, path: &str, file: &mut File, counts: &Counts) -> bool {
    let mut desk = desk_at(rt, path, counts);
    let is_first = is_expected(rt.alloc(), &mut desk, &ADD_OWNER);
    let is_kept = is_expected(rt.alloc(), &mut desk, &ADD_AGAIN);
    let is_written = file.write_all(b"another's").is_ok();
    let is_new = is_expected(rt.alloc(), &mut desk, &ADD_OWNER);
    desk.close();
    is_first && is_kept && is_written && is_new
}

#[test]
fn an_office_stays_open_until_others_write_its_file(rt: HostRuntime) -> Result<(), Fail> {
    let counts = Counts::new();
    let log = open_file(&rt, "stays_open.db-wal")?;
    let mut file = open_file(&rt, "stays_open.db")?;
    let is_new = is_new_once_written(&rt, "stays_open.db", &mut file, &counts);
    drop(log);
    remove(&rt, "stays_open.db")?;
    assert!(rt; is_new);
    assert_eq!(rt; (counts.opened.get(), counts.closed.get()), (2, 1));
    Ok(())
}

// The number of turns of an import for which the lock of its file is kept, and whether it is given back then.
fn turns_of(
    rt: &HostRuntime,
    path: &str,
    requested: &RequestBuffer,
    counts: &Counts,
) -> (usize, bool) {
    let mut desk = desk_at(rt, path, counts);
    let locked = locked_turns(rt, &mut desk, path, requested);
    let is_free = take_lock(rt, path).is_ok();
    desk.close();
    (locked, is_free)
}

#[test]
fn the_lock_is_kept_while_an_import_is_under_way(rt: HostRuntime) -> Result<(), Fail> {
    let counts = Counts::new();
    let import = import_of_records(rt.alloc())?;
    let requested = received(rt.alloc(), Listener::Plant, &import)?;
    let turns = turns_of(&rt, "under_way.db", &requested, &counts);
    remove(&rt, "under_way.db")?;
    assert_eq!(rt; turns, (3, true));
    Ok(())
}
