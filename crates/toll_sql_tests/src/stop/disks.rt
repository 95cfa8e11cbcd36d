//! The two files of an office, as disks in memory.
use sqlite::{Connection, FileStore, Files, Options};
use sqlite_disk::{Crash, Disk, Fuse, Memory};
use std::alloc::Global;
use std::io;

/// Which of the two files stops.
#[derive(Clone, Copy)]
pub enum Stopping {
    Log,
    Database,
}

/// The two files, each of which passes so many calls on.
pub type Disks = Files<Fuse<Memory>>;

/// Two files that are empty, and never stop.
pub fn empty_files(alloc: Global) -> Disks {
    Files {
        log: Fuse::new(Memory::new(alloc), u64::MAX),
        db: Fuse::new(Memory::new(alloc), u64::MAX),
    }
}

// A file with the same bytes, also after a power cut, that passes so many calls on.
fn fused_disk(alloc: Global, disk: &Fuse<Memory>, calls: u64) -> io::Result<Fuse<Memory>> {
    let mut copy = Memory::new(alloc);
    copy.write_at(0, disk.inner().bytes())?;
    copy.sync()?;
    Ok(Fuse::new(copy, calls))
}

/// The same two files. This one passes this many calls on, and the other one all.
pub fn fused_files(
    alloc: Global,
    files: &Disks,
    stopping: Stopping,
    calls: u64,
) -> io::Result<Disks> {
    let (log_calls, db_calls) = match stopping {
        Stopping::Log => (calls, u64::MAX),
        Stopping::Database => (u64::MAX, calls),
    };
    Ok(Files {
        log: fused_disk(alloc, &files.log, log_calls)?,
        db: fused_disk(alloc, &files.db, db_calls)?,
    })
}

/// The content of these two files, in files that never stop.
pub fn left_files(alloc: Global, files: &Disks) -> io::Result<Disks> {
    fused_files(alloc, files, Stopping::Log, u64::MAX)
}

/// Whether the file has stopped, or does so at its next call.
pub fn has_stopped<D: Disk>(disk: &mut D) -> bool {
    !disk.may_be_used() || disk.len().is_err()
}

/// The power fails: what was not synced is lost.
pub fn cut_power<D: Crash>(files: &mut Files<D>) {
    files.log.crash();
    files.db.crash();
}

/// A connection to these files, or the files if they can't be opened.
pub fn connect<D: Disk + Drop>(
    alloc: Global,
    files: Files<D>,
) -> Result<Connection<FileStore<D>>, Files<D>> {
    if !files.may_be_used() {
        return Err(files);
    }
    match Connection::open_files(alloc, files, Options::new(7)) {
        Ok(conn) => Ok(conn),
        Err((_, left)) => Err(left.into_files()),
    }
}

/// The files of this connection, closed as far as they let themselves be.
pub fn disconnect<D: Disk + Drop>(conn: Connection<FileStore<D>>) -> Files<D> {
    match conn.close_files() {
        Ok(files) => files,
        Err((_, store)) => store.close(),
    }
}
