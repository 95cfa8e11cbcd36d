//! The office on a file.
ghost use Rattle.std.specs.Prelude.{◌≡◌, IfOk, Some};
ghost use Rattle.toll_files.specs.Faults.{office_fault_name};
ghost use Rattle.toll_sql.specs.Opened.{IsOpened};
ghost use Rattle.toll_sql.specs.Opening.{open_fault_word};

use sqlite::{File as StoreFile, FileStore, Unknown};
use std::fs;
use std::fs::OpenOptions;
use std::io::ErrorKind;
use std::os::unix::fs::OpenOptionsExt;
use toll_base::Name;
use toll_files::{
    FILE_MODE, Lease, LeftFiles, LockFile, LockPath, OfficeFault, PathFiles, check_mark,
};
use toll_keep::CachedKeep;
use toll_service::{KeepOpener, OfficePath};
use toll_sql::{OpenFault, SqlKeep};

/// The keep of an office on a file.
pub type FileKeep = CachedKeep<SqlKeep<FileStore<StoreFile>>>;

/// The path that names no file for `sqlite`.
const NO_FILE: &str = ":memory:";

/// Opens an office whose rows are in tables. If there is no office in the file yet, one is made. The lock file
/// stays open between leases.
#[derive(Drop)]
pub struct SqlOpener {
    lock: LockFile,
}

impl SqlOpener {
    /// Nothing is open yet.
    pub fn new() -> Self {
        SqlOpener {
            lock: LockFile::new(),
        }
    }
}

/// The place of the office in this file.
pub fn office_at<'a>(rt: &'a HostRuntime, path: &'a str) -> OfficePath<'a, SqlOpener> {
    OfficePath {
        rt,
        path,
        opener: SqlOpener::new(),
    }
}

/// If the making of an office was stopped, its tables may be in the log alone, or a file that is not empty
/// may have no tables. So if the file isn't what its length says, it is opened the other way. If a file isn't
/// there and its log has bytes, the file was moved away, and opening it would write the log anew: that is
/// NotOurs. A path that is no file is NotOurs too, such as a device, whose reads might never end. A log that lacks the
/// commit that FILE.lock marks is Damaged. The mark stays until a closing has copied the log into the file.
impl KeepOpener<FileKeep> for SqlOpener {
    ghost is_opened = { λ keep. IsOpened keep };

    ghost has_damaged = { λ keep owner. keep.damaged_owner ≡ Some owner };

    fn lock(&mut self, rt: &HostRuntime, path: &str) -> Result<Lease, OfficeFault> {
        self.lock.lock(&LockPath::of(rt, path)?)
    }

    fn unlock(&mut self, lease: Lease) {
        self.lock.keep(lease.unlock());
    }

    fn is_unchanged(
        &mut self,
        rt: &HostRuntime,
        path: &str,
        lease: &Lease,
        left: &LeftFiles,
    ) -> Result<bool, OfficeFault> {
        left.is_unchanged(&PathFiles { rt, path }, lease)
    }

    fn open(
        &mut self,
        rt: &HostRuntime,
        path: &str,
        lease: &Lease,
    ) -> Result<FileKeep, OfficeFault> {
        let Ok(log) = format!(in rt.alloc(); "{path}-wal") else {
            return Err(OfficeFault::Memory);
        };
        if is_device(rt, path) || is_device(rt, log.as_str()) {
            return Err(OfficeFault::NotOurs);
        }
        let is_fresh = is_absent_or_empty(rt, path);
        if is_fresh && is_absent(rt, path) && has_bytes(rt, log.as_str()) {
            return Err(OfficeFault::NotOurs);
        }
        check_mark(&PathFiles { rt, path }, lease)?;
        if is_fresh {
            make_private(rt, path);
        }
        match open_as(rt, path, is_fresh) {
            Err(OfficeFault::NotOurs) => open_as(rt, path, !is_fresh),
            opened => opened,
        }
    }

    fn damaged_owner(&self, keep: &FileKeep) -> Option<Name> {
        keep.damaged_owner()
    }

    fn close(&mut self, keep: FileKeep, lease: &Lease) {
        if keep.inside().close().is_ok() {
            lease.clear_mark();
        }
    }
}

// Makes a file that isn't there, with access for its user alone, whatever the umask: `sqlite` gives its log
// the same mode. If the file can't be made, opening it reports why.
fn make_private(rt: &HostRuntime, path: &str) {
    if path == NO_FILE {
        return;
    }
    let _ = OpenOptions::new()
        .write(true)
        .create_new(true)
        .mode(FILE_MODE)
        .open(rt, path);
}

// The keep in a file whose tables are to be made if `is_fresh`, and to be found otherwise.
fn open_as(rt: &HostRuntime, path: &str, is_fresh: bool) -> Result<FileKeep, OfficeFault>
    ensures { IfOk result IsOpened }
{
    match SqlKeep::open_from(rt, path, is_fresh, Unknown) {
        Ok(keep) => Ok(CachedKeep::new(rt.alloc(), keep)),
        Err(fault) => Err(office_fault_of(fault)),
    }
}

// The fault as that of an office in a file.
fn office_fault_of(fault: OpenFault) -> OfficeFault
    ensures { office_fault_name result ≡ open_fault_word fault }
{
    match fault {
        OpenFault::Memory => OfficeFault::Memory,
        OpenFault::Disk => OfficeFault::Disk,
        OpenFault::Damaged => OfficeFault::Damaged,
        OpenFault::NotOurs => OfficeFault::NotOurs,
    }
}

// Whether something is at this path that is neither a file nor a folder.
fn is_device(rt: &HostRuntime, path: &str) -> bool {
    match fs::metadata(rt, path) {
        Ok(found) => !found.is_file() && !found.is_dir(),
        Err(_) => false,
    }
}

fn is_absent(rt: &HostRuntime, path: &str) -> bool {
    matches!(fs::metadata(rt, path), Err(fault) if fault.kind() == ErrorKind::NotFound)
}

fn has_bytes(rt: &HostRuntime, path: &str) -> bool {
    match fs::metadata(rt, path) {
        Ok(found) => found.len() > 0,
        Err(_) => false,
    }
}

fn is_absent_or_empty(rt: &HostRuntime, path: &str) -> bool {
    match fs::metadata(rt, path) {
        Ok(found) => found.len() == 0,
        Err(fault) => fault.kind() == ErrorKind::NotFound,
    }
}
