//! An open office, whose files may be released to other programs between two turns.
ghost use Rattle.std.specs.Prelude.{◌≡◌, IfErr, IfOk, IfSome, OnOk};
ghost use Rattle.toll_service.specs.Openings.{IsOneOpened, IsOneRefused, IsNoneOpened};

use crate::office_path::{KeepOpener, OfficePath};
use std::io;
use toll_files::{Lease, OfficeFault, OpenLog, SharedFile, UnlockedFile};
use toll_keep::{Keep, KeepFault};

/// An open office that may be used, and its files if they can be released.
pub struct OpenOffice<K> {
    pub keep: K,
    files: Option<Files>,
}

/// By hand, since derived code is written out at every exit of every function that owns one.
impl<K: Drop> Drop for OpenOffice<K> {
    fn drop(self) {
        let OpenOffice { keep: _, files: _ } = self;
    }
}

/// An office that stays open between two turns. Only [`LeftOffice::reacquire`] makes it one that may be used.
pub struct LeftOffice<K> {
    pub keep: K,
    files: LeftOpen,
}

/// By hand, as an open office's.
impl<K: Drop> Drop for LeftOffice<K> {
    fn drop(self) {
        let LeftOffice { keep: _, files: _ } = self;
    }
}

/// The files of an office that stays open: locked, while an import is under way, or released to other programs.
#[derive(Drop)]
enum LeftOpen {
    Locked(Option<Files>),
    Released(UnlockedFile, OpenLog),
}

/// The files of an open office, and whether they were released since it was opened.
#[derive(Drop)]
struct Files {
    database: SharedFile,
    log: OpenLog,
    were_released: bool,
}

impl<K: Keep + Drop> OpenOffice<K> {
    /// Opens the office at this place. An `Err` if its opener can't open it.
    pub fn at<O: KeepOpener<K>>(
        office_path: &mut OfficePath<'_, O>,
        lease: &Lease,
    ) -> Result<Self, OfficeFault>
        ensures opened { IfOk result (λ opened. O.is_opened opened.keep) }
        ensures once { OnOk result (IsOneOpened (O.openings office_path.old.opener) (O.openings office_path.new.opener)) }
        ensures refused { IfErr result (λ fault. IsOneRefused fault
            (O.openings office_path.old.opener) (O.openings office_path.new.opener)) }
    {
        let keep = office_path
            .opener
            .open(office_path.rt, office_path.path, lease)?;
        Ok(OpenOffice {
            keep,
            files: Files::of(office_path.rt, office_path.path).ok(),
        })
    }

    /// Releases the files to other programs. The office is closed if they can't be released.
    pub fn release<O: KeepOpener<K>>(
        self,
        office_path: &mut OfficePath<'_, O>,
        lease: &Lease,
    ) -> Option<LeftOffice<K>>
        ensures released { IfSome result (λ left. left.keep ≡ self.keep) }
        ensures unasked { IsNoneOpened (O.openings office_path.old.opener) (O.openings office_path.new.opener) }
    {
        let OpenOffice { keep, files } = self;
        if let Some(files) = released(files) {
            return Some(LeftOffice { keep, files });
        }
        office_path.opener.close(keep, lease);
        None
    }

    /// Leaves the office open with its files locked.
    pub fn stay(self) -> LeftOffice<K>
        ensures { result.keep ≡ self.keep }
    {
        let OpenOffice { keep, files } = self;
        LeftOffice {
            keep,
            files: LeftOpen::Locked(files),
        }
    }

    /// The log, if the office was open before the turn and met no fault in it.
    pub fn log_after(&self, fault: Option<KeepFault>) -> Option<&OpenLog> {
        match (&self.files, fault) {
            (Some(files), None) if files.were_released => Some(&files.log),
            _ => None,
        }
    }

    /// Closes the office and its files.
    pub fn close<O: KeepOpener<K>>(self, opener: &mut O, lease: &Lease)
        ensures { IsNoneOpened (O.openings opener.old) (O.openings opener.new) }
    {
        let OpenOffice { keep, files: _ } = self;
        opener.close(keep, lease);
    }
}

impl Files {
    // The files of the office at this path, which `sqlite` has open and locked. Their locks are those of the
    // database from now on: `sqlite` opens a log only under the lock of its database.
    fn of(rt: &HostRuntime, path: &str) -> io::Result<Self> {
        let log = format!(in rt.alloc(); "{path}-wal")?;
        let database = SharedFile::of(rt, path)?;
        let _ = SharedFile::of(rt, log.as_str())?.unlock()?;
        let log = OpenLog::open(rt, log.as_str())?;
        Ok(Files {
            database,
            log,
            were_released: false,
        })
    }
}

// The files, released to other programs. `None` if there are none, or the system refuses that.
fn released(files: Option<Files>) -> Option<LeftOpen> {
    let Files { database, log, .. } = files?;
    match database.unlock() {
        Ok(database) => Some(LeftOpen::Released(database, log)),
        Err(_) => None,
    }
}

impl<K: Keep + Drop> LeftOffice<K> {
    /// The office with its files locked again. `None` if another program has them: the office is then closed.
    pub fn reacquire(self, _lease: &Lease) -> Option<OpenOffice<K>>
        ensures { IfSome result (λ opened. opened.keep ≡ self.keep) }
    {
        let LeftOffice { keep, files } = self;
        let files = match files {
            LeftOpen::Locked(files) => files,
            LeftOpen::Released(database, log) => Some(Files {
                database: database.lock().ok()?,
                log,
                were_released: true,
            }),
        };
        Some(OpenOffice { keep, files })
    }
}
