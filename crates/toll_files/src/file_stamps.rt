//! How an office's files have changed since a server left them.
ghost use Rattle.std.specs.Prelude.{◌≡◌, ◌↔◌, None, true, IfErr, IfOk, IfSome, IsOk, IsTrue, OnOk};
ghost use Rattle.toll_files.specs.FileChanges.{AreUntouched, HadSomething, HasContentOf, AreCommitsLost, IsEndLost, IsLogLost, IsStampUnchanged};
ghost use Rattle.toll_files.specs.LogEnds.{HasEnd, IsEarlierEnd, IsEndOf, IsFoundAs};
ghost use Rattle.toll_files.specs.LogMarks.{IsCommitLost, IsFileAsMarked};
ghost use Rattle.toll_files.specs.OfficeFiles.{AreCompared, AreLookedAt, AreNoted, IsContinued, IsTurnNoted, answer_to};
ghost use Rattle.toll_files.specs.declared.file_stamps.FileChange.{FileChange};

use crate::file_id::FileId;
use crate::lock::Lease;
use crate::log_end::{FoundEnd, LogEnd, end_of};
use crate::log_mark::LogMark;
use crate::office_fault::OfficeFault;
use crate::office_files::{OfficeFiles, StampedLog};
use std::fs::Metadata;
use std::io::ErrorKind;
use std::os::unix::fs::MetadataExt;
use std::{fs, io};

/// Which file it is, its length, when it was written, and when that or its name or mode changed. All fields
/// are 0 for a file that isn't there.
#[derive(Clone, Copy)]
pub struct Stamp {
    pub id: FileId,
    pub bytes: u64,
    pub written: (i64, i64),
    pub changed: (i64, i64),
}

/// The stamp of a file that isn't there.
const ABSENT: Stamp = Stamp {
    id: FileId {
        device: 0,
        inode: 0,
    },
    bytes: 0,
    written: (0, 0),
    changed: (0, 0),
};

impl From<&Metadata> for Stamp {
    fn from(metadata: &Metadata) -> Self {
        Stamp {
            id: FileId::from(metadata),
            bytes: metadata.len(),
            written: (metadata.mtime(), metadata.mtime_nsec()),
            changed: (metadata.ctime(), metadata.ctime_nsec()),
        }
    }
}

impl Stamp {
    /// The stamp of the file at this path, or that of a file that isn't there. An `Err` if its metadata can't be
    /// read.
    pub fn of(rt: &HostRuntime, path: &str) -> io::Result<Self> {
        match fs::metadata(rt, path) {
            Ok(metadata) => Ok(Stamp::from(&metadata)),
            Err(fault) if fault.kind() == ErrorKind::NotFound => Ok(ABSENT),
            Err(fault) => Err(fault),
        }
    }

    // Whether it is the same file, as long, and written at the same time.
    fn has_content_of(&self, other: &Stamp) -> bool
        ensures { (result ≡ true) ↔ HasContentOf self.now other.now }
    {
        self.id == other.id && self.bytes == other.bytes && self.written == other.written
    }

    /// Whether neither the file nor its name or mode changed either.
    pub fn is_same(&self, other: &Stamp) -> bool
        ensures { (result ≡ true) ↔ IsStampUnchanged self.now other.now }
    {
        self.has_content_of(other) && self.changed == other.changed
    }
}

/// The stamps of an office's file and of its log.
#[derive(Clone, Copy)]
pub struct FileStamps {
    pub database: Stamp,
    pub log: Stamp,
}

/// What other programs did to the files of an office.
#[derive(Clone, Copy, Debug, PartialEq, Eq)]
pub enum FileChange {
    /// They changed nothing.
    Same,
    /// They wrote the files.
    ByOthers,
    /// Committed changes are gone: the files are not those of the office that was open.
    NotOurs,
}

/// The state in which a server left the files of its office.
#[derive(Clone, Copy)]
pub struct LeftFiles {
    pub stamps: FileStamps,
    /// The last commit in the log, which the file may lack. None if the log holds no commit.
    pub log_end: Option<LogEnd>,
}

/// The state in which a server finds the files of its office.
#[derive(Clone, Copy)]
pub struct FoundFiles {
    pub stamps: FileStamps,
    /// What became of the last commit in the log. None if the log is untouched or held no commit, or if it
    /// can't be read, which the opening of the office reports.
    pub log_end: Option<FoundEnd>,
}

impl FoundFiles {
    /// The state of the files, which were left so. The log is read only if it has changed. An `Err` if
    /// the stamps can't be read.
    pub fn of<F: OfficeFiles>(files: &F, lease: &Lease, left: &LeftFiles) -> io::Result<Self>
        ensures untouched { IfOk result (λ found. IsStampUnchanged found.stamps.log left.now.stamps.log → found.log_end ≡ None) }
        ensures looked { IfOk result (λ found. IfSome (F.known files.now) (λ known. AreLookedAt (F.are_readable files.now) left.now known.0 known.1 found)) }
        ensures readable { F.are_readable files.now → IsOk result }
    {
        let stamps = files.stamps(lease)?;
        let log_end = match &left.log_end {
            Some(end) if !stamps.log.is_same(&left.stamps.log) => find_end(files, end).ok(),
            _ => None,
        };
        Ok(FoundFiles { stamps, log_end })
    }
}

impl LeftFiles {
    /// The state of the files now, which were left as `before` says. The log is read only if it has changed since.
    /// An `Err` if the stamps or the log can't be read.
    pub fn of<F: OfficeFiles>(
        files: &F,
        lease: &Lease,
        before: &Option<LeftFiles>,
    ) -> io::Result<Self>
        ensures kept { IfOk result (λ left. IfSome before.now (λ known. IsStampUnchanged known.stamps.log left.stamps.log → left.log_end ≡ known.log_end)) }
        ensures noted { IfOk result (λ left. IfSome (F.known files.now) (λ known. AreNoted before.now known.0 known.1 left)) }
    {
        let stamps = files.stamps(lease)?;
        let log_end = match before {
            Some(before) if before.stamps.log.is_same(&stamps.log) => before.log_end,
            Some(before) => log_end(files, &before.log_end)?,
            None => log_end(files, &None)?,
        };
        Ok(LeftFiles { stamps, log_end })
    }

    /// The state of the files now, if only this process has changed them since they were left so, by an office
    /// whose log is open and which met no fault. The database is looked at only if the log was begun anew, since
    /// the office writes to it only then. So a change that another program made meanwhile isn't taken for its own.
    /// An `Err` if the stamps or the log can't be read.
    pub fn after_turn<F: OfficeFiles>(
        &self,
        files: &F,
        lease: &Lease,
        opened: &F::Log,
    ) -> io::Result<Self>
        ensures kept { IfOk result (λ left. IsStampUnchanged self.now.stamps.log left.stamps.log → left.log_end ≡ self.now.log_end) }
        ensures noted { IfOk result (λ left. IfSome (F.known files.now) (λ known. IfSome (F.Log.stamped opened.now) (λ now. IfSome (F.Log.content opened.now)
            (λ bytes. IsTurnNoted self.now now bytes known.0 known.1 left)))) }
    {
        let log = StampedLog::of(opened)?;
        if self.stamps.log.is_same(&log.stamp) {
            return Ok(*self);
        }
        if self.stamps.log.id == log.stamp.id {
            let log_end = end_of(&log, &self.log_end)?;
            if is_continued(&self.log_end, &log_end) {
                let database = self.stamps.database;
                let log = log.stamp;
                let stamps = FileStamps { database, log };
                return Ok(LeftFiles { stamps, log_end });
            }
        }
        LeftFiles::of(files, lease, &Some(*self))
    }

    /// Whether no other program has changed the files of the office since they were left so. If
    /// the files can't be read, they count as changed. NotOurs if committed changes are gone.
    pub fn is_unchanged<F: OfficeFiles>(
        &self,
        files: &F,
        lease: &Lease,
    ) -> Result<bool, OfficeFault>
        ensures lost { IfErr result (λ fault. (fault ≡ OfficeFault.NotOurs) × HadSomething self.now) }
        ensures compared { IfSome (F.known files.now) (λ known. (change : FileChange) × AreCompared (F.are_readable files.now) self.now known.0 known.1 change
            × (result ≡ answer_to change)) }
    {
        match self.compare(files, lease) {
            FileChange::Same => Ok(true),
            FileChange::ByOthers => Ok(false),
            FileChange::NotOurs => Err(OfficeFault::NotOurs),
        }
    }

    /// What other programs did to the files of the office since they were left so. If the files
    /// can't be read, they count as written.
    pub fn compare<F: OfficeFiles>(&self, files: &F, lease: &Lease) -> FileChange
        ensures lost { result ≡ FileChange.NotOurs → HadSomething self.now }
        ensures compared { IfSome (F.known files.now) (λ known. AreCompared (F.are_readable files.now) self.now known.0 known.1 result) }
    {
        match FoundFiles::of(files, lease, self) {
            Ok(found) => self.change_to(&found),
            Err(_) => FileChange::ByOthers,
        }
    }

    /// What other programs did if the files are found so now.
    pub fn change_to(&self, found: &FoundFiles) -> FileChange
        ensures same { (result ≡ FileChange.Same) ↔ AreUntouched self.now.stamps found.now.stamps }
        ensures lost { (result ≡ FileChange.NotOurs) ↔ AreCommitsLost self.now found.now }
    {
        if self.is_lost(found) {
            FileChange::NotOurs
        } else if self.are_untouched(&found.stamps) {
            FileChange::Same
        } else {
            FileChange::ByOthers
        }
    }

    // Whether neither file has changed.
    fn are_untouched(&self, found: &FileStamps) -> bool
        ensures { (result ≡ true) ↔ AreUntouched self.now.stamps found.now }
    {
        found.database.is_same(&self.stamps.database) && found.log.is_same(&self.stamps.log)
    }

    // Whether committed changes are gone.
    fn is_lost(&self, found: &FoundFiles) -> bool
        ensures { (result ≡ true) ↔ AreCommitsLost self.now found.now }
    {
        if self.stamps.database.bytes > 0 && found.stamps.database.bytes == 0 {
            return true;
        }
        self.log_end.is_some() && self.is_log_lost(found)
    }

    // Whether the commits in the log are gone.
    fn is_log_lost(&self, found: &FoundFiles) -> bool
        ensures { (result ≡ true) ↔ IsLogLost self.now found.now }
    {
        let is_database_kept = found.stamps.database.has_content_of(&self.stamps.database);
        let is_log_kept = found.stamps.log.has_content_of(&self.stamps.log);
        let is_log_cut = found.stamps.log.bytes < self.stamps.log.bytes;
        is_database_kept && is_log_cut
            || !is_database_kept && is_log_kept
            || self.is_end_lost(found, is_database_kept)
    }

    // Whether the last commit is found to be gone from the log.
    fn is_end_lost(&self, found: &FoundFiles, is_database_kept: bool) -> bool
        ensures { (result ≡ true) ↔ IsEndLost (is_database_kept ≡ true) self.now found.now }
    {
        if found.stamps.log.is_same(&self.stamps.log) {
            return false;
        }
        match found.log_end {
            Some(FoundEnd::Gone) => true,
            Some(FoundEnd::BegunAnew) => is_database_kept,
            Some(FoundEnd::Stands) | None => false,
        }
    }
}

/// Whether the log still has the commit that the mark in FILE.lock names, or there is no mark of this FILE. Damaged if
/// the log was cut or changed since it was marked, so that SQLite would stop before that commit. Disk if the files
/// can't be looked at, Memory if there is none for their paths.
pub fn check_mark<F: OfficeFiles>(files: &F, lease: &Lease) -> Result<(), OfficeFault> {
    match lease.mark() {
        Some(mark) => check_commit(files, lease, &mark),
        None => Ok(()),
    }
}

/// The same for the commit that this mark names.
pub fn check_commit<F: OfficeFiles>(
    files: &F,
    lease: &Lease,
    mark: &LogMark,
) -> Result<(), OfficeFault>
    ensures kept { OnOk result (IfSome (F.known files.now) (λ known. ¬ IsCommitLost mark.now known.0 known.1)) }
    ensures lost { IfErr result (λ fault. fault ≡ OfficeFault.Damaged → IfSome (F.known files.now) (λ known. IsCommitLost mark.now known.0 known.1)) }
{
    match is_mark_lost(files, lease, mark) {
        Ok(false) => Ok(()),
        Ok(true) => Err(OfficeFault::Damaged),
        Err(fault) if fault.kind() == ErrorKind::OutOfMemory => Err(OfficeFault::Memory),
        Err(_) => Err(OfficeFault::Disk),
    }
}

// Whether the commit that the mark names is lost. The log is read only if FILE is as it was marked.
fn is_mark_lost<F: OfficeFiles>(files: &F, lease: &Lease, mark: &LogMark) -> io::Result<bool>
    ensures { IfOk result (λ lost. IfSome (F.known files.now) (λ known. IsTrue lost ↔ (IsFileAsMarked mark.now known.0.database × ¬ HasEnd known.1 mark.now.end))) }
{
    let database = files.stamps(lease)?.database;
    if !mark.is_of(&database) {
        return Ok(false);
    }
    Ok(mark.is_lost(&database, find_end(files, &mark.end)?))
}

// Whether a log has the salts that it had before, so that it was only added to.
fn is_continued(before: &Option<LogEnd>, end: &Option<LogEnd>) -> bool
    ensures { IsTrue result ↔ IsContinued before.now end.now }
{
    match (before, end) {
        (Some(before), Some(end)) => before.salts == end.salts,
        _ => false,
    }
}

// The last commit in the log, of which an earlier one may be known.
fn log_end<F: OfficeFiles>(files: &F, before: &Option<LogEnd>) -> io::Result<Option<LogEnd>>
    ensures { IfOk result (λ end. IfSome (F.known files.now) (λ known. IsEarlierEnd known.1 before.now → IsEndOf known.1 end)) }
{
    match files.log()? {
        Some(log) => end_of(&StampedLog::of(&log)?, before),
        None => Ok(None),
    }
}

// What became of the end of the log.
fn find_end<F: OfficeFiles>(files: &F, end: &LogEnd) -> io::Result<FoundEnd>
    ensures found { IfOk result (λ found. IfSome (F.known files.now) (λ known. IsFoundAs known.1 end.now found)) }
    ensures readable { F.are_readable files.now → IsOk result }
{
    match files.log()? {
        Some(log) => end.find(&StampedLog::of(&log)?),
        None => Ok(FoundEnd::BegunAnew),
    }
}
