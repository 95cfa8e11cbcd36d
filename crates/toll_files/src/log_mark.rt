//! The mark of a log's last commit, which FILE.lock has. By it an opening sees that the log was cut or changed since:
//! SQLite takes a log up to its first frame that doesn't sum, without a fault.
ghost use Rattle.sqlite_wal.specs.Format.{part};
ghost use Rattle.sqlite_wal.specs.PageSize.{IsPageSize};
ghost use Rattle.std.specs.Int.{w32, w64, from_be_bytes, to_be_bytes};
ghost use Rattle.std.specs.Prelude.{◌≡◌, ◌↔◌, ◌+◌, ◌≤◌, ◌++◌, Some, true, IfNone, IfSome, IsSome, IsTrue, MatchOption, length, take};
ghost use Rattle.toll_files.specs.LogMarks.{AreMarked, AreMarkedAlike, IsFileAsMarked, IsMarkLost, IsNoneToMark};
ghost use Rattle.toll_files.specs.MarkBytes.{AreInRange, IsSameMark, end_bytes, mark_bytes, stamp_bytes, sum_bytes, time_bytes};
ghost use Rattle.toll_files.specs.declared.log_mark.LogMark.{LogMark};

use crate::file_id::FileId;
use crate::file_stamps::{LeftFiles, Stamp};
use crate::log_end::{FoundEnd, LogEnd};
use sqlite_wal::{PageSize, checksum_of};

/// How many bytes a mark has.
pub const MARK_BYTES: usize = 88;

/// The first bytes of each mark: its name and version.
const NAME: [u8; 8] = *b"log end1";

/// The place of a mark's checksum, which sums all bytes before it.
const SUM_AT: usize = 80;

/// The last commit in a log, and the stamp that FILE had then.
#[derive(Clone, Copy)]
pub struct LogMark {
    pub database: Stamp,
    pub end: LogEnd,
}

impl LogMark {
    /// The mark of files that were left so. `None` if their log has no commit.
    pub fn of(left: &LeftFiles) -> Option<Self>
        ensures { AreMarked left.now result }
    {
        match left.log_end {
            Some(end) => Some(LogMark {
                database: left.stamps.database,
                end,
            }),
            None => None,
        }
    }

    /// Whether the commit is lost if FILE has this stamp now, and this became of the commit in the log. While FILE is
    /// as it was marked, nobody has taken the log's commits into it, so the log must have this one. Of a FILE that was
    /// written, replaced, moved or copied since, the mark tells nothing.
    pub fn is_lost(&self, database: &Stamp, found: FoundEnd) -> bool
        ensures { (result ≡ true) ↔ IsMarkLost self.now database.now found }
    {
        self.is_of(database) && found != FoundEnd::Stands
    }

    /// Whether a FILE with this stamp is as it was marked. The number of its disk isn't compared, which may be another
    /// one after a restart of the machine.
    pub fn is_of(&self, database: &Stamp) -> bool
        ensures { (result ≡ true) ↔ IsFileAsMarked self.now database.now }
    {
        self.database.id.inode == database.id.inode
            && self.database.bytes == database.bytes
            && self.database.written == database.written
            && self.database.changed == database.changed
    }

    /// The mark of files that are left so, unless that of files that were left as `marked` says is the same.
    pub fn unwritten(marked: &Option<LeftFiles>, left: &Option<LeftFiles>) -> Option<Self>
        ensures marked { IfSome result (λ mark. IfSome left.now (λ left. AreMarked left (Some mark))) }
        ensures alike { IfNone result (IsNoneToMark marked.now left.now) }
    {
        let Some(left) = left else {
            return None;
        };
        match marked {
            Some(marked) if is_marked_alike(marked, left) => None,
            _ => LogMark::of(left),
        }
    }

    /// The mark as bytes: its name and version, its fields, and the checksum of these.
    pub fn to_bytes(&self) -> [u8; MARK_BYTES]
        ensures { result ≡ mark_bytes self.now }
    {
        let mut bytes = [0; MARK_BYTES];
        put(&mut bytes, 0, &NAME);
        put64(&mut bytes, 8, self.database.id.inode);
        put64(&mut bytes, 16, self.database.bytes);
        put_time(&mut bytes, 24, self.database.written);
        put_time(&mut bytes, 40, self.database.changed);
        put(&mut bytes, 56, &self.end.salts);
        put32(&mut bytes, 64, self.end.frames);
        put32(&mut bytes, 68, self.end.page_size.bytes() as u32);
        put_sum(&mut bytes, 72, self.end.sum);
        let sum = checksum_of(true, (0, 0), &bytes[..SUM_AT]);
        put_sum(&mut bytes, SUM_AT, sum);
        bytes
    }

    /// The mark that these bytes are. `None` if they are none, as if one of them was changed.
    pub fn from_bytes(bytes: &[u8; MARK_BYTES]) -> Option<Self>
        ensures read { IfSome result (λ mark. bytes.now ≡ mark_bytes mark) }
        ensures all { (mark : LogMark) → bytes.now ≡ mark_bytes mark → IsSome result }
    {
        let mark = LogMark {
            database: stamp_in(bytes),
            end: end_in(bytes)?,
        };
        if mark.to_bytes() == *bytes {
            Some(mark)
        } else {
            None
        }
    }
}

/// A mark is read back as it was written, but for the number of FILE's disk: marks with the same bytes are the same.
pub fn a_mark_is_read_back()
    ensures { (a b : LogMark) → AreInRange a → AreInRange b → mark_bytes a ≡ mark_bytes b → IsSameMark a b }
{}

// Whether files that are left so have the mark of files that were left so before.
fn is_marked_alike(marked: &LeftFiles, left: &LeftFiles) -> bool
    ensures { IsTrue result ↔ AreMarkedAlike marked.now left.now }
{
    match (&marked.log_end, &left.log_end) {
        (Some(marked_end), Some(end)) => {
            marked_end.salts == end.salts
                && marked_end.frames == end.frames
                && marked_end.sum == end.sum
                && marked.stamps.database.is_same(&left.stamps.database)
        }
        _ => false,
    }
}

// Puts these bytes at the end of what is written up to this place.
fn put(bytes: &mut [u8], at: usize, part: &[u8])
    requires { at + length part.now ≤ length bytes.old }
    ensures len { length bytes.new ≡ length bytes.old }
    ensures put { take (at + length part.now) bytes.new ≡ take at bytes.old ++ part.now }
{
    bytes[at..at + part.len()].copy_from_slice(part);
}

fn put32(bytes: &mut [u8], at: usize, number: u32)
    requires { at + 4 ≤ length bytes.old }
    ensures len { length bytes.new ≡ length bytes.old }
    ensures put { take (at + 4) bytes.new ≡ take at bytes.old ++ to_be_bytes w32 number }
{
    put(bytes, at, &number.to_be_bytes());
}

fn put64(bytes: &mut [u8], at: usize, number: u64)
    requires { at + 8 ≤ length bytes.old }
    ensures len { length bytes.new ≡ length bytes.old }
    ensures put { take (at + 8) bytes.new ≡ take at bytes.old ++ to_be_bytes w64 number }
{
    put(bytes, at, &number.to_be_bytes());
}

fn put_time(bytes: &mut [u8], at: usize, time: (i64, i64))
    requires { at + 16 ≤ length bytes.old }
    ensures len { length bytes.new ≡ length bytes.old }
    ensures put { take (at + 16) bytes.new ≡ take at bytes.old ++ time_bytes time }
{
    put64(bytes, at, time.0.cast_unsigned());
    put64(bytes, at + 8, time.1.cast_unsigned());
}

fn put_sum(bytes: &mut [u8], at: usize, sum: (u32, u32))
    requires { at + 8 ≤ length bytes.old }
    ensures len { length bytes.new ≡ length bytes.old }
    ensures put { take (at + 8) bytes.new ≡ take at bytes.old ++ sum_bytes sum }
{
    put32(bytes, at, sum.0);
    put32(bytes, at + 4, sum.1);
}

// The stamp of FILE in a mark, which doesn't have the number of its disk.
fn stamp_in(bytes: &[u8; MARK_BYTES]) -> Stamp
    ensures { stamp_bytes result ≡ part bytes.now 8 48 }
{
    Stamp {
        id: FileId {
            device: 0,
            inode: u64_at(bytes, 8),
        },
        bytes: u64_at(bytes, 16),
        written: time_at(bytes, 24),
        changed: time_at(bytes, 40),
    }
}

// The commit in a mark. `None` if no page has its size.
fn end_in(bytes: &[u8; MARK_BYTES]) -> Option<LogEnd>
    ensures { MatchOption result (¬ IsPageSize (from_be_bytes w32 (part bytes.now 68 4))) (λ end. end_bytes end ≡ part bytes.now 56 24) }
{
    Some(LogEnd {
        salts: array_at(bytes, 56),
        frames: u32_at(bytes, 64),
        page_size: PageSize::new(u32_at(bytes, 68) as usize)?,
        sum: (u32_at(bytes, 72), u32_at(bytes, 76)),
    })
}

fn array_at<const N: usize>(bytes: &[u8], at: usize) -> [u8; N]
    requires { at + N ≤ length bytes.now }
    ensures { result ≡ part bytes.now at N }
{
    let mut array = [0; N];
    array.copy_from_slice(&bytes[at..at + N]);
    array
}

fn u32_at(bytes: &[u8], at: usize) -> u32
    requires { at + 4 ≤ length bytes.now }
    ensures number { result ≡ from_be_bytes w32 (part bytes.now at 4) }
    ensures bytes { to_be_bytes w32 result ≡ part bytes.now at 4 }
{
    u32::from_be_bytes(array_at(bytes, at))
}

fn u64_at(bytes: &[u8], at: usize) -> u64
    requires { at + 8 ≤ length bytes.now }
    ensures { to_be_bytes w64 result ≡ part bytes.now at 8 }
{
    u64::from_be_bytes(array_at(bytes, at))
}

fn time_at(bytes: &[u8], at: usize) -> (i64, i64)
    requires { at + 16 ≤ length bytes.now }
    ensures { time_bytes result ≡ part bytes.now at 16 }
{
    (
        u64_at(bytes, at).cast_signed(),
        u64_at(bytes, at + 8).cast_signed(),
    )
}
