//! The committed end of a write-ahead log of SQLite, whose format is public
//! (https://sqlite.org/fileformat2.html#the_write_ahead_log): a header, and frames of one page each.
ghost use Rattle.std.proofs.Props.{props};
ghost use Rattle.std.specs.Prelude.{◌≡◌, ◌↔◌, ◌+◌, ◌*◌, ◌<◌, ◌≤◌, ◌^◌, ℕ, List, Option, None, true, IsTrue, IfOk, IfSome, IsOk, MatchOption, length};
ghost use Rattle.sqlite_wal.specs.Format.{IsFrame, IsHeader, IsSigned, be32, part, stored_sum};
ghost use Rattle.sqlite_wal.specs.PageSize.{IsPageSize, bytes_of};
ghost use Rattle.sqlite_wal.specs.Recovery.{frame_at, header};
ghost use Rattle.toll_files.specs.LogEnds.{AreFrames, IsCommitOf, IsEarlierEnd, IsEndOf, IsEndOfFrames, IsFilled, IsFoundAs, IsHeaderOfFrame, IsLogHeader, IsReached};

use sqlite_wal::{PageSize, checksum_of};
use std::io;
use std::io::ErrorKind;

/// How many bytes the header of a log has.
const HEADER_BYTES: usize = 32;

/// How many bytes the header of a frame has.
const FRAME_HEADER_BYTES: usize = 24;

/// How many bytes a frame has at most: its header and the longest page.
const MOST_FRAME_BYTES: usize = FRAME_HEADER_BYTES + 65_536;

/// How many bytes are read ahead: up to the header of the fourth frame, if pages have 4,096 bytes.
const AHEAD_BYTES: usize = 3 * (FRAME_HEADER_BYTES + 4_096) + FRAME_HEADER_BYTES;

/// The version of the format, which has not changed since SQLite 3.7.0.
const WAL_VERSION: u32 = 3_007_000;

/// A running sum of a log, as SQLite computes it.
type Sum = (u32, u32);

/// A file of which any part can be read.
pub trait ReadAt {
    // The bytes of the file, if they are known.
    ghost content: { Self → Option (List ℕ) } = { λ _. None };

    // Its bytes can be read.
    ghost is_readable: { Self → Type 0 } = { λ _. ⊥ };

    /// The number of its bytes.
    fn len(&self) -> u64
        ensures { IfSome (content self.now) (λ bytes. result ≡ length bytes) };

    /// Fills the buffer with the bytes from this place on. Returns false if the file ends before. An `Err` if the
    /// bytes can't be read.
    fn fill_at(&self, at: u64, buffer: &mut [u8]) -> io::Result<bool>
        ensures filled { IfOk result (λ filled. IfSome (content self.now) (λ bytes. IsFilled bytes at filled buffer.new)) }
        ensures readable { is_readable self.now → IsOk result };
}

/// A file of which some bytes were read ahead.
struct ReadAhead<'a, F: ReadAt> {
    file: &'a F,
    at: u64,
    bytes: &'a [u8],
    ghost read: { IfSome (F.content file.now) (λ content. IsFilled content at true bytes.now) } by { Prim.hlevel props },
}

impl<F: ReadAt> Drop for ReadAhead<'_, F> {
    fn drop(self) {
        let ReadAhead {
            file: _,
            at: _,
            bytes: _,
        } = self;
    }
}

impl<'a, F: ReadAt> ReadAhead<'a, F> {
    // Reads as many bytes of the file from this place on as the buffer takes.
    fn at(file: &'a F, at: u64, buffer: &'a mut [u8]) -> io::Result<Self>
        ensures { IfOk result (λ ahead. ahead.file.now ≡ file.now) }
    {
        let left = file.len().saturating_sub(at).min(buffer.len() as u64);
        let bytes = &mut buffer[..left as usize];
        if file.fill_at(at, bytes)? {
            Ok(ReadAhead { file, at, bytes })
        } else {
            Ok(ReadAhead {
                file,
                at: 0,
                bytes: &[],
            })
        }
    }

    // So many bytes from this place on, if they were read ahead.
    fn part(&self, at: u64, count: usize) -> Option<&[u8]>
        ensures count { IfSome result (λ bytes. length bytes.now ≡ count) }
        ensures read { IfSome result (λ bytes. IfSome (F.content self.now.file.now) (λ content. IsFilled content at true bytes.now)) }
    {
        let begun = at.checked_sub(self.at)? as usize;
        let end = begun.checked_add(count)?;
        self.bytes.get(begun..end)
    }
}

impl<F: ReadAt> ReadAt for ReadAhead<'_, F> {
    ghost content = { λ ahead. F.content ahead.file.now };

    ghost is_readable = { λ ahead. F.is_readable ahead.file.now };

    fn len(&self) -> u64 {
        self.file.len()
    }

    fn fill_at(&self, at: u64, buffer: &mut [u8]) -> io::Result<bool> {
        if self.len().saturating_sub(at) < buffer.len() as u64 {
            return Ok(false);
        }
        match self.part(at, buffer.len()) {
            Some(bytes) => {
                buffer.copy_from_slice(bytes);
                Ok(true)
            }
            None => self.file.fill_at(at, buffer),
        }
    }
}

/// The last commit in a log.
#[derive(Clone, Copy, Debug)]
pub struct LogEnd {
    /// The salts of the log's header and of each of its frames.
    pub salts: [u8; 8],
    /// The number of frames up to the commit's last one, which is counted too.
    pub frames: u32,
    pub page_size: PageSize,
    /// The running sum in the header of that frame.
    pub sum: Sum,
}

/// What became of the end of a log.
#[derive(Clone, Copy, Debug, PartialEq, Eq)]
pub enum FoundEnd {
    /// The log has it still, and SQLite takes each frame up to it.
    Stands,
    /// The log has the same salts, but SQLite would stop before it.
    Gone,
    /// The log is another one: its salts are others, or it has no whole header, as while a log is begun anew.
    BegunAnew,
}

impl LogEnd {
    /// What became of this end in the log. All frames up to it are read, and their sums computed. An `Err` if the log
    /// can't be read.
    pub fn find<F: ReadAt>(&self, log: &F) -> io::Result<FoundEnd>
        ensures found { IfOk result (λ found. IfSome (F.content log.now) (λ bytes. IsFoundAs bytes self.now found)) }
        ensures readable { F.is_readable log.now → IsOk result }
    {
        let Some(head) = head_of(log)? else {
            return Ok(FoundEnd::BegunAnew);
        };
        let Some(page_size) = page_size_of(&head) else {
            return Ok(FoundEnd::BegunAnew);
        };
        if salts_in(&head) != self.salts {
            return Ok(FoundEnd::BegunAnew);
        }
        if page_size.bytes() == self.page_size.bytes() && self.is_reached(log, &head)? {
            Ok(FoundEnd::Stands)
        } else {
            Ok(FoundEnd::Gone)
        }
    }

    // Whether SQLite takes all frames up to it, under this header, and the running sum is then its sum.
    fn is_reached<F: ReadAt>(&self, log: &F, head: &[u8; 32]) -> io::Result<bool>
        ensures reached { IfOk result (λ reached. IfSome (F.content log.now) (λ bytes. head.now ≡ header bytes → (IsTrue reached ↔ IsReached bytes self.now))) }
        ensures readable { F.is_readable log.now → IsOk result }
    {
        let mut buffer = [0; MOST_FRAME_BYTES];
        let frame = &mut buffer[..FRAME_HEADER_BYTES + self.page_size.bytes()];
        let mut sum = sum_at(head, 24);
        for i in 0..self.frames {
            if !log.fill_at(place_of(i, self.page_size), frame)? || !is_frame(head, sum, frame) {
                return Ok(false);
            }
            sum = sum_at(frame, 16);
        }
        Ok(sum == self.sum)
    }
}

/// The last commit in the log, if there is one. `before` is an earlier end of it: if the log still has its
/// salts, only frames behind it are looked at. The first few headers are read with the pages between them. An
/// `Err` if the log can't be read, or has more frames than SQLite counts.
pub fn end_of<F: ReadAt>(log: &F, before: &Option<LogEnd>) -> io::Result<Option<LogEnd>>
    ensures { IfOk result (λ end. IfSome (F.content log.now) (λ bytes. IsEarlierEnd bytes before.now → IsEndOf bytes end)) }
{
    let Some(head) = head_of(log)? else {
        return Ok(None);
    };
    let Some(page_size) = page_size_of(&head) else {
        return Ok(None);
    };
    let salts = salts_in(&head);
    let known = match before {
        Some(end) if end.salts == salts => Some(*end),
        _ => None,
    };
    let mut buffer = [0; AHEAD_BYTES];
    let first = first_behind(&known);
    let log = ReadAhead::at(log, place_of(first, page_size), &mut buffer)?;
    last_commit(&log, salts, page_size, known)
}

// The last commit in a log with these salts, of which an earlier one may be known.
fn last_commit<F: ReadAt>(
    log: &F,
    salts: [u8; 8],
    page_size: PageSize,
    known: Option<LogEnd>,
) -> io::Result<Option<LogEnd>>
    ensures { IfOk result (λ end. IfSome (F.content log.now) (λ bytes.
        IfSome known (IsCommitOf (bytes_of page_size) salts bytes) → IsEndOfFrames (bytes_of page_size) salts bytes end)) }
{
    let mut end = known;
    for i in first_behind(&known)..u32::MAX {
        let Some(frame) = frame_header_at(log, &salts, page_size, i)? else {
            return Ok(end);
        };
        if be32_at(&frame, 4) != 0 {
            end = Some(LogEnd {
                salts,
                frames: i + 1,
                page_size,
                sum: sum_at(&frame, 16),
            });
        }
    }
    Err(ErrorKind::InvalidData.into())
}

// The number of the first frame behind a commit; 0 if none is known.
fn first_behind(known: &Option<LogEnd>) -> u32
    ensures { MatchOption known.now (result ≡ 0) (λ end. result ≡ end.frames) }
{
    match known {
        Some(end) => end.frames,
        None => 0,
    }
}

// The header of frame i, if it is the log's: the file has it, with these salts.
fn frame_header_at<F: ReadAt>(
    log: &F,
    salts: &[u8; 8],
    page_size: PageSize,
    i: u32,
) -> io::Result<Option<[u8; 24]>>
    ensures { IfOk result (λ found. IfSome (F.content log.now) (λ bytes. IsHeaderOfFrame (bytes_of page_size) salts.now bytes i found)) }
{
    let mut frame = [0; FRAME_HEADER_BYTES];
    let is_whole = log.fill_at(place_of(i, page_size), &mut frame)?;
    if !is_whole || frame[8..16] != salts[..] {
        return Ok(None);
    }
    Ok(Some(frame))
}

// The salts in a log's header.
fn salts_in(head: &[u8; 32]) -> [u8; 8]
    ensures { result ≡ part head.now 16 8 }
{
    let mut salts = [0; 8];
    salts.copy_from_slice(&head[16..24]);
    salts
}

// The first 32 bytes of the file, if it has as many.
fn head_of<F: ReadAt>(log: &F) -> io::Result<Option<[u8; 32]>>
    ensures head { IfOk result (λ found. IfSome (F.content log.now) (λ bytes. MatchOption found (length bytes < 32) (λ head. (32 ≤ length bytes) × (head ≡ header bytes)))) }
    ensures readable { F.is_readable log.now → IsOk result }
{
    let mut head = [0; HEADER_BYTES];
    if log.fill_at(0, &mut head)? {
        Ok(Some(head))
    } else {
        Ok(None)
    }
}

// The size of the pages, if this is a log's header.
fn page_size_of(head: &[u8; 32]) -> Option<PageSize>
    ensures { MatchOption result (¬ IsLogHeader head.now) (λ size. IsLogHeader head.now × (bytes_of size ≡ be32 head.now 8)) }
{
    match PageSize::new(be32_at(head, 8) as usize) {
        Some(size) if is_header(head, size) => Some(size),
        _ => None,
    }
}

// Whether this is the header of a log that SQLite reads, with pages of this size.
fn is_header(head: &[u8; 32], page_size: PageSize) -> bool
    ensures { IsTrue result ↔ IsHeader (bytes_of page_size) head.now }
{
    is_signed(head)
        && be32_at(head, 4) == WAL_VERSION
        && be32_at(head, 8) as usize == page_size.bytes()
}

// Whether the header begins with the magic number and ends with its sum.
fn is_signed(head: &[u8; 32]) -> bool
    ensures { IsTrue result ↔ IsSigned head.now }
{
    if head[0] != 0x37 || head[1] != 0x7f || head[2] != 0x06 {
        return false;
    }
    if head[3] != 0x82 && head[3] != 0x83 {
        return false;
    }
    checksum_of(head[3] == 0x83, (0, 0), &head[..24]) == sum_at(head, 24)
}

// Whether SQLite takes the frame, under this header and after this running sum.
fn is_frame(head: &[u8; 32], before: Sum, frame: &[u8]) -> bool
    requires { 24 ≤ length frame.now }
    ensures { IsTrue result ↔ IsFrame head.now before frame.now }
{
    if frame[8..16] != head[16..24] || be32_at(frame, 0) == 0 {
        return false;
    }
    let is_big = head[3] == 0x83;
    let front = checksum_of(is_big, before, &frame[..8]);
    checksum_of(is_big, front, &frame[24..]) == sum_at(frame, 16)
}

// The sum that is stored at this place.
fn sum_at(bytes: &[u8], at: usize) -> Sum
    requires { at + 8 ≤ length bytes.now }
    ensures { result ≡ stored_sum bytes.now at }
{
    (be32_at(bytes, at), be32_at(bytes, at + 4))
}

// Four bytes as a number, the highest first.
fn be32_at(bytes: &[u8], at: usize) -> u32
    requires { at + 4 ≤ length bytes.now }
    ensures { result ≡ be32 bytes.now at }
{
    bytes[at] as u32 * 0x100_0000
        + bytes[at + 1] as u32 * 0x1_0000
        + bytes[at + 2] as u32 * 0x100
        + bytes[at + 3] as u32
}

// The place of frame i in its log.
fn place_of(i: u32, page_size: PageSize) -> u64
    ensures { result ≡ frame_at (bytes_of page_size) i }
{
    let frame_bytes = FRAME_HEADER_BYTES + page_size.bytes();
    HEADER_BYTES as u64 + i as u64 * frame_bytes as u64
}
