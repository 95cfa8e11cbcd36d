//! The last commit in a log that sqlite3 wrote, and what is found of it after a change of the log.
ghost use Rattle.std.specs.Prelude.{Some};

use std::alloc::{AllocError, Global};
use std::io;
use std::test::Fail;
use toll_files::{FoundEnd, LogEnd, ReadAt, end_of};

/// The length of the log, and of each of its three frames.
const LOG_BYTES: usize = 1640;

const FRAME_BYTES: usize = 536;

/// What isn't 0 in the log of `PRAGMA page_size=512; PRAGMA journal_mode=WAL; CREATE TABLE t(x); INSERT INTO t
/// VALUES(7)`, as sqlite3 3.40.1 wrote it. The first commit has two frames, the second has one.
const LOG: &[(usize, &[u8])] = &[
    (
        0,
        b"7\x7f\x06\x82\0-\xe2\x18\0\0\x02\0\0\0\0\0\xf39\x8be\xa7\\/\xdb",
    ),
    (24, b":V=\x06\xcd_qR\0\0\0\x01\0\0\0\0\xf39\x8be\xa7\\/\xdb"),
    (48, b"\xe1\xef>\x0d\x98\xbc\x1a\xa1SQLite format 3\0"),
    (72, b"\x02\0\x02\x02\0@  \0\0\0\x02\0\0\0\x02"),
    (99, b"\x01\0\0\0\x04"),
    (115, b"\x01"),
    (151, b"\x02\0.c\x01\x0d\0\0\0\x01\x01\xdf\0\x01\xdf"),
    (535, b"\x1f\x01\x06\x17\x0f\x0f\x01/tablett\x02CREATE T"),
    (559, b"ABLE t(x)\0\0\0\x02\0\0\0\x02\xf39\x8be\xa7\\/"),
    (583, b"\xdbiN\xee\xfa0\xa4Q\xa5\x0d\0\0\0\0\x02"),
    (
        1107,
        b"\x02\0\0\0\x02\xf39\x8be\xa7\\/\xdb\xf1\x01\x88\xed/'\xc6*\x0d\0\0",
    ),
    (1131, b"\0\x01\x01\xfb\0\x01\xfb"),
    (1635, b"\x03\x01\x02\x01\x07"),
];

const SALTS: [u8; 8] = *b"\xf3\x39\x8b\x65\xa7\x5c\x2f\xdb";

/// The running sums in the headers of the frames that commit.
const FIRST_SUM: (u32, u32) = (0x694e_eefa, 0x30a4_51a5);

const SECOND_SUM: (u32, u32) = (0xf101_88ed, 0x2f27_c62a);

/// A file in memory, whose bytes are known.
#[derive(Clone, Copy)]
struct KnownFile<'a> {
    bytes: &'a [u8],
}

impl ReadAt for KnownFile<'_> {
    ghost content = { λ file. Some file.bytes.now };

    fn len(&self) -> u64 {
        self.bytes.len() as u64
    }

    fn fill_at(&self, at: u64, buffer: &mut [u8]) -> io::Result<bool> {
        let begun = at as usize;
        if self.bytes.len() < begun || self.bytes.len() - begun < buffer.len() {
            return Ok(false);
        }
        buffer.copy_from_slice(&self.bytes[begun..begun + buffer.len()]);
        Ok(true)
    }
}

fn put(log: &mut [u8], at: usize, bytes: &[u8]) {
    for (i, byte) in bytes.iter().enumerate() {
        if let Some(place) = log.get_mut(at.saturating_add(i)) {
            *place = *byte;
        }
    }
}

// The log of sqlite3.
fn log(alloc: Global) -> Result<Vec<u8>, AllocError> {
    let mut log = vec![in alloc; 0; LOG_BYTES]?;
    for (at, bytes) in LOG {
        put(&mut log, *at, bytes);
    }
    Ok(log)
}

// The first bytes of it.
fn front_of(log: &[u8], count: usize) -> KnownFile<'_> {
    let bytes = if count < log.len() {
        &log[..count]
    } else {
        log
    };
    KnownFile { bytes }
}

fn is_end(end: &Option<LogEnd>, frames: u32, sum: (u32, u32)) -> bool {
    match end {
        Some(end) => end.frames == frames && end.sum == sum && end.salts == SALTS,
        None => false,
    }
}

#[test]
fn a_log_ends_with_its_last_commit(rt: HostRuntime) -> Result<(), Fail> {
    let log = log(rt.alloc())?;
    let front = front_of(&log, LOG_BYTES - FRAME_BYTES);
    let first = end_of(&front, &None)?;
    assert!(rt; is_end(&first, 2, FIRST_SUM));
    let whole = KnownFile { bytes: &log };
    assert!(rt; is_end(&end_of(&whole, &None)?, 3, SECOND_SUM));
    assert!(rt; is_end(&end_of(&whole, &first)?, 3, SECOND_SUM));
    Ok(())
}

fn flip(log: &mut [u8], at: usize) {
    if let Some(byte) = log.get_mut(at) {
        *byte ^= 1;
    }
}

// What is found of the end in the log, after a change of this byte.
fn found_after_change(log: &mut [u8], at: usize, end: &LogEnd) -> io::Result<FoundEnd> {
    flip(log, at);
    let found = end.find(&KnownFile { bytes: log });
    flip(log, at);
    found
}

#[test]
fn a_changed_byte_of_a_log_is_found(rt: HostRuntime) -> Result<(), Fail> {
    let mut log = log(rt.alloc())?;
    let end = end_of(&KnownFile { bytes: &log }, &None)?.ok_or("no end")?;
    for at in 0..LOG_BYTES {
        let wanted = match at {
            0..32 => FoundEnd::BegunAnew,
            _ => FoundEnd::Gone,
        };
        assert!(rt; found_after_change(&mut log, at, &end)? == wanted);
    }
    assert!(rt; end.find(&KnownFile { bytes: &log })? == FoundEnd::Stands);
    assert!(rt; end.find(&front_of(&log, 31))? == FoundEnd::BegunAnew);
    assert!(rt; end.find(&front_of(&log, LOG_BYTES - 1))? == FoundEnd::Gone);
    Ok(())
}
