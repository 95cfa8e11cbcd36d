//! Words of the plant over an office in a file that has no server.
use std::fs::File;
use std::test::Fail;
use std::{fs, io};
use toll_files::{Lease, LeftFiles, OfficeFault, PathFiles, take_lock};
use toll_keep::MemKeep;
use toll_programs::{Connector, TrackedStream};
use toll_protocol::Sink;
use toll_service::{KeepOpener, OfficePath, do_words};
use toll_stories::check;

/// Opens an office without rows, and counts how many.
#[derive(Drop)]
struct Counting {
    opened: u32,
}

impl KeepOpener<MemKeep> for Counting {
    ghost use Rattle.std.specs.Prelude.{⊤};

    ghost is_opened = { λ _. ⊤ };

    fn lock(&mut self, rt: &HostRuntime, path: &str) -> Result<Lease, OfficeFault> {
        take_lock(rt, path)
    }

    fn is_unchanged(
        &mut self,
        rt: &HostRuntime,
        path: &str,
        lease: &Lease,
        left: &LeftFiles,
    ) -> Result<bool, OfficeFault> {
        left.is_unchanged(&PathFiles { rt, path }, lease)
    }

    fn open(
        &mut self,
        rt: &HostRuntime,
        _path: &str,
        _lease: &Lease,
    ) -> Result<MemKeep, OfficeFault> {
        self.opened = self.opened.saturating_add(1);
        Ok(MemKeep::new(rt.alloc()))
    }

    fn close(&mut self, _keep: MemKeep, _lease: &Lease) {}
}

/// Connects to no server.
#[derive(Drop)]
struct NoServer;

impl Connector<TrackedStream<File>> for NoServer {
    fn connect(&mut self, _rt: &HostRuntime, _path: &str) -> Option<TrackedStream<File>> {
        None
    }
}

/// What is written, the exit status, and how many offices were opened.
#[derive(Clone, Copy)]
struct End {
    output: &'static str,
    error: &'static str,
    status: u64,
    opened: u32,
}

const ENDS: &[(&[&str], End)] = &[
    (
        &["owner-add", "ACME", "ACMEKEY1"],
        End {
            output: "accepted\n",
            error: "",
            status: 0,
            opened: 1,
        },
    ),
    (
        &["stock", "ACME"],
        End {
            output: "refused 3 UnknownOwner\n",
            error: "",
            status: 1,
            opened: 1,
        },
    ),
    (
        &["stock"],
        End {
            output: "",
            error: "usage: toll --db FILE stock OWNER\nNo value is empty, is help or begins with a dash: a negative one is written M5.\n",
            status: 2,
            opened: 0,
        },
    ),
];

const LOCKED: End = End {
    output: "",
    error: "fault Locked\n",
    status: 3,
    opened: 0,
};

// Whether these words end in this way.
fn come_to(rt: &HostRuntime, words: &[&str], end: &End) -> bool {
    let mut place = OfficePath {
        rt,
        path: "words.db",
        opener: Counting { opened: 0 },
    };
    let mut output = Vec::new(rt.alloc());
    let mut error = Vec::new(rt.alloc());
    let status = do_words(&mut place, &mut NoServer, words, &mut output, &mut error);
    (status, place.opener.opened) == (end.status, end.opened)
        && output.as_slice() == end.output.as_bytes()
        && error.as_slice() == end.error.as_bytes()
}

#[test]
fn words_of_the_plant_end_with_their_status(rt: HostRuntime) -> Result<(), Fail> {
    for row in ENDS {
        let (words, end) = *row;
        assert!(rt; come_to(&rt, words, &end), "at {words:?}");
    }
    let lease = take_lock(&rt, "words.db")?;
    let is_locked = come_to(&rt, &["stock", "ACME"], &LOCKED);
    lease.release();
    fs::remove_file(&rt, "words.db.lock")?;
    assert!(rt; is_locked);
    Ok(())
}

/// An output that takes the lock of an office's file while it is written, and counts how often it gets it.
#[derive(Drop)]
struct LockTaker<'a> {
    rt: &'a HostRuntime,
    taken: u32,
}

impl Sink for LockTaker<'_> {
    fn write_some(&mut self, bytes: &[u8]) -> io::Result<usize> {
        if let Ok(lease) = take_lock(self.rt, "output.db") {
            self.taken = self.taken.saturating_add(1);
            lease.release();
        }
        Ok(bytes.len())
    }
}

#[test]
fn the_lock_is_free_while_the_output_is_written(rt: HostRuntime) -> Result<(), Fail> {
    let mut place = OfficePath {
        rt: &rt,
        path: "output.db",
        opener: Counting { opened: 0 },
    };
    let mut output = LockTaker { rt: &rt, taken: 0 };
    let mut error = Vec::new(rt.alloc());
    let words = &["owner-add", "ACME", "ACMEKEY1"];
    let status = do_words(&mut place, &mut NoServer, words, &mut output, &mut error);
    fs::remove_file(&rt, "output.db.lock")?;
    check((status, output.taken) == (0, 1), "the lock is held")
}
