//! An import that is given up, since its office was closed and can't be opened.
use crate::served::imports::{import_of_records, push_lines};
use crate::served::{ADD_OWNER, NO_MEMORY, received};
use std::alloc::Global;
use std::fs;
use std::test::Fail;
use toll_files::{Lease, LeftFiles, OfficeFault, PathFiles, take_lock};
use toll_keep::MemKeep;
use toll_plant::GROUP_RECORDS;
use toll_protocol::{EncodeFault, Response};
use toll_server::{Listener, Poll, RequestBuffer, Service};
use toll_service::{KeepOpener, OfficePath, OfficeService};
use toll_stories::{Refused, Refusing};

/// Opens one office, which refuses one change, and then none.
#[derive(Drop)]
struct Once {
    is_opened: bool,
}

impl KeepOpener<Refusing<MemKeep>> for Once {
    ghost use Rattle.std.specs.Prelude.{⊤};

    ghost is_opened = { λ _. ⊤ };

    fn lock(&mut self, rt: &HostRuntime, path: &str) -> Result<Lease, OfficeFault> {
        take_lock(rt, path)
    }

    fn is_unchanged(
        &mut self,
        rt: &HostRuntime,
        path: &str,
        lease: &Lease,
        left: &LeftFiles,
    ) -> Result<bool, OfficeFault> {
        left.is_unchanged(&PathFiles { rt, path }, lease)
    }

    fn open(
        &mut self,
        rt: &HostRuntime,
        _path: &str,
        _lease: &Lease,
    ) -> Result<Refusing<MemKeep>, OfficeFault> {
        if self.is_opened {
            return Err(OfficeFault::Disk);
        }
        self.is_opened = true;
        Ok(Refusing::new(MemKeep::new(rt.alloc()), Refused::Apply))
    }

    fn close(&mut self, _keep: Refusing<MemKeep>, _lease: &Lease) {}
}

// The response to the plant: the outcomes of the first group, and why no more act.
fn wanted(alloc: Global) -> Result<Vec<u8>, EncodeFault> {
    let mut text = String::new(alloc);
    push_lines(alloc, &mut text, 1, GROUP_RECORDS, "refused 3 UnknownOwner")?;
    text.push_str("accepted 0 repeated 0 refused 500 bad 0 fault 0\n")?;
    let reported = Response {
        status: 3,
        output: text.as_bytes(),
        error: b"fault Disk\n",
    };
    reported.encode(alloc)
}

// The outcome of one more turn, if something is left.
fn resume<O: Service>(alloc: Global, office: &mut O, poll: Poll<O::Task>) -> Poll<O::Task> {
    match poll {
        Poll::Pending(task) => office.resume(alloc, task),
        Poll::Ready(bytes) => Poll::Ready(bytes),
    }
}

fn is_expected<T: Drop>(poll: &Poll<T>, wanted: &[u8]) -> bool {
    match poll {
        Poll::Ready(bytes) => bytes.as_slice() == wanted,
        Poll::Pending(_) => false,
    }
}

// Whether that is the response to the import, if a fault is met after its first group.
fn is_given_up<O: Service>(
    alloc: Global,
    office: &mut O,
    requested: &RequestBuffer,
    between: &RequestBuffer,
    wanted: &[u8],
) -> bool {
    let poll = office.answer(alloc, requested);
    let poll = resume(alloc, office, poll);
    let between = office.answer(alloc, between);
    let poll = resume(alloc, office, poll);
    is_expected(&between, NO_MEMORY) && is_expected(&poll, wanted)
}

#[test]
fn outcomes_of_a_given_up_import_are_reported(rt: HostRuntime) -> Result<(), Fail> {
    let import = import_of_records(rt.alloc())?;
    let requested = received(rt.alloc(), Listener::Plant, &import)?;
    let between = received(rt.alloc(), ADD_OWNER.listener, ADD_OWNER.bytes)?;
    let wanted = wanted(rt.alloc())?;
    let mut desk = OfficeService::new(OfficePath {
        rt: &rt,
        path: "given_up.db",
        opener: Once { is_opened: false },
    });
    let is_given_up = is_given_up(rt.alloc(), &mut desk, &requested, &between, &wanted);
    desk.close();
    let _ = fs::remove_file(&rt, "given_up.db.lock");
    assert!(rt; is_given_up);
    Ok(())
}
