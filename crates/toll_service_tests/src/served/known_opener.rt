//! An opener whose openings and looks are known. It shows that an opener can meet the clauses of
//! `KeepOpener` about them, and what the clauses of an office's service say of it.
ghost use Rattle.std.specs.Prelude.{◌≡◌, ◌+◌, ◌∷◌, ⊤, Contains, Ok, Some, false, length};
ghost use Rattle.toll_base.specs.Bytes.{Bytes};
ghost use Rattle.toll_keep.specs.Content.{empty_content};
ghost use Rattle.toll_keep.specs.Slices.{content_of};
ghost use Rattle.toll_server.specs.RequestBuffers.{bytes_received, listener_of};
ghost use Rattle.toll_service.specs.FileServing.{logged_by, openings_of};
ghost use Rattle.toll_service_tests.specs.Openers.{IsAnsweredAnew, damaged_owners, faults_of};

use crate::served::{ADD_OWNER, received};
use http_server::Log;
use std::fs;
use std::test::Fail;
use toll_files::{Lease, LeftFiles, OfficeFault, take_lock};
use toll_keep::{Keep, MemKeep};
use toll_server::{Poll, RequestBuffer, Service};
use toll_service::{KeepOpener, OfficePath, OfficeService, PendingImport, fault_response};

/// Opens offices without rows, or refuses each opening for one fault. Others are found to have written the files
/// at each look. Counts have no bound, so they are in logs that only proofs read.
#[derive(Drop)]
struct KnownOpener {
    fault: Option<OfficeFault>,
    opened: Log<(), ()>,
    refused: Log<OfficeFault, ()>,
}

impl KnownOpener {
    /// Notes that an opening or a lock was refused for this fault.
    fn note_refusal(&mut self, fault: OfficeFault)
        ensures refused { faults_of self.new.refused.items ≡ fault ∷ faults_of self.old.refused.items }
        ensures opened { self.new.opened ≡ self.old.opened }
    {
        self.refused = self.refused.and(&fault, &());
    }
}

impl KeepOpener<MemKeep> for KnownOpener {
    ghost is_opened = { λ keep. content_of keep ≡ empty_content };

    ghost openings = { λ opener. Some (record { opened = length opener.opened.items; refused = faults_of opener.refused.items }) };

    ghost is_found = { λ left found. found ≡ Ok false };

    ghost has_damaged = { λ keep owner. ⊤ };

    fn lock(&mut self, rt: &HostRuntime, path: &str) -> Result<Lease, OfficeFault> {
        let lock = take_lock(rt, path);
        if let Err(fault) = &lock {
            self.note_refusal(*fault);
        }
        lock
    }

    fn is_unchanged(
        &mut self,
        _rt: &HostRuntime,
        _path: &str,
        _lease: &Lease,
        _left: &LeftFiles,
    ) -> Result<bool, OfficeFault> {
        Ok(false)
    }

    fn open(
        &mut self,
        rt: &HostRuntime,
        _path: &str,
        _lease: &Lease,
    ) -> Result<MemKeep, OfficeFault> {
        if let Some(fault) = self.fault {
            self.note_refusal(fault);
            return Err(fault);
        }
        self.opened = self.opened.and(&(), &());
        Ok(MemKeep::new(rt.alloc()))
    }

    fn close(&mut self, _keep: MemKeep, _lease: &Lease) {}
}

// Answers a client by a new service, which opened the office ahead. The clauses follow from those of the service.
fn ask_anew<'a>(
    place: OfficePath<'a, KnownOpener>,
    request: &RequestBuffer,
) -> (Poll<PendingImport>, OfficeService<'a, MemKeep, KnownOpener>)
    ensures answered { let opener = ⟦<KnownOpener as KeepOpener<MemKeep>>⟧ in
        IsAnsweredAnew ⟦<MemKeep as Keep>⟧.meaning opener.is_opened (openings_of opener.openings result.1) (logged_by result.1)
        (listener_of request.now) (bytes_received request.now) result.0 }
    ensures sound { (owner : Bytes) → Contains (damaged_owners result.1) owner → ⊥ }
{
    let alloc = place.rt.alloc();
    let mut service = OfficeService::new(place);
    service.open_ahead();
    let poll = service.answer(alloc, request);
    (poll, service)
}

// Whether a client of a new service is told this, if the opener refuses for this fault.
fn is_expected(rt: &HostRuntime, fault: Option<OfficeFault>, wanted: &[u8]) -> bool {
    let opener = KnownOpener {
        fault,
        opened: Log::new(),
        refused: Log::new(),
    };
    let place = OfficePath {
        rt,
        path: "known_opener.db",
        opener,
    };
    let Ok(request) = received(rt.alloc(), ADD_OWNER.listener, ADD_OWNER.bytes) else {
        return false;
    };
    let (poll, service) = ask_anew(place, &request);
    service.close();
    match poll {
        Poll::Ready(bytes) => bytes.as_slice() == wanted,
        Poll::Pending(_) => false,
    }
}

#[test]
fn a_client_is_told_the_fault_for_which_the_opener_refused(rt: HostRuntime) -> Result<(), Fail> {
    let is_answered = is_expected(&rt, None, ADD_OWNER.expected);
    let is_told = is_expected(
        &rt,
        Some(OfficeFault::NotOurs),
        fault_response(OfficeFault::NotOurs),
    );
    fs::remove_file(&rt, "known_opener.db.lock")?;
    assert!(rt; is_answered && is_told);
    Ok(())
}
