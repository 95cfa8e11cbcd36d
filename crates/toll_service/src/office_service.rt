//! The office in a file, as the clients of a server ask it.
ghost use Rattle.std.specs.Prelude.{◌≡◌, None, Some, is_none, if◌then◌else◌};
ghost use Rattle.toll_server.specs.RequestBuffers.{bytes_received, listener_of};
ghost use Rattle.toll_service.specs.Parties.{IsBy};
ghost use Rattle.toll_service.specs.FileServing.{Answers, IsFresh, Resumes};
ghost use Rattle.toll_service.specs.Sessions.{IsNewSession};

use crate::office_path::{KeepOpener, OfficePath};
use crate::office_session::OfficeSession;
use crate::party::Party;
use crate::pending_import::PendingImport;
use crate::reserved_refusal::ReservedRefusal;
use crate::turn_result::TurnResult;
use std::alloc::Global;
use std::fs;
use toll_files::{FaultLog, OfficeFault, ServingFault};
use toll_keep::Keep;
use toll_server::{Listener, Poll, RequestBuffer, Service};

/// The office in a file as a service. It answers requests and calls by its session, and reports the faults
/// that it meets to the operator.
pub struct OfficeService<'a, K, O> {
    office_path: OfficePath<'a, O>,
    session: OfficeSession<K>,
    faults: FaultLog,
}

/// By hand, as a session's.
impl<K: Drop, O: Drop> Drop for OfficeService<'_, K, O> {
    fn drop(self) {
        let OfficeService {
            office_path: _,
            session: _,
            faults: _,
        } = self;
    }
}

impl<'a, K: Keep + Drop, O: KeepOpener<K>> OfficeService<'a, K, O> {
    /// A service of the office at this path, which is opened for the first request, unless it is opened
    /// ahead.
    pub fn new(office_path: OfficePath<'a, O>) -> Self
        ensures session { IsNewSession result.session }
        ensures office_path { result.office_path ≡ office_path.entry }
    {
        let alloc = office_path.rt.alloc();
        OfficeService {
            office_path,
            session: OfficeSession::new(alloc),
            faults: FaultLog::new(),
        }
    }

    /// Opens the office before the first request, reads its rows and makes the owners' genealogies, if its file is
    /// there. If that fails, the fault is reported to the operator, and each request tries to open it again.
    pub fn open_ahead(&mut self)
        ensures { IsNewSession self.old.session → IsFresh K.meaning O.is_opened O.openings (O.openings self.old.office_path.opener) self.new }
    {
        let OfficePath { rt, path, .. } = self.office_path;
        if fs::metadata(rt, path).is_err() {
            return;
        }
        if let Err(fault) = self.session.open_ahead(&mut self.office_path) {
            self.log_closed(fault);
        }
    }

    /// Closes the file, if it is open.
    pub fn close(self) {
        let OfficeService {
            mut office_path,
            session,
            faults: _,
        } = self;
        session.close(&mut office_path);
    }
}

impl<K: Drop, O: Drop> OfficeService<'_, K, O> {
    // The result of a turn of the session. A fault in it is reported to the operator.
    fn logged(&mut self, reply: TurnResult) -> Poll<PendingImport>
        ensures poll { result ≡ reply.poll }
        ensures session { self.new.session ≡ self.old.session }
        ensures office_path { self.new.office_path ≡ self.old.office_path }
        ensures fault { self.new.faults.fault ≡ (if is_none reply.fault then None else Some ServingFault.Unavailable) }
    {
        let fault = reply.fault.is_some().then_some(ServingFault::Unavailable);
        self.faults.update(self.office_path.rt, fault);
        reply.poll
    }

    // Reports to the operator that the office can't be opened.
    fn log_closed(&mut self, fault: OfficeFault)
        ensures session { self.new.session ≡ self.old.session }
        ensures office_path { self.new.office_path ≡ self.old.office_path }
        ensures fault { self.new.faults.fault ≡ Some (ServingFault.Office fault) }
    {
        self.faults
            .update(self.office_path.rt, Some(ServingFault::Office(fault)));
    }
}

impl<K: Keep + Drop, O: KeepOpener<K>> Service for OfficeService<'_, K, O> {
    type Task = PendingImport;

    type Party = Party;

    ghost is_by = { IsBy };

    ghost answers = { Answers K.meaning O.is_opened O.is_found O.has_damaged O.openings };

    ghost resumes = { Resumes K.meaning O.is_opened O.is_found O.has_damaged O.openings };

    fn party(request: &RequestBuffer) -> Party
        ensures { IsBy (listener_of request.now) (bytes_received request.now) result }
    {
        Party::of(request)
    }

    // A client of the plant's listener that asked nothing only looked whether a server is there. Memory for a
    // refusal is taken before anything else is done. A request or call that is known to meet damage gets that
    // reply without asking the keep.
    fn answer(&mut self, alloc: Global, request: &RequestBuffer) -> Poll<PendingImport> {
        if request.listener() == Listener::Plant && request.bytes().is_empty() {
            return Poll::Ready(Vec::new(alloc));
        }
        let Ok(reserved) = ReservedRefusal::new(alloc) else {
            self.log_closed(OfficeFault::Memory);
            return Poll::Ready(Vec::new(alloc));
        };
        match self.session.is_damaged(&mut self.office_path, request) {
            Ok(true) => return Poll::Ready(reserved.write(request, OfficeFault::Damaged)),
            Ok(false) => {}
            Err(fault) => {
                self.log_closed(fault);
                return Poll::Ready(reserved.write(request, fault));
            }
        }
        match self.session.answer(&mut self.office_path, request) {
            Ok(reply) => self.logged(reply),
            Err(fault) => {
                self.log_closed(fault);
                Poll::Ready(reserved.write(request, fault))
            }
        }
    }

    fn resume(&mut self, alloc: Global, task: PendingImport) -> Poll<PendingImport> {
        match self.session.resume(&mut self.office_path, task) {
            Ok(reply) => self.logged(reply),
            Err(stopped) => {
                self.log_closed(stopped.fault);
                stopped.give_up(alloc)
            }
        }
    }
}
