//! A service over a keep that is open.
ghost use Rattle.std.specs.Prelude.{◌≡◌};
ghost use Rattle.toll_server.specs.RequestBuffers.{bytes_received, listener_of};
ghost use Rattle.toll_service.specs.Parties.{IsBy};
ghost use Rattle.toll_service.specs.Serving.{AnswersOver, ResumesOver};

use crate::answering::answer_at;
use crate::party::Party;
use crate::pending_import::PendingImport;
use std::alloc::{AllocError, Global};
use toll_keep::Keep;
use toll_server::{Poll, RequestBuffer, Service};
use toll_wire::OfficeRouter;

/// A keep that answers clients at both listeners.
#[derive(Drop)]
pub struct KeepService<K> {
    pub keep: K,
    router: OfficeRouter,
}

impl<K> KeepService<K> {
    /// A service that answers clients over this keep.
    pub fn new(keep: K) -> Self
        ensures { result.keep ≡ keep }
    {
        KeepService {
            keep,
            router: OfficeRouter::new(),
        }
    }
}

impl<K: Keep> Service for KeepService<K> {
    type Task = PendingImport;

    type Party = Party;

    ghost is_by = { IsBy };

    ghost answers = { AnswersOver K.meaning (λ service. service.keep) };

    ghost resumes = { ResumesOver K.meaning (λ service. service.keep) };

    fn party(request: &RequestBuffer) -> Party
        ensures { IsBy (listener_of request.now) (bytes_received request.now) result }
    {
        Party::of(request)
    }

    /// The reply, or the import that is left. No bytes if there was no memory; nothing was done then.
    fn answer(&mut self, alloc: Global, request: &RequestBuffer) -> Poll<PendingImport> {
        match answer_at(alloc, &mut self.router, &mut self.keep, request) {
            Ok(reply) => reply.poll,
            Err(AllocError) => Poll::Ready(Vec::new(alloc)),
        }
    }

    fn resume(&mut self, alloc: Global, task: PendingImport) -> Poll<PendingImport> {
        task.resume(alloc, &mut self.keep).poll
    }
}
